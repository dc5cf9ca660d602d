// Opening a book: the whole buffer is written, or nothing.
#![tactic(auto)]

ghost use Rattle.std.specs.Prelude.{◌≡◌, ◌∷◌, ◌<◌, [], true, length};
ghost use Rattle.refusal.specs.Answer.{answer_of};
ghost use Rattle.words.specs.Words.{be32};
ghost use Rattle.sheet.specs.Kept.{sheet_length};
ghost use Rattle.meaning.specs.Layout.{limit_place};
ghost use Rattle.meaning.specs.Opening.{Opened, allowed, opened};
ghost use Rattle.opening.specs.Parts.{blank};

use layout::Shape;
use refusal::Refusal;

// What a book is opened with, beside its sheet: n, S, own number, f, d and the season.
#[derive(Clone, Copy, Debug, PartialEq, Eq)]
pub struct Asked {
    pub n: u32,
    pub numbers: u32,
    pub own: u32,
    pub f: u32,
    pub d: u32,
    pub season: u32,
}

impl Asked {
    // n, S, own number, f and d are allowed.
    fn is_allowed(self) -> bool
        ensures { result ≡ allowed self.n self.numbers self.own self.f self.d }
    {
        sizes::is_allowed(self.n, self.numbers, self.own, self.f, self.d)
    }

    // n and S, in a byte each.
    // Kept, here and below: `as u8`, which the clause makes exact; try_from would bring a refusal that never comes.
    #[tactic(auto, using(crate::proofs::Opening::allowed_bytes))]
    fn shape(self) -> Shape
        requires { allowed self.n self.numbers self.own self.f self.d ≡ true }
        ensures { (result.n ≡ self.n) × (result.numbers ≡ self.numbers) }
    {
        Shape {
            n: self.n as u8,
            numbers: self.numbers as u8,
        }
    }

    // The bytes before the sheet: n, S, own number, season.
    #[tactic(auto, using(crate::proofs::Opening::allowed_bytes, words::proofs::Laws::be32_to_be_bytes))]
    fn before_sheet(self) -> [u8; 7]
        requires { allowed self.n self.numbers self.own self.f self.d ≡ true }
        ensures { result ≡ self.n ∷ self.numbers ∷ self.own ∷ be32 self.season }
    {
        let q = self.season.to_be_bytes();
        let (n, numbers, own) = (self.n as u8, self.numbers as u8, self.own as u8);
        [n, numbers, own, q[0], q[1], q[2], q[3]]
    }

    // The bytes behind the sheet: f and d.
    #[tactic(auto, using(crate::proofs::Opening::allowed_bytes))]
    fn behind_sheet(self) -> [u8; 2]
        requires { allowed self.n self.numbers self.own self.f self.d ≡ true }
        ensures { result ≡ self.f ∷ self.d ∷ [] }
    {
        [self.f as u8, self.d as u8]
    }
}

// Writes the whole buffer: the header, and every slot empty.
#[tactic(auto, using(crate::proofs::Filling::blank_laid, crate::proofs::Filling::cleared))]
fn lay_blank(b: &mut [u8], asked: Asked, sheet: &[u8])
    requires room { limit_place < length b.old }
    requires sheet { length sheet.now ≡ sheet_length }
    requires allowed { allowed asked.n asked.numbers asked.own asked.f asked.d ≡ true }
    ensures { b.new ≡ blank (length b.old) asked.n asked.numbers asked.own asked.f asked.d asked.season sheet.now }
{
    b.fill(0);
    slots::lay_at(b, 0, &asked.before_sheet());
    slots::lay_at(b, layout::DOWN, &asked.behind_sheet());
    slots::lay_at(b, layout::SHEET, sheet);
}

// Opening: 9, 10, 11; else it writes the whole buffer.
#[tactic(auto, using(crate::proofs::Opening::opens), unfolding(meaning::specs::Layout::length_of, meaning::specs::Layout::head_length))]
pub fn open_book(book: &mut [u8], asked: Asked, sheet: &[u8]) -> Result<(), Refusal>
    ensures { ◌≡◌ {A = Opened} (record { answer = answer_of result; book = book.new })
        (opened book.old asked.n asked.numbers asked.own asked.f asked.d asked.season sheet.now) }
{
    if !asked.is_allowed() {
        return Err(Refusal::NotAllowed);
    }
    if !judge::is_sheet(sheet) {
        return Err(Refusal::NotASheet);
    }
    if book.len() != asked.shape().book_length() {
        return Err(Refusal::OtherLength);
    }
    lay_blank(book, asked, sheet);
    Ok(())
}
