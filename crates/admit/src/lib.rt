// A message of the book's season: 4 for its entry, 1 for that entry's slots, 4 for the house, 5, 6, and then the step of its kind.
#![tactic(auto)]

ghost use Rattle.std.specs.Prelude.{◌≡◌, ◌<◌};
ghost use Rattle.message.specs.Message.{five_at};
ghost use Rattle.meaning.specs.Book.{n_of};
ghost use Rattle.meaning.specs.Legal.{entry_legal, Has};
ghost use Rattle.calls.specs.Entered.{result_of};
ghost use Rattle.calls.specs.ByEntry.{heard_on};
ghost use Rattle.layout.specs.Places.{Opens};
ghost use Rattle.reply.specs.Handed.{outcome_of};
ghost use Rattle.step.specs.Carries.{Comes, Carries};
ghost use Rattle.admit.specs.Heard.{heard_as};
ghost use Rattle.admit.specs.Tested.{Shows};

use layout::EntryAt;
use message::Kind;
use refusal::Refusal;
use reply::Step;
use step::Letter;

// What of the book was found legal: the whole, or its head alone.
#[derive(Clone, Copy, PartialEq, Eq, Debug)]
pub enum Tested {
    Whole,
    Head,
}

// 6, then the step of the kind, which answers 7 or 13 where its kind was heard before.
fn take(book: &mut [u8], house: u8, entry: EntryAt, letter: &Letter) -> Result<Step, Refusal>
    requires { Carries book.old letter.now.bytes.now entry.base × (house < n_of book.old) }
    ensures { result_of (outcome_of result letter.now.bytes.now) book.new
        ≡ heard_as book.old house letter.now.bytes.now }
{
    match letter.message.kind {
        Kind::Send => {
            if house != letter.message.sender {
                return Err(Refusal::NotFromSender);
            }
            step::hear_send(book, entry, letter.bytes)
        }
        Kind::Echo => step::hear_echo(book, house, entry, letter.bytes),
        Kind::Ready => step::hear_ready(book, house, entry, letter.bytes),
    }
}

// Whether each slot of the entry has its one form; where the whole book was found legal, it has.
#[tactic(auto, using(meaning::proofs::Legality::legal_entry, meaning::proofs::Legality::entry_row))]
fn is_entry_legal(book: &[u8], tested: Tested, sender: u8, number: u8, entry: EntryAt) -> bool
    requires { Has book.now sender number × Opens book.now sender number entry × Shows tested book.now }
    ensures { result ≡ entry_legal book.now sender number }
{
    if matches!(tested, Tested::Whole) {
        return true;
    }
    book::is_entry_ok(book, entry)
}

// 4 for the entry, 1 for its slots, 4 for the house, 5, then 6 and on.
pub fn find(book: &mut [u8], house: u32, tested: Tested, letter: &Letter) -> Result<Step, Refusal>
    requires { Comes book.old letter.now.bytes.now × Shows tested book.old }
    ensures { result_of (outcome_of result letter.now.bytes.now) book.new
        ≡ heard_on book.old house (five_at letter.now.bytes.now) }
{
    let sender = letter.message.sender;
    let number = letter.message.number;
    if sender >= layout::n_of(book) {
        return Err(Refusal::NotThere);
    }
    if number >= layout::numbers_of(book) {
        return Err(Refusal::NotThere);
    }
    let entry = layout::entry_at(book, sender, number);
    if !is_entry_legal(book, tested, sender, number, entry) {
        return Err(Refusal::NotLegal);
    }
    if house >= u32::from(layout::n_of(book)) {
        return Err(Refusal::NotThere);
    }
    if !gates::is_plausible(layout::sheet_of(book), letter.message.declaration) {
        return Err(Refusal::NotPlausible);
    }
    // Kept: `as u8`, which the test before makes exact; try_from would bring a refusal that never comes.
    take(book, house as u8, entry, letter)
}
