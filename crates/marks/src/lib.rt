// What an entry of a legal book has recorded and marked, and which marks the vouchers now make.
#![tactic(auto)]

ghost use Rattle.std.specs.Prelude.{◌≡◌, cond, ◌&&◌, ◌+◌, ◌<◌, ◌≤◌, leb, length};
ghost use Rattle.refusal.specs.Answer.{answer_of};
ghost use Rattle.card.specs.Card.{counts_of};
ghost use Rattle.card.specs.Count.{count};
ghost use Rattle.entry.specs.Entry.{is_none, holds};
ghost use Rattle.protocol.specs.Steps.{recording};
ghost use Rattle.meaning.specs.Slot.{slot_at, put_slot};
ghost use Rattle.meaning.specs.Layout.{slot_length, place_from};
ghost use Rattle.meaning.specs.Book.{down_of};
ghost use Rattle.layout.specs.Places.{Within, Lies};
ghost use Rattle.marks.specs.Marks.{echo_mark, ready_marks};

use card::Counts;
use layout::EntryAt;
use refusal::Refusal;

// Whether vouchers now make a READY, and deliver.
#[derive(Clone, Copy, PartialEq, Eq, Debug)]
pub struct Marks {
    pub gives: bool,
    pub delivers: bool,
}

// Whether nothing was accepted of this kind from this house on this entry: 7, with the same declaration; 13, with a different one. The slot
// is compared as vouchers are counted, so that declarations are compared in one place.
// Kept: counted and not compared by ==, of which two ways were counted and took more instructions (MEASURES).
pub fn record_answer(book: &[u8], at: usize, d: [u8; 20]) -> Result<(), Refusal>
    requires { at + slot_length ≤ length book.now }
    ensures { answer_of result ≡ recording (slot_at book.now at) d }
{
    if !slots::is_full(book, at) {
        return Ok(());
    }
    if vouchers::count_same(book, at, 1, d) == 1 {
        return Err(Refusal::SaidBefore);
    }
    Err(Refusal::SaidOtherwise)
}

// Nothing is marked at `at` yet, and the vouchers are enough.
fn is_reached(book: &[u8], at: usize, least: usize, votes: usize) -> bool
    requires { at < length book.now }
    ensures { result ≡ is_none (slot_at book.now at) && leb least votes }
{
    !slots::is_full(book, at) && least <= votes
}

// Fills the slot at `at` where `yes` says so.
// Kept: a flag, since the clause says both cases, and a step goes one way for both.
pub fn mark(book: &mut [u8], at: usize, yes: bool, d: [u8; 20])
    requires { at + slot_length ≤ length book.old }
    ensures { book.new ≡ cond yes (put_slot book.old at d) book.old }
{
    if yes {
        slots::put_slot(book, at, d);
    }
}

// The counts for the book's houses, and how many of the row of vouchers that begins at `row` hold d.
fn tally(book: &[u8], entry: EntryAt, row: usize, d: [u8; 20]) -> (Counts, usize)
    requires { Lies book.now entry × (place_from row entry.n ≤ length book.now) }
    ensures { (result.0 ≡ counts_of entry.n (down_of book.now))
        × (result.1 ≡ count (λ p. holds (slot_at book.now (place_from row p)) d) entry.n) }
{
    let n = usize::from(entry.n);
    let counts = counts::counts_of(n, usize::from(layout::down_of(book)));
    (counts, vouchers::count_same(book, row, n, d))
}

// Whether the ECHOes of d now make a READY.
pub fn echo_mark(book: &[u8], entry: EntryAt, d: [u8; 20]) -> bool
    requires { Within book.now entry.base }
    ensures { result ≡ echo_mark book.now entry.base d }
{
    let here = entry.in_book(book);
    let (counts, votes) = tally(book, here, here.echo(0), d);
    is_reached(book, here.ready_sent(), counts.quorum, votes)
}

// Whether the READYs of d now make a READY, and deliver.
pub fn ready_marks(book: &[u8], entry: EntryAt, d: [u8; 20]) -> Marks
    requires { Within book.now entry.base }
    ensures { result ≡ ready_marks book.now entry.base d }
{
    let entry = entry.in_book(book);
    let (counts, votes) = tally(book, entry, entry.ready(0), d);
    Marks {
        gives: is_reached(book, entry.ready_sent(), counts.amplify, votes),
        delivers: is_reached(book, entry.delivered(), counts.deliver, votes),
    }
}
