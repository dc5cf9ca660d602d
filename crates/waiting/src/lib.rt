// The earliest waiting entry.
#![tactic(auto)]

ghost use Rattle.std.specs.Prelude.{◌≡◌, true};
ghost use Rattle.meaning.specs.Book.{n_of, numbers_of};
ghost use Rattle.meaning.specs.Legal.{head_legal, Has};
ghost use Rattle.calls.specs.Search.{waits, earliest, found, waiting};
ghost use Rattle.waiting.specs.Found.{told};

use calls::Waiting;
use layout::Shape;
use refusal::Refusal;

// An entry, by its number and its sender.
#[derive(Clone, Copy, PartialEq, Eq, Debug)]
pub struct Place {
    pub number: u8,
    pub sender: u8,
}

// What is handed back where nothing is found.
const NOTHING: Waiting = Waiting {
    answer: 0,
    waits: false,
    number: 0,
    sender: 0,
};

// With a SEND heard and nothing delivered.
#[tactic(auto, using(crate::proofs::Searching::waits_heard, crate::proofs::Searching::waits_unheard))]
fn waits_at(book: &[u8], sender: u8, number: u8) -> bool
    requires { Has book.now sender number }
    ensures { result ≡ waits book.now sender number }
{
    let entry = layout::entry_at(book, sender, number);
    slots::is_full(book, entry.send()) && !slots::is_full(book, entry.delivered())
}

// Lowest number first and then lowest sender.
fn search(book: &[u8], shape: Shape) -> Option<Place>
    requires { (head_legal book.now ≡ true) × (shape.n ≡ n_of book.now) × (shape.numbers ≡ numbers_of book.now) }
    ensures { told result ≡ found (earliest book.now) }
{
    let mut found = None;
    // Kept: document 01 names this form, nested loops over numbers and senders, left by a label with the first waiting entry.
    'search: for number in 0..shape.numbers {
        for sender in 0..shape.n {
            if waits_at(book, sender, number) {
                found = Some(Place { number, sender });
                break 'search;
            }
        }
    }
    found
}

// The earliest waiting entry, or a plain none, or answer 1.
pub fn earliest_waiting(book: &[u8]) -> Waiting
    ensures { result ≡ waiting book.now }
{
    if !book::is_legal(book) {
        return Waiting {
            answer: Refusal::NotLegal.into(),
            ..NOTHING
        };
    }
    match search(book, layout::shape_of(book)) {
        Some(place) => Waiting {
            answer: 0,
            waits: true,
            number: place.number,
            sender: place.sender,
        },
        None => NOTHING,
    }
}
