// Which n, S, own number, f and d are allowed, and how long a book of them is.
#![tactic(auto)]

ghost use Rattle.std.specs.Prelude.{◌≡◌, ◌&&◌};
ghost use Rattle.card.specs.Card.{houses_ok};
ghost use Rattle.meaning.specs.Layout.{numbers_ok};
ghost use Rattle.meaning.specs.Opening.{Length, allowed, length_answer};
ghost use Rattle.sizes.specs.Answer.{told};

use layout::Shape;
use refusal::Refusal;

// Entry numbers S: 1 to 4 per sender.
const MOST_NUMBERS: u32 = 4;

// The recovery limit d: 0 to 8.
const MOST_LIMIT: u32 = 8;

// S is 1 to 4.
#[tactic(auto, unfolding(meaning::specs::Layout::numbers_ok, meaning::specs::Layout::most_numbers))]
fn is_numbers(numbers: u32) -> bool
    ensures { result ≡ numbers_ok numbers }
{
    1 <= numbers && numbers <= MOST_NUMBERS
}

// n and S are allowed.
fn is_size(n: u32, numbers: u32) -> bool
    ensures { result ≡ houses_ok n && numbers_ok numbers }
{
    counts::is_houses(n) && is_numbers(numbers)
}

// n, S, own number, f and d are allowed.
// Kept: five numbers, since a book's are bytes of its head and opening's are C's; a struct of them would be made for this test alone.
#[tactic(auto, unfolding(meaning::specs::Opening::allowed, meaning::specs::Layout::most_limit))]
pub fn is_allowed(n: u32, numbers: u32, own: u32, f: u32, d: u32) -> bool
    ensures { result ≡ allowed n numbers own f d }
{
    is_size(n, numbers) && own < n && counts::is_down(n, f) && d <= MOST_LIMIT
}

// The public answer for a length that depends on n and S only: 9.
#[tactic(auto, using(crate::proofs::Sizes::n_byte, crate::proofs::Sizes::numbers_byte), unfolding(meaning::specs::Opening::length_answer))]
pub fn length_of(n: u32, numbers: u32) -> Result<u64, Refusal>
    ensures { ◌≡◌ {A = Length} (told result) (length_answer n numbers) }
{
    if !is_size(n, numbers) {
        return Err(Refusal::NotAllowed);
    }
    // Kept: `as u8`, which the test before makes exact; try_from would bring a refusal that never comes.
    let shape = Shape {
        n: n as u8,
        numbers: numbers as u8,
    };
    Ok(shape.book_length() as u64)
}

// Answer 0 and a book's length, or why not and 0: what C is given of a length.
#[repr(C)]
#[derive(Clone, Copy)]
pub struct LengthAnswer {
    pub answer: u8,
    pub length: u64,
}

impl From<Result<u64, Refusal>> for LengthAnswer {
    ghost from_gives = { λ length given. ◌≡◌ {A = Length} (record { answer = given.answer; length = given.length }) (told length) };

    fn from(length: Result<u64, Refusal>) -> LengthAnswer {
        match length {
            Ok(length) => LengthAnswer { answer: 0, length },
            Err(refusal) => LengthAnswer {
                answer: u8::from(refusal),
                length: 0,
            },
        }
    }
}
