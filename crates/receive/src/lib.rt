// Receiving, and receiving by entry: the one tests the whole book, the other its head and, further on, the named entry. Past that they are
// one: each function makes the next test in the order of answers, refuses with its number, or goes on.
#![tactic(auto)]

ghost use Rattle.std.specs.Prelude.{◌≡◌, true};
ghost use Rattle.std.proofs.Math.Option.{some};
ghost use Rattle.words.specs.Words.{Bytes};
ghost use Rattle.message.specs.Message.{five_at, read_of, request_of};
ghost use Rattle.meaning.specs.Legal.{head_legal};
ghost use Rattle.calls.specs.Entered.{result_of};
ghost use Rattle.calls.specs.Call.{requested, received};
ghost use Rattle.calls.specs.ByEntry.{heard_in, any_in, received_entry};
ghost use Rattle.reply.specs.Handed.{help_of, outcome_of};
ghost use Rattle.admit.specs.Tested.{Shows};

use admit::Tested;
use calls::Outcome;
use refusal::Refusal;
use reply::Step;
use step::Letter;

// Where the season stands in a message and in a request.
const SEASON: usize = 7;

// A request, by the season that it names: 3, then 4 and 14.
// Kept, here, in `help` and in `waiting`: that the head is legal is a clause, since C lends bare bytes, and no type of a legal book
// outlives the call.
fn ask(book: &mut [u8], house: u32, named: u32) -> Result<(), Refusal>
    requires { head_legal book.old ≡ true }
    ensures { result_of (help_of result) book.new ≡ requested book.old house named }
{
    if named != layout::season_of(book) {
        return Err(Refusal::OtherSeason);
    }
    help::hear_request(book, house)
}

// A message: 3, then 4 and on.
fn hear(book: &mut [u8], house: u32, tested: Tested, letter: &Letter) -> Result<Step, Refusal>
    requires { Shows tested book.old × Bytes letter.now.bytes.now }
    ensures { result_of (outcome_of result letter.now.bytes.now) book.new
        ≡ heard_in book.old house (some (five_at letter.now.bytes.now)) }
{
    if letter.message.season != layout::season_of(book) {
        return Err(Refusal::OtherSeason);
    }
    admit::find(book, house, tested, letter)
}

// 2, then 3 and on.
fn answer(book: &mut [u8], house: u32, tested: Tested, bytes: &[u8]) -> Outcome
    requires { Shows tested book.old }
    ensures { result_of result book.new
        ≡ any_in book.old house (request_of bytes.now) (read_of bytes.now).five }
{
    if fields::is_request(bytes) {
        return match ask(book, house, octets::word_at(bytes, SEASON)) {
            Ok(()) => reply::help(),
            Err(refusal) => reply::refuse(refusal.into()),
        };
    }
    // Kept: document 01 names this form, let-else on what the reader gives; the else branch answers 2.
    let Some(message) = reader::read_message(bytes) else {
        return reply::refuse(Refusal::Malformed.into());
    };
    let letter = Letter { message, bytes };
    reply::hand_step(hear(book, house, tested, &letter), bytes)
}

// Kept, this and the one below: two functions, since C links both names; what follows the test that differs is one.
// Receiving: 1, 2, then 3 and on: 1 to 6 in order, then 7 or 13; a request 1 to 4, then 14.
pub fn receive(book: &mut [u8], house: u32, message: &[u8]) -> Outcome
    ensures { result_of result book.new ≡ received book.old house message.now }
{
    if !book::is_legal(book) {
        return reply::refuse(Refusal::NotLegal.into());
    }
    answer(book, house, Tested::Whole, message)
}

// Receiving by entry: 1 for the head, 2, 3, 4 for the entry, 1 for its slots, 4 for the house, and on; a request as in receiving.
pub fn receive_entry(book: &mut [u8], house: u32, message: &[u8]) -> Outcome
    ensures { result_of result book.new ≡ received_entry book.old house message.now }
{
    if !book::is_head_legal(book) {
        return reply::refuse(Refusal::NotLegal.into());
    }
    answer(book, house, Tested::Head, message)
}
