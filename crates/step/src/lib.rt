// One step on the bytes: what the entry that a message names records, marks, gives and delivers, past every answer but the last.
#![tactic(auto)]

ghost use Rattle.std.specs.Prelude.{◌≡◌, ◌<◌, true, get_or};
ghost use Rattle.words.specs.Words.{word_at};
ghost use Rattle.lot.specs.Declaration.{declaration_at};
ghost use Rattle.message.specs.Message.{number_of, well_formed};
ghost use Rattle.entry.specs.Entry.{SEND, ECHO, READY};
ghost use Rattle.meaning.specs.Book.{n_of};
ghost use Rattle.calls.specs.Entered.{result_of};
ghost use Rattle.calls.specs.ByEntry.{called_in};
ghost use Rattle.reply.specs.Handed.{sender_in, number_in, lot_in, outcome_of};
ghost use Rattle.step.specs.Carries.{asked_by, Carries};

use layout::EntryAt;
use message::{Kind, Message};
use refusal::Refusal;
use reply::Step;

// Where the declaration's 20 bytes stand in a message.
const LOT: usize = 16;

// A message that came: what it says, and the bytes that say it.
#[derive(Clone, Copy)]
pub struct Letter<'a> {
    pub message: Message,
    pub bytes: &'a [u8],
    pub ghost formed: { well_formed bytes.now ≡ true },
    pub ghost of_kind: { number_of message.kind ≡ get_or bytes.now 3 0 },
    pub ghost of_season: { message.season ≡ word_at bytes.now 7 },
    pub ghost of_sender: { message.sender ≡ sender_in bytes.now },
    pub ghost of_number: { message.number ≡ number_in bytes.now },
    pub ghost of_declaration: { message.declaration ≡ declaration_at bytes.now 16 },
}

// The declaration's bytes.
#[tactic(auto, using(message::proofs::Form::sized))]
fn lot_of(message: &[u8]) -> [u8; 20]
    requires { well_formed message.now ≡ true }
    ensures { result ≡ lot_in message.now }
{
    octets::twenty_at(message, LOT)
}

// A SEND from the entry's sender: recorded, and answered with an ECHO of it.
// Kept, this and the two below: three functions, since the pages name each, and each has the clause of its own kind.
pub fn hear_send(book: &mut [u8], entry: EntryAt, message: &[u8]) -> Result<Step, Refusal>
    requires { Carries book.old message.now entry.base }
    ensures { result_of (outcome_of result message.now) book.new
        ≡ called_in book.old (asked_by (sender_in message.now) SEND message.now) }
{
    let at = entry.send();
    marks::record_answer(book, at, lot_of(message))?;
    slots::put_slot(book, at, lot_of(message));
    Ok(Step {
        gives: Some(Kind::Echo),
        delivers: false,
    })
}

// An ECHO: recorded; at the quorum a READY is marked and given.
pub fn hear_echo(
    book: &mut [u8],
    house: u8,
    entry: EntryAt,
    message: &[u8],
) -> Result<Step, Refusal>
    requires { Carries book.old message.now entry.base × (house < n_of book.old) }
    ensures { result_of (outcome_of result message.now) book.new
        ≡ called_in book.old (asked_by house ECHO message.now) }
{
    let here = entry.in_book(book);
    let at = here.echo(house);
    marks::record_answer(book, at, lot_of(message))?;
    slots::put_slot(book, at, lot_of(message));
    let gives = marks::echo_mark(book, here, lot_of(message));
    marks::mark(book, here.ready_sent(), gives, lot_of(message));
    Ok(Step {
        gives: gives.then_some(Kind::Ready),
        delivers: false,
    })
}

// A READY: recorded; at t+1 a READY is marked and given, at 2t+f+1 the declaration marked and delivered.
pub fn hear_ready(
    book: &mut [u8],
    house: u8,
    entry: EntryAt,
    message: &[u8],
) -> Result<Step, Refusal>
    requires { Carries book.old message.now entry.base × (house < n_of book.old) }
    ensures { result_of (outcome_of result message.now) book.new
        ≡ called_in book.old (asked_by house READY message.now) }
{
    let entry = entry.in_book(book);
    let at = entry.ready(house);
    marks::record_answer(book, at, lot_of(message))?;
    slots::put_slot(book, at, lot_of(message));
    let m = marks::ready_marks(book, entry, lot_of(message));
    marks::mark(book, entry.ready_sent(), m.gives, lot_of(message));
    marks::mark(book, entry.delivered(), m.delivers, lot_of(message));
    Ok(Step {
        gives: m.gives.then_some(Kind::Ready),
        delivers: m.delivers,
    })
}
