// A house that returns: the request that it asks all with, and what it sent, to send again.
#![tactic(auto)]

ghost use Rattle.std.specs.Prelude.{◌≡◌, ◌+◌, ◌≤◌, length};
ghost use Rattle.message.specs.Message.{number_of};
ghost use Rattle.meaning.specs.Layout.{sheet_place, slot_length};
ghost use Rattle.meaning.specs.Slot.{slot_at};
ghost use Rattle.meaning.specs.Book.{season_of};
ghost use Rattle.meaning.specs.Legal.{Has};
ghost use Rattle.calls.specs.Entered.{kind_of};
ghost use Rattle.calls.specs.Again.{returned, sending, sent_as, sent_of};
ghost use Rattle.again.specs.Letter.{letter_of, message_of, given};

use calls::{Returned, Sent};
use message::Kind;
use refusal::Refusal;

// A return: 1, else 0 and the request to all.
pub fn come_back(book: &[u8]) -> Returned
    ensures { result ≡ returned book.now }
{
    if !book::is_legal(book) {
        return Returned {
            answer: Refusal::NotLegal.into(),
            request: [0; 11],
        };
    }
    let request = writer::write_request(layout::season_of(book));
    Returned { answer: 0, request }
}

// The message of the kind with the declaration in the slot at `at`, or none.
fn sent_in(book: &[u8], at: usize, kind: Kind, sender: u8, number: u8) -> Option<[u8; 36]>
    requires { (at + slot_length ≤ length book.now) × (sheet_place ≤ length book.now) }
    ensures { message_of result ≡ letter_of (number_of kind) (season_of book.now) sender number (slot_at book.now at) }
{
    if !slots::is_full(book, at) {
        return None;
    }
    // Kept: by the numbers and back, as `letter_of` tells them; tried as the bytes that stand, and the proof did not close.
    let d = octets::bytes_of(octets::declaration_at(book, at + 1));
    let season = layout::season_of(book);
    Some(writer::lay_message(fields::number_of(kind), season, sender, number, d))
}

// What this house sent of the kind on an entry of the book. An ECHO sent is of the SEND recorded, so it is read there.
fn sent_entry(book: &[u8], kind: Kind, sender: u8, number: u8) -> Option<[u8; 36]>
    requires { Has book.now sender number }
    ensures { sending 0 (message_of result) ≡ sent_as book.now (kind_of (number_of kind)) sender number }
{
    let entry = layout::entry_at(book, sender, number);
    match kind {
        Kind::Send => {
            if sender != layout::own_of(book) {
                return None;
            }
            let at = layout::shape_of(book).published(number);
            sent_in(book, at, kind, sender, number)
        }
        Kind::Echo => sent_in(book, entry.send(), kind, sender, number),
        Kind::Ready => sent_in(book, entry.ready_sent(), kind, sender, number),
    }
}

// 1, 2 for a kind not 1 to 3, 4; else the message, or none.
fn find_sent(book: &[u8], kind: u8, sender: u32, number: u32) -> Result<Option<[u8; 36]>, Refusal>
    ensures { given result ≡ sent_of book.now kind sender number }
{
    if !book::is_legal(book) {
        return Err(Refusal::NotLegal);
    }
    let kind = fields::kind_of(kind)?;
    if sender >= u32::from(layout::n_of(book)) {
        return Err(Refusal::NotThere);
    }
    if number >= u32::from(layout::numbers_of(book)) {
        return Err(Refusal::NotThere);
    }
    // Kept: `as u8`, which the test before makes exact; try_from would bring a refusal that never comes.
    Ok(sent_entry(book, kind, sender as u8, number as u8))
}

// What was sent: 1, 2 for a kind not 1 to 3, 4; else the message, or a plain none.
pub fn sent_on(book: &[u8], kind: u8, sender: u32, number: u32) -> Sent
    ensures { result ≡ sent_of book.now kind sender number }
{
    match find_sent(book, kind, sender, number) {
        Ok(Some(message)) => Sent {
            answer: 0,
            gives: true,
            message,
        },
        Ok(None) => Sent {
            answer: 0,
            gives: false,
            message: [0; 36],
        },
        Err(refusal) => Sent {
            answer: refusal.into(),
            gives: false,
            message: [0; 36],
        },
    }
}
