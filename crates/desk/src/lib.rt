// The desk: the books of several houses in one buffer, and the calls that change one: opening, publishing and receiving. Each is made with
// the numbers that a script set, and what came of it is put among them, to be told.
#![tactic(auto)]

use calls::Outcome;
use hand::{MOISTURE, answered, declaration_of, read, reading_of};
use script::{Call, DELIVERS, FROM, GIVES, KIND, NUMBER, Numbers};
use stage::given;

// What came of a call, by the letters of its numbers.
const GIVEN_KIND: u8 = b'K';

const GIVEN_MOISTURE: u8 = b'M';

const DELIVERED_MOISTURE: u8 = b'D';

// ---- what came of a call

// The message given is read apart from the numbers of the call.
fn note(r: &mut Numbers, o: &Outcome) {
    let mut of_message = *r;
    read(&mut of_message, &o.message);
    answered(r, o.answer);
    r.set(GIVES, given(o.answer, o.gives, o.helps) as u32);
    r.set(GIVEN_KIND, of_message.get(KIND));
    r.set(GIVEN_MOISTURE, of_message.get(MOISTURE));
    r.set(DELIVERS, u32::from(o.delivers));
    let delivered = octets::declaration_at(&o.declaration, 0);
    r.set(DELIVERED_MOISTURE, reading_of(delivered.moisture));
}

// ---- the calls, each with the message that it gives, which is zeros where it gives none
// Kept: zeros in place of None, since they are posted where the script sets g itself.

fn publish(book: &mut [u8], r: &mut Numbers) -> [u8; 36] {
    let declaration = octets::bytes_of(declaration_of(r));
    let o = publish::publish(book, r.get(NUMBER), &declaration);
    note(r, &o);
    o.message
}

// What cannot be handed in is not received.
fn receive(book: &mut [u8], r: &mut Numbers, handed: Option<&[u8]>) -> [u8; 36] {
    match handed {
        Some(message) => {
            let o = receive::receive(book, r.get(FROM), message);
            note(r, &o);
            o.message
        }
        None => [0; 36],
    }
}

fn on_book(book: &mut [u8], call: Call, r: &mut Numbers, handed: Option<&[u8]>) -> [u8; 36] {
    match call {
        Call::Open | Call::OpenWith => {
            outset::open(book, r);
            [0; 36]
        }
        Call::Publish => publish(book, r),
        _ => receive(book, r, handed),
    }
}

// A call on the book of a house, where the desk has room for it.
pub fn on_desk(desk: &mut [u8], call: Call, r: &mut Numbers, handed: Option<&[u8]>) -> [u8; 36] {
    match desk.get_mut(outset::place_of(r)) {
        Some(book) => on_book(book, call, r, handed),
        None => {
            r.refuse();
            [0; 36]
        }
    }
}
