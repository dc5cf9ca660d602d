// The clerk of each house: the calls that change no book, which tell what was sent, which entry waits and what a house asks on return; and
// with them what follows a call in a season, where a message given is posted, who asked is helped, and a house that returns sends again.
#![tactic(auto)]

use calls::Waiting;
use hand::answered;
use message::Kind;
use post::{List, byte, has};
use script::{CALL, Call, FROM, GIVES, HONEST, HOUSES, KIND, NUMBER, Numbers, OWN, SENDER};
use stage::{Gives, Scene, given};
use std::io;
use std::io::Write;
use std::ops::Range;

const WAITS: u8 = b'e';

// What is told where nothing was sent, by its number in the script.
// Kept: a number, as those of `stage` are.
const NOTHING: u32 = 32;

// Which entry is told as the earliest that waits, by its number in the script.
#[derive(Clone, Copy, PartialEq, Eq, Debug)]
enum Waits {
    None = 0,
    Entry = 1,
    Refused = 2,
}

impl From<&Waiting> for Waits {
    fn from(w: &Waiting) -> Waits {
        match (w.answer, w.waits) {
            (0, true) => Waits::Entry,
            (0, false) => Waits::None,
            _ => Waits::Refused,
        }
    }
}

// ---- the calls, each with the message that it gives, which is zeros where it gives none
// Kept: zeros in place of None, and 36 bytes for a request's 11, since they are posted where the script sets g itself.

fn come_back(book: &[u8], r: &mut Numbers) -> [u8; 36] {
    let back = again::come_back(book);
    answered(r, back.answer);
    let mut message: [u8; 36] = [0; 36];
    message[..11].copy_from_slice(&back.request);
    message
}

fn sent(book: &[u8], r: &mut Numbers) -> [u8; 36] {
    let sent = again::sent_on(book, byte(r.get(KIND)), r.get(SENDER), r.get(NUMBER));
    answered(r, sent.answer);
    r.set(GIVES, given(sent.answer, sent.gives, false) as u32);
    sent.message
}

fn waiting(book: &[u8], r: &mut Numbers) -> [u8; 36] {
    let w = waiting::earliest_waiting(book);
    answered(r, w.answer);
    r.set(WAITS, Waits::from(&w) as u32);
    r.set(NUMBER, u32::from(w.number));
    r.set(SENDER, u32::from(w.sender));
    [0; 36]
}

fn on_book(book: &[u8], call: Call, r: &mut Numbers) -> [u8; 36] {
    match call {
        Call::Sent => sent(book, r),
        Call::Waiting => waiting(book, r),
        _ => come_back(book, r),
    }
}

// A call on the book of a house, where the desk has it.
// Kept: beside `on_desk` of `desk`, since the one reads a book and the other changes it, and no function is over both loans.
fn look_up(desk: &[u8], call: Call, r: &mut Numbers) -> [u8; 36] {
    match desk.get(outset::place_of(r)) {
        Some(book) => on_book(book, call, r),
        None => {
            r.refuse();
            [0; 36]
        }
    }
}

// ---- what is sent again

// What a house sent of a kind.
fn send_kind<W: Write>(
    scene: &mut Scene<'_, W>,
    mut r: Numbers,
    kind: Kind,
    to: &Range<u32>,
) -> io::Result<()> {
    r.set(CALL, u32::from(Call::Sent));
    r.set(KIND, u32::from(fields::number_of(kind)));
    let message = look_up(scene.desk, Call::Sent, &mut r);
    if r.get(GIVES) == Gives::Message as u32 {
        hand::read(&mut r, &message);
        return scene.send_again(r, message, to);
    }
    Ok(())
}

// All that a house sent on the entry of house 0, which alone publishes in these seasons.
fn send_all<W: Write>(scene: &mut Scene<'_, W>, r: Numbers, to: &Range<u32>) -> io::Result<()> {
    let before = has(scene.desk, List::Copies.place(), 0);
    for kind in [Kind::Send, Kind::Echo, Kind::Ready] {
        send_kind(scene, r, kind, to)?;
    }
    if has(scene.desk, List::Copies.place(), 0) == before {
        return scene.teller.say_line(NOTHING, &r);
    }
    Ok(())
}

// ---- what follows a call

// What came of a call is told; in a season a message given is posted, and who asked is helped: a helper sends to the asker alone.
pub fn follow<W: Write>(scene: &mut Scene<'_, W>, r: Numbers, message: [u8; 36]) -> io::Result<()> {
    scene.teller.told(&r)?;
    if r.get(HONEST) != 0 {
        scene.give(&r, message);
        if r.get(GIVES) == Gives::Help as u32 {
            let asker = r.get(FROM);
            return send_all(scene, r, &(asker..asker.wrapping_add(1)));
        }
    }
    Ok(())
}

fn look<W: Write>(scene: &mut Scene<'_, W>, call: Call, mut r: Numbers) -> io::Result<()> {
    let message = look_up(scene.desk, call, &mut r);
    follow(scene, r, message)
}

// On return a house sends again to all what it has sent and asks all for help.
fn start_again<W: Write>(scene: &mut Scene<'_, W>, mut r: Numbers) -> io::Result<()> {
    scene.go_up(r.get(OWN));
    let request = look_up(scene.desk, Call::StartAgain, &mut r);
    scene.teller.told(&r)?;
    send_all(scene, r, &(0..r.get(HOUSES)))?;
    scene.ask_all(r, request)
}

// A call or a step that changes no book.
// Kept, here and in `transcript`: the call beside the numbers, among which its own stands, since it is looked up once.
pub fn take_step<W: Write>(scene: &mut Scene<'_, W>, call: Call, r: Numbers) -> io::Result<()> {
    match call {
        Call::StartAgain => start_again(scene, r),
        _ => look(scene, call, r),
    }
}
