// The calls that are made before there is a book to call on, with the numbers that a script set: the wall card's column, a book's length,
// a lot judged by the sheet, and opening; and where on the desk a book stands.
#![tactic(auto)]

ghost use Rattle.std.specs.Prelude.{◌≡◌, ◌+◌, ◌*◌, ◌<◌, slice_index};

use card::Counts;
use hand::{answered, declaration_of};
use opening::Asked;
use post::{APART, BOOKS};
use refusal::answer_of;
use script::{BYTES, Call, HELP_LIMIT, HOUSES, Numbers, OWN, SEASON, TAIL};
use sheet::Kept;
use std::ops::Range;

// ---- the numbers, by their letters

const NUMBERS: u8 = b'S';

const DOWN_LIMIT: u8 = b'f';

const CAP: u8 = b'C';

const GATE: u8 = b'q';

const T: u8 = b't';

const QUORUM: u8 = b'E';

const AMPLIFY: u8 = b'A';

const DELIVER: u8 = b'V';

// ---- the sheet

fn kept(kind: u8, low: u32, high: u32) -> Kept {
    Kept { kind, low, high }
}

// A gate, by its number in the script. 3, 7, 8 and 9 are not legal.
// Kept: by the number: an enum of the ten would need a match from the number to it and one from it to the gate.
fn gate_of(gate: u32) -> Kept {
    match gate {
        1 => kept(1, 0, 0x41a0_0000),
        2 => kept(1, 0, 0),
        3 => kept(2, 0x41a8_0000, 0x4160_0000),
        4 => kept(1, 0, 0x8000_0000),
        5 => kept(2, 0x8000_0000, 0),
        6 => kept(2, 0, 0x8000_0000),
        7 => kept(1, 0, 0xc040_0000),
        8 => kept(2, 0xc040_0000, 0x41a0_0000),
        9 => kept(1, 0x8000_0000, 0x41a0_0000),
        _ => kept(0, 0, 0),
    }
}

// The sheet, with the conductivity's gate open.
fn sheet_of(r: &Numbers) -> [u8; 22] {
    judge::lay_sheet(r.get(CAP), gate_of(r.get(GATE)), gate_of(0))
}

// ---- the calls

// Kept: 0 for a length that is not set, since a script may set b to 0, and is then given the right one.
fn length(r: &mut Numbers) {
    match sizes::length_of(r.get(HOUSES), r.get(NUMBERS)) {
        Ok(length) => {
            answered(r, 0);
            r.set(TAIL, 2);
            r.set(BYTES, u32::try_from(length).unwrap_or(0));
        }
        Err(refusal) => {
            answered(r, u8::from(refusal));
            r.set(TAIL, 0);
            r.set(BYTES, 0);
        }
    }
}

// Unless the script has set it, a book has the length that is right for it.
fn with_length(r: &mut Numbers) {
    if r.get(BYTES) == 0 {
        length(r);
        r.set(TAIL, 0);
    }
}

// Where the book of house `own` stands, of the length that the numbers say. The desk may end before.
pub fn place_of(r: &mut Numbers) -> Range<usize>
    ensures first { result.start ≡ BOOKS + APART * slice_index r.old OWN }
    ensures length { result.end ≡ result.start + slice_index r.new BYTES }
{
    let first = BOOKS + APART * r.get(OWN) as usize;
    with_length(r);
    first..first + r.get(BYTES) as usize
}

// The wall card's column, if it has one.
fn counts_of(n: u32, f: u32) -> Option<Counts> {
    if counts::is_houses(n) && counts::is_down(n, f) {
        return Some(counts::counts_of(n as usize, f as usize));
    }
    None
}

// With no column the line is not understood, and its numbers are zeros.
fn column(r: &mut Numbers) {
    let Some(counts) = counts_of(r.get(HOUSES), r.get(DOWN_LIMIT)) else {
        for letter in [T, QUORUM, AMPLIFY, DELIVER] {
            r.set(letter, 0);
        }
        r.refuse();
        return;
    };
    for (letter, count) in [
        (T, counts.t),
        (QUORUM, counts.quorum),
        (AMPLIFY, counts.amplify),
        (DELIVER, counts.deliver),
    ] {
        r.set(letter, u32::try_from(count).unwrap_or(0));
    }
}

// The end of what is told: the answer and why (0), or that the lot is plausible (1).
fn judge(r: &mut Numbers) {
    let declaration = octets::bytes_of(declaration_of(r));
    let judged = judge::judge(&sheet_of(r), &declaration);
    answered(r, answer_of(judged));
    r.set(TAIL, u32::from(judged.is_ok()));
}

pub fn on_nothing(call: Call, r: &mut Numbers) {
    match call {
        Call::Card => column(r),
        Call::Length => length(r),
        _ => judge(r),
    }
}

pub fn open(book: &mut [u8], r: &mut Numbers) {
    let asked = Asked {
        n: r.get(HOUSES),
        numbers: r.get(NUMBERS),
        own: r.get(OWN),
        f: r.get(DOWN_LIMIT),
        d: r.get(HELP_LIMIT),
        season: r.get(SEASON),
    };
    let opened = opening::open_book(book, asked, &sheet_of(r));
    answered(r, answer_of(opened));
}
