// What is handed in and handed back, by a script's numbers: a message laid as they say, bytes read into them, and the answer of a call put
// among them, to be told.
#![tactic(auto)]

ghost use Rattle.std.specs.Prelude.{◌<◌};

use lot::Declaration;
use message::{Kind, ReadAnswer, Written};
use post::byte;
use script::{FREE, KIND, LENGTH, NUMBER, Numbers, SEASON, SENDER, TEXT};
use std::io;
use std::io::Write;
use telling::Teller;

// ---- the numbers, by their letters

const LOT: u8 = b'L';

const COLONIES: u8 = b'B';

const KILOGRAMS: u8 = b'w';

pub const MOISTURE: u8 = b'm';

const CONDUCTIVITY: u8 = b'Q';

const ANSWER: u8 = b'a';

const READS: u8 = b'u';

const READER: u8 = b'R';

const WRITER: u8 = b'W';

// What bytes read as.
#[derive(Clone, Copy, PartialEq, Eq, Debug)]
enum Reads {
    Request = 0,
    Message = 1,
    Nothing = 2,
}

impl From<&ReadAnswer> for Reads {
    fn from(m: &ReadAnswer) -> Reads {
        match (m.answer, m.kind) {
            (0, 9) => Reads::Request,
            (0, _) => Reads::Message,
            _ => Reads::Nothing,
        }
    }
}

// ---- readings, declarations

// The bits of each reading, by its number in the script; the first stands for every other.
const READINGS: [u32; 13] = [
    0x7f80_0000,
    0x418c_0000,
    0x4194_0000,
    0,
    0x8000_0000,
    0x7fc0_0000,
    0x41a0_0000,
    1,
    0xc040_0000,
    0x8000_0001,
    0xff80_0000,
    0x3f00_0000,
    0xc18c_0000,
];

fn bits_of(reading: u32) -> u32 {
    READINGS
        .get(reading as usize)
        .copied()
        .unwrap_or(READINGS[0])
}

pub fn reading_of(bits: u32) -> u32 {
    match READINGS.iter().position(|b| *b == bits) {
        Some(reading) => reading as u32,
        None => 0,
    }
}

pub fn declaration_of(r: &Numbers) -> Declaration {
    Declaration {
        lot: r.get(LOT),
        colonies: r.get(COLONIES),
        kilograms: r.get(KILOGRAMS),
        moisture: bits_of(r.get(MOISTURE)),
        conductivity: bits_of(r.get(CONDUCTIVITY)),
    }
}

// ---- messages

// Kept: the kind and the answer as numbers, since what is no kind is handed to the writer too, and its answer is told.
fn written(r: &Numbers, kind: u8) -> Written {
    writer::write_message(
        kind,
        r.get(SEASON),
        byte(r.get(SENDER)),
        byte(r.get(NUMBER)),
        declaration_of(r),
    )
}

// A message as it is written; with a kind that is none, a SEND.
fn message_of(r: &Numbers) -> [u8; 36] {
    let as_told = written(r, byte(r.get(KIND)));
    if as_told.answer == 0 {
        return as_told.message;
    }
    written(r, fields::number_of(Kind::Send)).message
}

// The bytes of a message, or of a request where there are to be fewer than 13, with this kind, and zeros after them.
pub fn lay(r: &Numbers) -> [u8; 40] {
    let mut hand: [u8; 40] = [0; 40];
    if r.get(LENGTH) < 13 {
        hand[..11].copy_from_slice(&writer::write_request(r.get(SEASON)));
    } else {
        hand[..36].copy_from_slice(&message_of(r));
    }
    hand[3] = byte(r.get(KIND));
    hand
}

fn read_declaration(r: &mut Numbers, declaration: &[u8; 20]) {
    let d = octets::declaration_at(declaration, 0);
    r.set(LOT, d.lot);
    r.set(COLONIES, d.colonies);
    r.set(KILOGRAMS, d.kilograms);
    r.set(MOISTURE, reading_of(d.moisture));
    r.set(CONDUCTIVITY, reading_of(d.conductivity));
}

// What bytes read as, with the numbers in it.
// Kept: by the answer and the kind that the reader gives to C, since these are told.
pub fn read(r: &mut Numbers, bytes: &[u8]) {
    let m = reader::parts_of(bytes);
    let reads = Reads::from(&m);
    r.set(READER, u32::from(m.answer));
    r.set(READS, reads as u32);
    match reads {
        Reads::Request => r.set(SEASON, m.season),
        Reads::Message => {
            r.set(SEASON, m.season);
            r.set(KIND, u32::from(m.kind));
            r.set(SENDER, u32::from(m.sender));
            r.set(NUMBER, u32::from(m.number));
            read_declaration(r, &m.declaration);
        }
        Reads::Nothing => {}
    }
}

// What is handed in, which is as much as the numbers say: what it reads as, and what the writer answers for its kind. There are 40 bytes.
pub fn read_hand<'a>(r: &mut Numbers, hand: &'a [u8; 40]) -> Option<&'a [u8]> {
    let writes = written(r, byte(r.get(KIND)));
    r.set(WRITER, u32::from(writes.answer));
    let handed = hand.get(..r.get(LENGTH) as usize);
    match handed {
        Some(bytes) => read(r, bytes),
        None => r.refuse(),
    }
    handed
}

// ---- what came of a call

pub fn answered(r: &mut Numbers, answer: u8) {
    r.set(ANSWER, u32::from(answer));
}

// Bytes laid as the numbers say: what they read as, in the line's own words, and the bytes from number x on.
pub fn show<W: Write>(teller: &mut Teller<'_, W>, mut r: Numbers) -> io::Result<()> {
    let hand = lay(&r);
    let _ = read_hand(&mut r, &hand);
    teller.tell(teller.script.text_at(r.get(TEXT)), &r)?;
    teller.say_bytes(&hand, r.get(FREE), r.get(LENGTH))?;
    teller.end_line()
}
