// The writer: the 36 bytes of a message, and the 11 of a request.
#![tactic(auto)]

ghost use Rattle.std.specs.Prelude.{◌≡◌, length};
ghost use Rattle.message.specs.Message.{fields, written_of, request_wire};

use lot::Declaration;
use message::Written;

// The 11 bytes of a request for help.
#[tactic(auto, using(words::proofs::Laws::be32_to_be_bytes), unfolding(message::specs::Message::request_wire))]
pub fn write_request(season: u32) -> [u8; 11]
    ensures { result ≡ request_wire season }
{
    let q = season.to_be_bytes();
    [1, 0, 1, 9, 2, 0, 4, q[0], q[1], q[2], q[3]]
}

// The 36 bytes of a message, the declaration as its bytes.
// Kept: five arguments, the kind as a number, and no Message, since the clause promises the bytes of each number; the pages name this
// function, and `gm_write` hands C's numbers on.
pub fn lay_message(kind: u8, season: u32, sender: u8, number: u8, d: [u8; 20]) -> [u8; 36]
    ensures { result ≡ fields kind season sender number d }
{
    let q = season.to_be_bytes();
    [
        1, 0, 1, kind, 2, 0, 6, q[0], q[1], q[2], q[3], sender, number, 3, 0, 20, d[0], d[1], d[2],
        d[3], d[4], d[5], d[6], d[7], d[8], d[9], d[10], d[11], d[12], d[13], d[14], d[15], d[16],
        d[17], d[18], d[19],
    ]
}

#[tactic(auto, using(message::proofs::Numbers::known), unfolding(message::specs::Message::written_of, message::specs::Message::wire))]
pub fn write_message(kind: u8, season: u32, sender: u8, number: u8, d: Declaration) -> Written
    ensures { result ≡ written_of kind season sender number d }
{
    match fields::kind_of(kind) {
        Ok(_) => Written {
            answer: 0,
            message: lay_message(kind, season, sender, number, octets::bytes_of(d)),
        },
        Err(refusal) => Written {
            answer: u8::from(refusal),
            message: [0; 36],
        },
    }
}
