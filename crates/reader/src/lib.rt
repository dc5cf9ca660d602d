// The reader: what a message or a request says, or that it is malformed.
#![tactic(auto)]

ghost use Rattle.std.specs.Prelude.{◌≡◌, MatchOption};
ghost use Rattle.std.proofs.Math.Option.{none, some};
ghost use Rattle.message.specs.Message.{read_of, told, request_of};
ghost use Rattle.message.specs.Read.{read_answer};

use message::{Message, ReadAnswer};
use refusal::Refusal;

// Where the kind, the season, the sender, the number and the declaration stand.
const KIND: usize = 3;

const SEASON: usize = 7;

const SENDER: usize = 11;

const NUMBER: usize = 12;

const LOT: usize = 16;

// The message that the bytes are, if they are one.
#[tactic(auto, using(crate::proofs::Reading::message_rules), unfolding(message::specs::Message::read_of, message::specs::Message::five_at))]
pub fn read_message(bytes: &[u8]) -> Option<Message>
    ensures { told result ≡ read_of bytes.now }
{
    if !fields::is_well_formed(bytes) {
        return None;
    }
    let kind = fields::kind_of(bytes[KIND]).ok()?;
    Some(Message {
        kind,
        season: octets::word_at(bytes, SEASON),
        sender: bytes[SENDER],
        number: bytes[NUMBER],
        declaration: octets::declaration_at(bytes, LOT),
    })
}

// The season that the bytes ask for help in, if they are a request.
#[tactic(auto, using(message::proofs::Request::request_long), unfolding(message::specs::Message::request_of))]
pub fn read_request(bytes: &[u8]) -> Option<u32>
    ensures { MatchOption result (request_of bytes.now ≡ none) (λ season. request_of bytes.now ≡ some season) }
{
    if !fields::is_request(bytes) {
        return None;
    }
    Some(octets::word_at(bytes, SEASON))
}

// What reading gives, as numbers and bytes, for who reads and does not receive.
#[tactic(auto, using(crate::proofs::Reading::parts_rules), unfolding(message::specs::Message::read_of, message::specs::Message::five_at))]
pub fn parts_of(bytes: &[u8]) -> ReadAnswer
    ensures { result ≡ read_answer (request_of bytes.now) (read_of bytes.now) }
{
    if let Some(season) = read_request(bytes) {
        return ReadAnswer {
            answer: 0,
            kind: 9,
            season,
            sender: 0,
            number: 0,
            declaration: [0; 20],
        };
    }
    // Kept: the bytes as they stand, and not `read_message`: with a second caller it was a function of its own, which cost receiving too.
    if fields::is_well_formed(bytes) {
        return ReadAnswer {
            answer: 0,
            kind: bytes[KIND],
            season: octets::word_at(bytes, SEASON),
            sender: bytes[SENDER],
            number: bytes[NUMBER],
            declaration: octets::twenty_at(bytes, LOT),
        };
    }
    ReadAnswer {
        answer: u8::from(Refusal::Malformed),
        kind: 0,
        season: 0,
        sender: 0,
        number: 0,
        declaration: [0; 20],
    }
}
