// What a call hands back: a refusal, help, an accepted publication's SEND, and what a step on a message's entry gives.
#![tactic(auto)]

ghost use Rattle.std.specs.Prelude.{◌≡◌, length};
ghost use Rattle.std.proofs.Math.Option.{none, some};
ghost use Rattle.lot.specs.Declaration.{declaration_at};
ghost use Rattle.protocol.specs.Steps.{only_if};
ghost use Rattle.meaning.specs.Legal.{IsDecl};
ghost use Rattle.calls.specs.Entered.{handed, helping, or_zeros, wired};
ghost use Rattle.reply.specs.Handed.{lot_in, with_kind, numbered_of, laid_of, outcome_of};

use calls::Outcome;
use message::Kind;
use refusal::Refusal;

// What a step on a message's entry gives: the kind of its message, if it gives one, and whether the declaration is delivered. The bytes of
// both stand in the message that came, so that they are laid once, at the end.
#[derive(Clone, Copy, PartialEq, Eq, Debug)]
pub struct Step {
    pub gives: Option<Kind>,
    pub delivers: bool,
}

// A refusal: the number, no message, no delivery.
// Kept, here and in the three that make one below: all six fields, since each has a clause of its own; what is absent is zeros.
// Kept, here, in `letter_of` and in `hand`: any number, where `Refusal` and `Kind` have those that the calls answer.
pub fn refuse(answer: u8) -> Outcome
    ensures { result ≡ handed answer none none }
{
    Outcome {
        answer, // any number
        gives: false,
        message: [0; 36],
        delivers: false,
        declaration: [0; 20],
        helps: false,
    }
}

// An accepted request: no message, no delivery, and the asker is to be helped.
pub fn help() -> Outcome
    ensures { result ≡ helping }
{
    Outcome {
        answer: 0,
        gives: false,
        message: [0; 36],
        delivers: false,
        declaration: [0; 20],
        helps: true,
    }
}

// An accepted publication: its SEND, and no delivery.
pub fn announce(season: u32, sender: u8, number: u8, d: [u8; 20]) -> Outcome
    requires { IsDecl d }
    ensures { result ≡ handed 0 (some (wired 1 season sender number (declaration_at d 0))) none }
{
    let message = writer::lay_message(fields::number_of(Kind::Send), season, sender, number, d);
    Outcome {
        answer: 0,
        gives: true,
        message,
        delivers: false,
        declaration: [0; 20],
        helps: false,
    }
}

// The message with another kind.
// Kept, here and below: that a message has 36 bytes is a clause, since this crate lies below the letter, and asks for nothing else of it;
// and two functions for its bytes and its declaration's, of which each is a match of one line.
#[tactic(auto, using(crate::proofs::Whole::whole))]
fn with_kind(message: &[u8], kind: u8) -> [u8; 36]
    requires { length message.now ≡ 36 }
    ensures { result ≡ with_kind kind message.now }
{
    let mut out = [0; 36];
    out.copy_from_slice(&message[..36]);
    out[3] = kind;
    out
}

// The message with the kind that is given, or none.
fn letter_of(gives: Option<u8>, message: &[u8]) -> [u8; 36]
    requires { length message.now ≡ 36 }
    ensures { result ≡ or_zeros 36 (numbered_of gives message.now) }
{
    match gives {
        Some(kind) => with_kind(message, kind),
        None => [0; 36],
    }
}

// The message's declaration, or none.
fn lot_of(delivers: bool, message: &[u8]) -> [u8; 20]
    requires { length message.now ≡ 36 }
    ensures { result ≡ or_zeros 20 (only_if delivers (lot_in message.now)) }
{
    if delivers {
        return octets::twenty_at(message, 16);
    }
    [0; 20]
}

// Any answer, the message with any kind that is given, if one is, and the message's declaration where it is delivered.
pub fn hand(answer: u8, gives: Option<u8>, delivers: bool, message: &[u8]) -> Outcome
    requires { length message.now ≡ 36 }
    ensures { result ≡ laid_of answer gives delivers message.now }
{
    let letter = letter_of(gives, message);
    let lot = lot_of(delivers, message);
    Outcome {
        answer,
        gives: gives.is_some(),
        message: letter,
        delivers,
        declaration: lot,
        helps: false,
    }
}

// A step on a message's entry, with the bytes that it gives and delivers, or its refusal.
pub fn hand_step(step: Result<Step, Refusal>, message: &[u8]) -> Outcome
    requires { length message.now ≡ 36 }
    ensures { result ≡ outcome_of step message.now }
{
    match step {
        Ok(step) => hand(0, step.gives.map(fields::number_of), step.delivers, message),
        Err(refusal) => refuse(refusal.into()),
    }
}
