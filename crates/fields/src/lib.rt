// The fields of a message: tags and lengths, by which 36 bytes are well formed and 11 a request; and the kinds by their numbers.
#![tactic(auto)]

ghost use Rattle.std.specs.Prelude.{◌≡◌, ◌+◌, ◌<◌, length};
ghost use Rattle.message.specs.Message.{is_kind, number_of, field_at, tagged, well_formed, is_request};
ghost use Rattle.fields.specs.Kinds.{IsKindOf};

use message::Kind;
use refusal::Refusal;

// 1 SEND, 2 ECHO, 3 READY, and no other.
// Kept: a function, and no `TryFrom`, which would stand with the type, and what is said has no function.
#[tactic(auto, unfolding(message::specs::Message::is_kind))]
pub fn kind_of(number: u8) -> Result<Kind, Refusal>
    ensures { IsKindOf number result }
{
    match number {
        1 => Ok(Kind::Send),
        2 => Ok(Kind::Echo),
        3 => Ok(Kind::Ready),
        _ => Err(Refusal::Malformed),
    }
}

// The number of a kind.
// Kept: a function, and no `From`, which would stand with the type, and what is said has no function.
pub fn number_of(kind: Kind) -> u8
    ensures { result ≡ number_of kind }
{
    match kind {
        Kind::Send => 1,
        Kind::Echo => 2,
        Kind::Ready => 3,
    }
}

// 1 SEND, 2 ECHO, 3 READY.
#[tactic(auto, using(message::proofs::Numbers::known))]
pub fn is_kind(kind: u8) -> bool
    ensures { result ≡ is_kind kind }
{
    kind_of(kind).is_ok()
}

// At i stand a tag and a two-byte length.
fn is_field(bytes: &[u8], i: usize, tag: u8, len: u16) -> bool
    requires { i + 2 < length bytes.now }
    ensures { result ≡ field_at bytes.now i tag len }
{
    bytes[i] == tag && u16::from_be_bytes([bytes[i + 1], bytes[i + 2]]) == len
}

// The three tags and lengths, in this order.
// Kept, this and the two below: three tests of one expression each; with their tags handed in they would be no shorter.
#[tactic(auto, unfolding(message::specs::Message::tagged))]
fn is_tagged(bytes: &[u8]) -> bool
    requires { length bytes.now ≡ 36 }
    ensures { result ≡ tagged bytes.now }
{
    is_field(bytes, 0, 1, 1) && is_field(bytes, 4, 2, 6) && is_field(bytes, 13, 3, 20)
}

// Exactly these fields, in this order.
#[tactic(auto, unfolding(message::specs::Message::well_formed))]
pub fn is_well_formed(bytes: &[u8]) -> bool
    ensures { result ≡ well_formed bytes.now }
{
    bytes.len() == 36 && is_tagged(bytes) && is_kind(bytes[3])
}

// A request for help: kind 9 and the season alone.
#[tactic(auto, unfolding(message::specs::Message::is_request))]
pub fn is_request(bytes: &[u8]) -> bool
    ensures { result ≡ is_request bytes.now }
{
    bytes.len() == 11 && is_field(bytes, 0, 1, 1) && is_field(bytes, 4, 2, 4) && bytes[3] == 9
}
