// The number whose four bytes stand at a place, big-endian, a declaration as its 20 bytes, and 20 bytes as they stand.
#![tactic(auto)]

ghost use Rattle.std.specs.Prelude.{◌≡◌, ◌+◌, ◌<◌, length, take, drop};
ghost use Rattle.words.specs.Words.{word_at};
ghost use Rattle.lot.specs.Declaration.{declaration_at, bytes_of};

use lot::Declaration;

// The number whose four bytes stand at i.
// Kept, here, below and in `fields`, `kept`, `judge` and `slots`: bytes and a place in them, with the clause that so many stand there, as
// the definitions read them (`word_at`, `declaration_at`); a slice of as many, made by each caller, would ask the same there.
pub fn word_at(bytes: &[u8], i: usize) -> u32
    requires { i + 3 < length bytes.now }
    ensures { result ≡ word_at bytes.now i }
{
    // Kept: a sum and not `from_be_bytes`, whose swapped word is not taken apart again: `gm_write` had 161 instructions for 63 by it.
    u32::from(bytes[i]) * 16777216
        + u32::from(bytes[i + 1]) * 65536
        + u32::from(bytes[i + 2]) * 256
        + u32::from(bytes[i + 3])
}

// The declaration whose 20 bytes stand at i.
#[tactic(auto, unfolding(lot::specs::Declaration::declaration_at))]
pub fn declaration_at(bytes: &[u8], i: usize) -> Declaration
    requires { i + 19 < length bytes.now }
    ensures { result ≡ declaration_at bytes.now i }
{
    Declaration {
        lot: word_at(bytes, i),
        colonies: word_at(bytes, i + 4),
        kilograms: word_at(bytes, i + 8),
        moisture: word_at(bytes, i + 12),
        conductivity: word_at(bytes, i + 16),
    }
}

// The 20 bytes of a declaration.
// Kept: element by element, as `write_request`, `lay_message`, `lay_sheet` and `before_sheet` lay theirs: each is one list of what the
// document lays out; pieces that are copied into zeros would each need a range, and are no plainer.
#[tactic(auto, using(words::proofs::Laws::be32_to_be_bytes), unfolding(lot::specs::Declaration::bytes_of))]
pub fn bytes_of(d: Declaration) -> [u8; 20]
    ensures { result ≡ bytes_of d }
{
    let l = d.lot.to_be_bytes();
    let c = d.colonies.to_be_bytes();
    let k = d.kilograms.to_be_bytes();
    let m = d.moisture.to_be_bytes();
    let e = d.conductivity.to_be_bytes();
    [
        l[0], l[1], l[2], l[3], c[0], c[1], c[2], c[3], k[0], k[1], k[2], k[3], m[0], m[1], m[2],
        m[3], e[0], e[1], e[2], e[3],
    ]
}

// The 20 bytes that stand at i, copied in one piece.
pub fn twenty_at(bytes: &[u8], i: usize) -> [u8; 20]
    requires { i + 19 < length bytes.now }
    ensures { result ≡ take 20 (drop i bytes.now) }
{
    let mut twenty = [0; 20];
    twenty.copy_from_slice(&bytes[i..i + 20]);
    twenty
}
