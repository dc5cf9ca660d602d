// Slots on the bytes: whether one is full, whether each of a row of them has its one form, filling one.
#![tactic(auto)]

ghost use Rattle.std.specs.Prelude.{◌≡◌, ◌&&◌, ◌+◌, ◌*◌, ◌<◌, ◌≤◌, length, get_or};
ghost use Rattle.std.proofs.Math.Seq.{paste};
ghost use Rattle.entry.specs.Entry.{is_some};
ghost use Rattle.meaning.specs.Layout.{slot_length, place_from};
ghost use Rattle.meaning.specs.Slot.{slot_at, slot_ok, put_slot};
ghost use Rattle.meaning.specs.Legal.{row_ok};
ghost use Rattle.slots.specs.Strays.{clear};

// The bytes of a slot.
// Kept, here, in `vouchers`, `marks` and `again`: a slot, and a row of them by its first, is named by its place in the book's bytes, as
// the definitions name it (`slot_at`, `put_slot`, `row_ok`), and not by a type of its own, which would ask for the same room.
pub const LENGTH: usize = 21;

// The slots that one turn of the scan gathers.
const TURN: usize = 8;

// What is gathered of slots: of each that is not full, the numbers of its bytes 0 to 7, 8 to 15 and 13 to 20, ORed with those before. The
// three are zero exactly when each slot has the one byte form of its meaning.
#[derive(Clone, Copy)]
struct Strays {
    first: u64,
    middle: u64,
    last: u64,
}

// The number whose eight bytes stand at i, the lowest first: what compiles is one load, where the highest first would be turned round.
pub fn eight_at(bytes: &[u8], i: usize) -> u64
    requires { i + 7 < length bytes.now }
    ensures { let s = bytes.now in
        result ≡ get_or s i 0 + get_or s (i + 1) 0 * 256 + get_or s (i + 2) 0 * 65536 + get_or s (i + 3) 0 * 16777216
        + get_or s (i + 4) 0 * 4294967296 + get_or s (i + 5) 0 * 1099511627776 + get_or s (i + 6) 0 * 281474976710656
        + get_or s (i + 7) 0 * 72057594037927936 }
{
    // Kept: tried as a copy of the eight and u64::from_le_bytes; the copy tests whether the two overlap (see `lay_at`).
    u64::from(bytes[i])
        + u64::from(bytes[i + 1]) * 256
        + u64::from(bytes[i + 2]) * 65536
        + u64::from(bytes[i + 3]) * 16777216
        + u64::from(bytes[i + 4]) * 4294967296
        + u64::from(bytes[i + 5]) * 1099511627776
        + u64::from(bytes[i + 6]) * 281474976710656
        + u64::from(bytes[i + 7]) * 72057594037927936
}

// Whether the slot at `at` holds something.
pub fn is_full(b: &[u8], at: usize) -> bool
    requires { at < length b.now }
    ensures { result ≡ is_some (slot_at b.now at) }
{
    b[at] == 1
}

// What is gathered with the slot at `at` too.
#[tactic(auto, using(crate::proofs::Gathered::full_gathered))]
fn gather(b: &[u8], at: usize, s: Strays) -> Strays
    requires { at + slot_length ≤ length b.now }
    ensures { clear result ≡ clear s && slot_ok b.now at }
{
    if b[at] == 1 {
        return s;
    }
    Strays {
        first: s.first | eight_at(b, at),
        middle: s.middle | eight_at(b, at + 8),
        last: s.last | eight_at(b, at + 13),
    }
}

// What is gathered with the k slots from the one at `at` on too, one by one.
fn gather_row(b: &[u8], at: usize, k: usize, s: Strays) -> Strays
    requires { place_from at k ≤ length b.now }
    ensures { clear result ≡ clear s && row_ok b.now at k }
{
    let mut strays = s;
    // Kept, here and below: tried as a fold; of a step the clause says what `clear` gives, and not what is gathered, and the goal of the
    // whole did not close.
    for i in 0..k {
        strays = gather(b, at + LENGTH * i, strays);
    }
    strays
}

// Whether each of the k slots from the one at `at` on has its one form, eight slots a turn: the compiler writes the loop over eight out.
// Nothing is tested before the end: a way out at each slot would make the scan of a legal book slower.
pub fn are_slots_ok(b: &[u8], at: usize, k: usize) -> bool
    requires { place_from at k ≤ length b.now }
    ensures { result ≡ row_ok b.now at k }
{
    let mut strays = Strays {
        first: 0,
        middle: 0,
        last: 0,
    };
    for i in 0..k / TURN {
        strays = gather_row(b, at + TURN * LENGTH * i, TURN, strays);
    }
    let all = gather_row(b, at + TURN * LENGTH * (k / TURN), k % TURN, strays);
    all.first == 0 && all.middle == 0 && all.last == 0
}

// Lays bytes over those from `at` on.
pub fn lay_at(b: &mut [u8], at: usize, bytes: &[u8])
    requires { at + length bytes.now ≤ length b.old }
    ensures { b.new ≡ paste b.old at bytes.now (length bytes.now) }
{
    // Kept: tried as copy_from_slice, with `eight_at` by a copy too: a copy tests whether the two overlap, so that a count of vouchers took
    // 65 instructions for 53, and 91 for 79.
    for i in 0..bytes.len() {
        b[at + i] = bytes[i];
    }
}

// Fills the slot at `at` with d.
pub fn put_slot(b: &mut [u8], at: usize, d: [u8; 20])
    requires { at + slot_length ≤ length b.old }
    ensures { b.new ≡ put_slot b.old at d }
{
    b[at] = 1;
    lay_at(b, at + 1, &d);
}
