// A look through the lines of a roll, line by line: whether they are in order and finite, where a lot stands and what it weighs, and what
// they come to. Readings are taken by their bits, so that no float mode of the caller matters.
#![tactic(auto)]

ghost use Rattle.std.specs.Prelude.{◌≡◌, ◌<◌, ◌^◌};
ghost use Rattle.roll.specs.Rank.{rank};
ghost use Rattle.roll.specs.Roll.{line_of, finite_readings};
ghost use Rattle.lines.specs.Look.{top_of, raised, merged, Fair, nothing_seen, fine_next, looked};

use lot::Declaration;
use roll::Line;

// The highest moisture so far: its rank, its bits, and its lot.
#[derive(Clone, Copy, PartialEq, Eq, Debug)]
pub struct Top {
    pub rank: u32,
    pub bits: u32,
    pub lot: u32,
}

// What a look has seen: whether all was fine, and the least lot that may come next; how many lots are below the one looked for, and its
// kilograms where it was found; the kilograms of all lines; the highest moisture of all, and of the others, or none.
// Kept: no search by the order of the lots, since the look that tells whether all is sound goes over every line, and finds the lot on it.
#[derive(Clone, Copy, PartialEq, Eq, Debug)]
pub struct Seen {
    pub fine: bool,
    pub next: u64,
    pub place: usize,
    pub found: Option<u32>,
    pub kilograms: u64,
    pub all: Option<Top>,
    pub others: Option<Top>,
}

// Nothing is seen yet.
impl Default for Seen {
    ghost is_default = { λ seen. seen ≡ nothing_seen };

    fn default() -> Seen {
        Seen {
            fine: true,
            next: 0,
            place: 0,
            found: None,
            kilograms: 0,
            all: None,
            others: None,
        }
    }
}

// The line of a delivered declaration.
// Kept: a function, and no `From`, which would stand with the type, and what is said has no function.
pub fn line_of(d: Declaration) -> Line
    ensures { result ≡ line_of d }
{
    Line {
        lot: d.lot,
        colonies: d.colonies,
        kilograms: d.kilograms,
        moisture: d.moisture,
        conductivity: d.conductivity,
    }
}

// Neither reading is NaN or infinite, by the bits without the sign.
#[tactic(auto, using(crate::proofs::Finite::moisture_finite, crate::proofs::Finite::moisture_not_finite))]
pub fn is_finite_line(l: Line) -> bool
    ensures { result ≡ finite_readings l }
{
    l.moisture % 0x8000_0000 < 0x7f80_0000 && l.conductivity % 0x8000_0000 < 0x7f80_0000
}

// The rank of finite bits: a higher float has a higher rank, and both zeros have the same.
// Kept, here and in `raise` and `merge`: by ranks of bits and no Ord, since both zeros have one rank, a caller's float mode may not matter,
// and of equals the lower lot stands.
fn rank_of(bits: u32) -> u32
    ensures { result ≡ rank bits }
{
    if bits < 0x8000_0000 {
        0x8000_0000 + bits
    } else {
        // 2^31 less the bits without the sign: it takes two instructions fewer as 2^32 less all of them.
        u32::MAX - bits + 1
    }
}

// A line's moisture, with its rank and its lot.
#[tactic(auto, unfolding(crate::specs::Look::top_of))]
fn top_of(l: Line) -> Top
    ensures { result ≡ top_of l }
{
    Top {
        rank: rank_of(l.moisture),
        bits: l.moisture,
        lot: l.lot,
    }
}

// The next line takes the place of one whose moisture is lower: among equal moistures the first stands.
// Kept: none is asked for first, and apart from the lower moisture: together, last, they take a look 2 to 5 instructions a line more.
fn raise(best: Option<Top>, next: Top) -> Top
    ensures { result ≡ raised best next }
{
    match best {
        None => next,
        Some(top) if top.rank < next.rank => next,
        Some(top) => top,
    }
}

// Any other line takes the place of a lower moisture, and of an equal one of a higher lot: among equal moistures the lowest lot stands.
#[tactic(auto, unfolding(crate::specs::Look::merged))]
pub fn merge(best: Option<Top>, l: Line) -> Top
    ensures { result ≡ merged best l }
{
    let next = top_of(l);
    match best {
        Some(top) if top.rank == next.rank && top.lot <= next.lot => top,
        Some(top) if top.rank == next.rank => next,
        _ => raise(best, next),
    }
}

impl Seen {
    // A line that may stand next: its lot is above those before it, its readings are finite.
    #[tactic(auto, unfolding(crate::specs::Look::fine_next))]
    fn is_next(self, l: Line) -> bool
        ensures { result ≡ fine_next self l }
    {
        self.fine && self.next <= u64::from(l.lot) && is_finite_line(l)
    }

    // One more line is seen, in a look for a lot; its kilograms are a 32-bit number, as in every line that is lent.
    #[tactic(auto, unfolding(crate::specs::Look::looked))]
    pub fn look(self, lot: u32, l: Line) -> Seen
        requires { Fair self }
        ensures { (result ≡ looked lot self l) × (l.kilograms < 2 ^ 32) }
    {
        let top = top_of(l);
        let seen = Seen {
            fine: self.is_next(l),
            next: u64::from(l.lot) + 1,
            kilograms: self.kilograms + u64::from(l.kilograms),
            all: Some(raise(self.all, top)),
            ..self
        };
        if l.lot == lot {
            return Seen {
                found: Some(l.kilograms),
                ..seen
            };
        }
        let others = Some(raise(self.others, top));
        if l.lot < lot {
            return Seen {
                place: self.place + 1,
                others,
                ..seen
            };
        }
        Seen { others, ..seen }
    }
}
