// The plan of a change: the lines to look through, and then, by what was seen, a refusal, or the places whose lines move, the line that is
// laid down among them, and the totals afterwards.
#![tactic(auto)]

ghost use Rattle.std.specs.Prelude.{ℕ, ◌≡◌, true, Some, IfOk, ◌<◌, ◌≤◌, ◌^◌};
ghost use Rattle.roll.specs.Roll.{lot_asked};
ghost use Rattle.lines.specs.Look.{Fair, Within};
ghost use Rattle.plans.specs.Plan.{long_enough, top_totals, begun, enter_plan, strike_plan, sound_seen, decided, WithinRoll};

use lines::{Seen, Top};
use refusal::Refusal;
use roll::{Ask, Line, Totals};

// A roll has at most so many lines.
const MOST_LINES: usize = 4096;

// A roll of so many lines, and totals, as they are before a change.
#[derive(Clone, Copy, PartialEq, Eq, Debug)]
pub struct Before {
    pub len: usize,
    pub totals: Totals,
}

// So many lines are looked through, for a lot.
// Kept: that so many lines are there, and 4,096 at most, is a clause of its users, since the roll's length is no part of a look.
#[derive(Clone, Copy, PartialEq, Eq, Debug)]
pub struct Look {
    pub n: usize,
    pub lot: u32,
}

// The way in which lines move by one place.
#[derive(Clone, Copy, PartialEq, Eq, Debug)]
pub enum Way {
    Up,
    Down,
}

// Places of a roll, from one to before another: a Range of the library is not copied, and a plan is.
#[derive(Clone, Copy, PartialEq, Eq, Debug)]
pub struct Places {
    pub start: usize,
    pub end: usize,
}

// The lines at some places move by one, over the last of them or over the first, and a line is laid down in the place that is left; and the
// totals afterwards.
// Kept: that the places are of the roll (`WithinRoll`) is a clause, and no invariant here, since the roll's length is no part of a plan.
#[derive(Clone, Copy)]
pub struct Plan {
    pub places: Places,
    pub way: Way,
    pub line: Line,
    pub totals: Totals,
}

// The lot that is asked for.
fn lot_of(ask: Ask) -> u32
    ensures { result ≡ lot_asked ask }
{
    match ask {
        Ask::Enter(line) => line.lot,
        Ask::Strike(lot) => lot,
    }
}

// Totals with this highest moisture, or none.
#[tactic(auto, unfolding(crate::specs::Plan::top_totals))]
fn totals_with(kilograms: u64, lines: usize, top: Option<Top>) -> Totals
    ensures { result ≡ top_totals kilograms lines top }
{
    let (moisture, measured) = match top {
        Some(top) => (top.bits, 1),
        None => (0, 0),
    };
    Totals {
        kilograms,
        lines,
        moisture,
        measured,
    }
}

impl Before {
    // A roll not too long, and no more lines in use than there are.
    #[tactic(auto, unfolding(crate::specs::Plan::long_enough))]
    fn is_long_enough(self) -> bool
        ensures { (result ≡ long_enough self.len self.totals.lines)
            × (result ≡ true → (self.totals.lines ≤ self.len) × (self.totals.lines ≤ 4096)) }
    {
        self.len <= MOST_LINES && self.totals.lines <= self.len
    }

    // The lines in use are looked through, or none where there are too many.
    #[tactic(auto, unfolding(crate::specs::Plan::begun))]
    pub fn begin(self, ask: Ask) -> Look
        ensures { (result ≡ begun self.len self.totals ask) × (result.n ≤ self.len) × (result.n ≤ 4096) × (result.n ≤ self.totals.lines) }
    {
        let lot = lot_of(ask);
        if self.is_long_enough() {
            Look {
                n: self.totals.lines,
                lot,
            }
        } else {
            Look { n: 0, lot }
        }
    }

    // Entering: the lines from the line's place on go up, over the first free one.
    #[tactic(auto, unfolding(crate::specs::Plan::enter_plan))]
    fn enter(self, line: Line, seen: Seen) -> Result<Plan, Refusal>
        requires { (self.totals.kilograms < 2 ^ 63) × (seen.place ≤ self.totals.lines) }
        ensures { (result ≡ enter_plan self.len self.totals line seen) × IfOk result (WithinRoll self.len) }
    {
        let totals = self.totals;
        if !lines::is_finite_line(line) {
            return Err(Refusal::NotFinite);
        }
        if seen.found.is_some() {
            return Err(Refusal::LotThere);
        }
        if totals.lines >= self.len {
            return Err(Refusal::NoneFree);
        }
        let kilograms = totals.kilograms + u64::from(line.kilograms);
        let top = lines::merge(seen.others, line);
        let (start, end) = (seen.place, totals.lines + 1);
        Ok(Plan {
            places: Places { start, end },
            way: Way::Up,
            line,
            totals: totals_with(kilograms, totals.lines + 1, Some(top)),
        })
    }

    // Striking: the lines above the lot's come down over it, and a zero line stands where the last was.
    #[tactic(auto, unfolding(crate::specs::Plan::strike_plan))]
    fn strike(self, seen: Seen) -> Result<Plan, Refusal>
        requires { ((w : ℕ) → seen.found ≡ Some w → w ≤ self.totals.kilograms) × Within seen self.totals.lines
            × (self.totals.lines ≤ self.len) }
        ensures { (result ≡ strike_plan self.totals seen) × IfOk result (WithinRoll self.len) }
    {
        let totals = self.totals;
        let Some(weight) = seen.found else {
            return Err(Refusal::LotNotThere);
        };
        let kilograms = totals.kilograms - u64::from(weight);
        let (start, end) = (seen.place, totals.lines);
        Ok(Plan {
            places: Places { start, end },
            way: Way::Down,
            line: Line::default(),
            totals: totals_with(kilograms, totals.lines - 1, seen.others),
        })
    }

    // What was seen is sound: a roll not too long, in which the lines in use are in order and finite and have these totals.
    #[tactic(auto, unfolding(crate::specs::Plan::sound_seen))]
    fn is_sound(self, seen: Seen) -> bool
        ensures { (result ≡ sound_seen self.len self.totals seen)
            × (result ≡ true → (self.totals.kilograms ≡ seen.kilograms) × (self.totals.lines ≤ self.len)) }
    {
        self.is_long_enough()
            && seen.fine
            && self.totals == totals_with(seen.kilograms, self.totals.lines, seen.all)
    }

    // What was seen decides: a refusal, or which lines move and what is laid down.
    #[tactic(auto, unfolding(crate::specs::Plan::decided))]
    pub fn decide(self, ask: Ask, seen: Seen) -> Result<Plan, Refusal>
        requires { Fair seen × Within seen self.totals.lines }
        ensures { (result ≡ decided self.len self.totals ask seen) × IfOk result (WithinRoll self.len) }
    {
        if !self.is_sound(seen) {
            return Err(Refusal::NotSound);
        }
        match ask {
            Ask::Enter(line) => self.enter(line, seen),
            Ask::Strike(_) => self.strike(seen),
        }
    }
}
