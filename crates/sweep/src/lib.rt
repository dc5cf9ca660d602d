// The roll and the totals as they are lent: a look through the lines in use, a line carried over some of them, and a change of both, or why
// it is refused. All that is decided is decided by value, in `lines` and `plans`.
#![tactic(auto)]

ghost use Rattle.std.specs.Prelude.{◌≡◌, ◌≤◌, length, take};
ghost use Rattle.refusal.specs.Answer.{answer_of};
ghost use Rattle.roll.specs.Roll.{outcome, changed};
ghost use Rattle.lines.specs.Look.{seen_in, Small};
ghost use Rattle.plans.specs.Plan.{WithinRoll};
ghost use Rattle.sweep.specs.Sweep.{carried};

use lines::Seen;
use plans::{Before, Look, Plan, Way};
use refusal::Refusal;
use roll::{Ask, Line, Totals};

// The first lines are looked through.
fn look_through(roll: &[Line], look: Look) -> Seen
    requires { (look.n ≤ length roll.now) × (look.n ≤ 4096) }
    ensures { (result ≡ seen_in look.lot (take look.n roll.now)) × Small (take look.n roll.now) }
{
    let mut seen = Seen::default();
    for line in &roll[..look.n] {
        seen = seen.look(look.lot, *line);
    }
    seen
}

// The plan's line is laid down at the first of its places, or the last, and the lines that stood there move by one, over the line at the
// other end.
fn carry(roll: &mut [Line], plan: &Plan)
    requires { WithinRoll (length roll.old) plan.now }
    ensures { roll.new ≡ (carried plan.now roll.old).lines }
{
    let first = plan.places.start;
    let last = plan.places.end - 1;
    match plan.way {
        Way::Up => {
            roll.copy_within(first..last, first + 1);
            roll[first] = plan.line;
        }
        Way::Down => {
            roll.copy_within(first + 1..plan.places.end, first);
            roll[last] = plan.line;
        }
    }
}

// One change of the roll and the totals: both are brought up to date in place, and a refusal writes neither.
pub fn change(roll: &mut [Line], totals: &mut Totals, ask: Ask) -> Result<(), Refusal>
    ensures { outcome (answer_of result) roll.new totals.new ≡ changed roll.old totals.old ask }
{
    let before = Before {
        len: roll.len(),
        totals: *totals,
    };
    let seen = look_through(roll, before.begin(ask));
    let plan = before.decide(ask, seen)?;
    carry(roll, &plan);
    *totals = plan.totals;
    Ok(())
}
