// Whether readings are within their gates, and a declaration plausible.
#![tactic(auto)]

ghost use Rattle.std.specs.Prelude.{◌≡◌, true, ◌*◌};
ghost use Rattle.sheet.specs.Sheet.{measurable, within, limits_measurable, ordered, sheet_legal, readings_of, admitted, plausible};

use lot::Declaration;
use sheet::{Gate, Readings, Sheet};

// Kept: no From, since it goes by `floats`, which stands above the crate of both types.
fn readings_of(d: Declaration) -> Readings
    ensures { result ≡ readings_of d }
{
    Readings {
        moisture: floats::float_of(d.moisture),
        conductivity: floats::float_of(d.conductivity),
    }
}

#[tactic(auto, using(crate::proofs::Ordered::limits), unfolding(sheet::specs::Sheet::within, sheet::specs::Sheet::limits_measurable))]
fn is_within(g: Gate, x: f32) -> bool
    requires { (limits_measurable g ≡ true) × (measurable x ≡ true) }
    ensures { result ≡ within g x }
{
    match g {
        Gate::Open => true,
        Gate::AtMost(high) => floats::is_at_most(x, high),
        Gate::Between(low, high) => floats::is_at_most(low, x) && floats::is_at_most(x, high),
    }
}

// No low exceeds its high, no limit being NaN, infinite or below zero.
#[tactic(auto, using(crate::proofs::Ordered::limits), unfolding(sheet::specs::Sheet::ordered))]
pub fn is_ordered(g: Gate) -> bool
    requires { limits_measurable g ≡ true }
    ensures { result ≡ ordered g }
{
    match g {
        Gate::Open | Gate::AtMost(_) => true,
        Gate::Between(low, high) => floats::is_at_most(low, high),
    }
}

// Each reading is within its gate.
#[tactic(auto, using(sheet::proofs::Limits::gates_limits), unfolding(sheet::specs::Sheet::admitted, sheet::specs::Sheet::passes))]
fn admits(sheet: Sheet, r: Readings) -> bool
    requires { (sheet_legal sheet ≡ true) × (measurable r.moisture ≡ true) × (measurable r.conductivity ≡ true) }
    ensures { result ≡ admitted sheet r }
{
    is_within(sheet.moisture, r.moisture) && is_within(sheet.conductivity, r.conductivity)
}

// The most kilograms that so many colonies may give: the exact product.
fn most(colonies: u32, cap: u32) -> u64
    ensures { result ≡ colonies * cap }
{
    u64::from(colonies) * u64::from(cap)
}

#[tactic(auto, unfolding(sheet::specs::Sheet::plausible, sheet::specs::Sheet::admitted, sheet::specs::Sheet::passes))]
pub fn is_plausible(sheet: Sheet, d: Declaration) -> bool
    requires { sheet_legal sheet ≡ true }
    ensures { result ≡ plausible sheet d }
{
    d.colonies >= 1
        && u64::from(d.kilograms) <= most(d.colonies, sheet.cap)
        && floats::is_measurable(d.moisture)
        && floats::is_measurable(d.conductivity)
        && admits(sheet, readings_of(d))
}
