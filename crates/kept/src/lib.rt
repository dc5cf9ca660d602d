// A gate as a sheet's bytes keep it: the kind and two limits, the gate that they mean, and whether they have a legal gate's form.
#![tactic(auto)]

ghost use Rattle.std.specs.Prelude.{◌≡◌, ◌+◌, ◌<◌, if◌then◌else◌, length};
ghost use Rattle.sheet.specs.Sheet.{limits_measurable};
ghost use Rattle.sheet.specs.Kept.{kept_at, gate_of, kept_form};

use sheet::{Gate, Kept};

// The kind and limits that stand at i.
pub fn kept_at(bytes: &[u8], i: usize) -> Kept
    requires { i + 8 < length bytes.now }
    ensures { result ≡ kept_at bytes.now i }
{
    Kept {
        kind: bytes[i],
        low: octets::word_at(bytes, i + 1),
        high: octets::word_at(bytes, i + 5),
    }
}

// Kept, here and in `has_measurable_limits`: by the number, as the bytes have it; the two give different things of the same cases.
#[tactic(auto, unfolding(sheet::specs::Kept::gate_of))]
pub fn gate_of(k: Kept) -> Gate
    ensures { result ≡ gate_of k }
{
    match k.kind {
        0 => Gate::Open,
        1 => Gate::AtMost(floats::float_of(k.high)),
        _ => Gate::Between(floats::float_of(k.low), floats::float_of(k.high)),
    }
}

// The gate that they mean, if they have its form: a known kind, and zero for each limit that it does not use.
#[tactic(auto, unfolding(sheet::specs::Kept::kept_form))]
pub fn form_of(k: Kept) -> Option<Gate>
    ensures { result ≡ (if kept_form k then Some (gate_of k) else None) }
{
    match (k.kind, k.low, k.high) {
        (0, 0, 0) | (1, 0, _) | (2, _, _) => Some(gate_of(k)),
        _ => None,
    }
}

// No limit is NaN, infinite or below zero.
#[tactic(auto, unfolding(sheet::specs::Sheet::limits_measurable, sheet::specs::Kept::gate_of))]
pub fn has_measurable_limits(k: Kept) -> bool
    ensures { result ≡ limits_measurable (gate_of k) }
{
    match k.kind {
        0 => true,
        1 => floats::is_measurable(k.high),
        _ => floats::is_measurable(k.low) && floats::is_measurable(k.high),
    }
}
