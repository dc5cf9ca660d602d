// Floats by their bits: which a reading or a limit may be, and which is at most another, in whatever float mode the caller is.
#![tactic(auto)]

ghost use Rattle.std.specs.Prelude.{◌≡◌, true};
ghost use Rattle.std.specs.Float.{binary32};
ghost use Rattle.std.specs.Float.Ieee.{of_bits, le};
ghost use Rattle.sheet.specs.Sheet.{measurable};

// The float that bits stand for, a NaN's too.
// Kept: by the bits, here and below, and no comparison of floats: a caller's float mode would matter.
#[tactic(auto, using(crate::proofs::Nan::zero_by_zero))]
pub fn float_of(bits: u32) -> f32
    ensures { result ≡ of_bits binary32 bits }
{
    if 0x7f80_0000 < bits % 0x8000_0000 {
        return 0.0 / 0.0;
    }
    f32::from_bits(bits)
}

// Not NaN, infinite or below zero, by the bits: below those of infinity, or minus zero's.
#[tactic(auto, using(crate::proofs::Measurable::measurable_by_bits))]
pub fn is_measurable(bits: u32) -> bool
    ensures { result ≡ measurable (of_bits binary32 bits) }
{
    bits < 0x7f80_0000 || bits == 0x8000_0000
}

// Kept, here and in `gates`: that readings and limits are measurable is a clause, since the types of both are of any floats.
// Float comparison, by the bits without the sign, which zero alone may have here: what a processor's compare says of the smallest floats
// depends on the caller's float mode.
pub fn is_at_most(x: f32, y: f32) -> bool
    requires { (measurable x ≡ true) × (measurable y ≡ true) }
    ensures { result ≡ le x y }
{
    f32::to_bits(x) % 0x8000_0000 <= f32::to_bits(y) % 0x8000_0000
}
