// A roll of lot lines and the season's totals, both lent by the caller, and what is asked of them.
#![tactic(auto)]

// A lot's line: a declaration's five numbers, the readings as their bits. The default is the line zeroed.
// Kept: beside `Declaration`, whose five numbers it has, since the C interface has this layout.
#[repr(C)]
#[derive(Clone, Copy, PartialEq, Eq, Default, Debug)]
pub struct Line {
    pub lot: u32,
    pub colonies: u32,
    pub kilograms: u32,
    pub moisture: u32,
    pub conductivity: u32,
}

// The season's totals: kilograms, lines in use, and the highest moisture's bits; measured is 1, or 0 where there is none.
// Kept: the number of lines in use is beside the lent roll, and the flag beside the moisture, since the C interface has them so.
#[repr(C)]
#[derive(Clone, Copy, PartialEq, Eq, Debug)]
pub struct Totals {
    pub kilograms: u64,
    pub lines: usize,
    pub moisture: u32,
    pub measured: u32,
}

// A line to enter, or a lot to strike.
#[derive(Clone, Copy, PartialEq, Eq, Debug)]
pub enum Ask {
    Enter(Line),
    Strike(u32),
}
