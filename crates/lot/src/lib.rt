// A declaration as its numbers.
#![tactic(auto)]

// A declaration's five numbers; the readings as their bits.
#[derive(Clone, Copy, PartialEq, Eq, Debug)]
pub struct Declaration {
    pub lot: u32,
    pub colonies: u32,
    pub kilograms: u32,
    pub moisture: u32,
    pub conductivity: u32,
}
