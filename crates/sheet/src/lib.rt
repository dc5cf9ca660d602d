// The season's sheet as its values, a gate as it is kept, and the two readings that are held to it.
#![tactic(auto)]

// The two laboratory readings.
#[derive(Clone, Copy)]
pub struct Readings {
    pub moisture: f32,
    pub conductivity: f32,
}

// What a reading must be within; a limit counts as inside.
#[derive(Clone, Copy)]
pub enum Gate {
    Open,
    AtMost(f32),
    Between(f32, f32),
}

// The season's sheet: a cap in kilograms per colony, and a gate for each reading.
#[derive(Clone, Copy)]
pub struct Sheet {
    pub cap: u32,
    pub moisture: Gate,
    pub conductivity: Gate,
}

// Kept: kind and limits as the bytes have them, since bytes of any kind are read so (`kept_at`, `laid`), and those of no kind refused.
// A gate as it is kept: its kind (0 open, 1 at most, 2 between) and two limits as bits, 0 where there is none.
#[derive(Clone, Copy)]
pub struct Kept {
    pub kind: u8,
    pub low: u32,
    pub high: u32,
}
