// What the wall card gives: a column, and the counts that the steps compare with.
#![tactic(auto)]

// One column of the card.
#[derive(Clone, Copy)]
pub struct Column {
    pub t: usize,
    pub quorum: usize,
}

// What the steps compare with: the tolerated t, the ECHOes that make a READY, the READYs that make a READY, the READYs that deliver.
#[derive(Clone, Copy)]
pub struct Counts {
    pub t: usize,
    pub quorum: usize,
    pub amplify: usize,
    pub deliver: usize,
}
