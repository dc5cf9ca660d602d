// What each call hands back, laid out as C and Rust see it.
// Kept: answers and flags as numbers beside the bytes, each in a struct of its own, since the C interface has them so.
#![tactic(auto)]

// What publishing and receiving give. An absent message or declaration is zeros; `helps` says that an asker is to be helped.
#[repr(C)]
#[derive(Clone, Copy)]
pub struct Outcome {
    pub answer: u8,
    pub gives: bool,
    pub message: [u8; 36],
    pub delivers: bool,
    pub declaration: [u8; 20],
    pub helps: bool,
}

// What the waiting search gives: an entry, or a plain none (zeros), or answer 1.
#[repr(C)]
#[derive(Clone, Copy)]
pub struct Waiting {
    pub answer: u8,
    pub waits: bool,
    pub number: u8,
    pub sender: u8,
}

// What a return gives: the request, or answer 1 and zeros.
#[repr(C)]
#[derive(Clone, Copy)]
pub struct Returned {
    pub answer: u8,
    pub request: [u8; 11],
}

// What this house sent, or a plain none (zeros), or why not.
#[repr(C)]
#[derive(Clone, Copy)]
pub struct Sent {
    pub answer: u8,
    pub gives: bool,
    pub message: [u8; 36],
}
