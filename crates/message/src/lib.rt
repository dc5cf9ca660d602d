// What reading a message finds, and what writing one gives.
#![tactic(auto)]

use lot::Declaration;

// What a message on an entry says of it.
#[derive(Clone, Copy, PartialEq, Eq, Debug)]
pub enum Kind {
    Send,
    Echo,
    Ready,
}

// What reading finds where the bytes are a message.
#[derive(Clone, Copy, PartialEq, Eq, Debug)]
pub struct Message {
    pub kind: Kind,
    pub season: u32,
    pub sender: u8,
    pub number: u8,
    pub declaration: Declaration,
}

// What writing gives: answer 0 and the message, or answer 2 and zeros.
// Kept, and the one below: the answer as a number beside the bytes, since the C interface has it so.
#[repr(C)]
#[derive(Clone, Copy)]
pub struct Written {
    pub answer: u8,
    pub message: [u8; 36],
}

// What reading gives: answer 0 and the five things, of a request kind 9 and the season alone, or answer 2 and zeros.
#[repr(C)]
#[derive(Clone, Copy)]
pub struct ReadAnswer {
    pub answer: u8,
    pub kind: u8,
    pub season: u32,
    pub sender: u8,
    pub number: u8,
    pub declaration: [u8; 20],
}
