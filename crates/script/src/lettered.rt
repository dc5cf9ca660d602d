// The numbers that a script sets, each by its letter, and the letters of those that the crates above know.

ghost use Rattle.std.specs.Prelude.{◌≡◌, ◌<◌, ◌↔◌, IsTrue, List, ℕ, slice_index, slice_set, replicate};

use std::marker::Model;

// The numbers. The first places, which no letter has, are the reader's own.
// Kept: they lie in one table, as numbers, since a script may name them by the bytes 0 to 4, and what `transcript` answers to it stands.
#[derive(Clone, Copy, PartialEq, Eq, Debug)]
pub struct Numbers {
    by_letter: [u32; 128],
}

impl Model for Numbers {
    ghost Value = { List ℕ };

    ghost view = { λ r. r.by_letter };

    ghost inverse = { λ ns. record { by_letter = ns } };
}

impl Numbers {
    // Nothing is set.
    pub fn new() -> Self
        ensures { result ≡ replicate 128 0 }
    {
        Numbers {
            by_letter: [0; 128],
        }
    }

    // Kept: 0 for what is no letter, since a script may tell such a number, and is told 0.
    pub fn get(&self, letter: u8) -> u32
        ensures { result ≡ slice_index self.now letter }
    {
        self.by_letter
            .get(usize::from(letter))
            .copied()
            .unwrap_or(0)
    }

    // There are 128 letters, and what is set for another is lost.
    pub fn set(&mut self, letter: u8, value: u32)
        ensures { self.new ≡ slice_set self.old letter value }
    {
        // Kept: tried as get_mut; the goal of the clause did not close.
        let place = usize::from(letter);
        if place < self.by_letter.len() {
            self.by_letter[place] = value;
        }
    }

    // Whether a word of the line was not understood.
    pub fn is_wrong(&self) -> bool
        ensures { IsTrue result ↔ (0 < slice_index self.now WRONG) }
    {
        self.get(WRONG) != 0
    }

    pub fn refuse(&mut self)
        ensures { self.new ≡ slice_set self.old WRONG 1 }
    {
        self.set(WRONG, 1);
    }
}

// Below the letters: the letter that waits for its number; where the text of a line begins, if it has one; whether the words of the
// line are done; whether one of them was not understood; where the line begins.
pub const WAITS: u8 = 0;

pub const TEXT: u8 = 1;

pub const DONE: u8 = 2;

pub const WRONG: u8 = 3;

pub const LINE: u8 = 4;

// The call; how what is told of it ends.
pub const CALL: u8 = b'c';

pub const TAIL: u8 = b'z';

// The book and the season.
pub const HOUSES: u8 = b'n';

pub const OWN: u8 = b'o';

pub const HELP_LIMIT: u8 = b'd';

pub const SEASON: u8 = b'y';

pub const BYTES: u8 = b'b';

pub const HONEST: u8 = b'h';

// The message.
pub const KIND: u8 = b'k';

pub const SENDER: u8 = b's';

pub const NUMBER: u8 = b'j';

pub const FROM: u8 = b'p';

pub const LENGTH: u8 = b'l';

// What came of a call: a message or help given, a delivery.
pub const GIVES: u8 = b'g';

pub const DELIVERS: u8 = b'v';

// A number that stands by itself.
pub const FREE: u8 = b'x';
