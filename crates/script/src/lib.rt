// Reads a script. A script sets numbers, each of which has a letter, and tells phrases with those numbers in them; which words set which
// number, and what is told, the script says itself, so that a new scene costs lines and no function.
//
// A line that begins with ':' names something, in fixed columns: a letter, a value of two digits, a blank, and the name.
//   :o-- own              the word `own` sets o to the number after it
//   :k01 SEND             the word `SEND` sets k to 1; and where k is 1, [k] tells SEND
//   :a02 , malformed      where a is 2, [a] tells ", malformed"
// In what is told, <o> is the number o in decimal digits, and [k] the name of k's value, in which there may be such holes again.
#![tactic(auto)]

ghost use Rattle.std.specs.Prelude.{◌≡◌, ◌<◌, ◌≤◌, IfSome, [], length};

mod calling;
mod lettered;

pub use calling::{Call, UnknownCall};
pub use lettered::{
    BYTES, CALL, DELIVERS, FREE, FROM, GIVES, HELP_LIMIT, HONEST, HOUSES, KIND, LENGTH, LINE,
    NUMBER, Numbers, OWN, SEASON, SENDER, TAIL, TEXT, WRONG,
};
use lettered::{DONE, WAITS};

// What a script says, which is nothing in 65,536 bytes and more. A place in it is counted from its first byte, and 0 is nowhere.
#[derive(Clone, Copy)]
pub struct Script<'a> {
    text: &'a [u8],
    ghost is_short: { length text.now < 65536 },
}

// What stands after the end of a line: a call, with the place of its words, or text that is told, with its place.
#[derive(Clone, Copy, PartialEq, Eq, Debug)]
pub enum Line {
    Call(u32),
    Text(u32),
}

// A line that names something: a letter, the two digits of its value, and the name at its place, with the rest of the script after it.
#[derive(Clone, Copy)]
struct Name<'a> {
    letter: u8,
    tens: u8,
    ones: u8,
    place: u32,
    text: &'a [u8],
}

// ---- letters, digits, numbers

// A blank, or what stands for none, is no letter of a word.
fn is_letter(c: u8) -> bool {
    b' ' < c
}

fn digit(c: u8) -> Option<u32>
    ensures { IfSome result (λ d. d < 10) }
{
    match c {
        b'0'..=b'9' => Some(u32::from(c - b'0')),
        _ => None,
    }
}

// The number that a word writes in at most six digits, below 100,000.
fn number_of(word: &[u8]) -> Option<u32> {
    let mut number: u32 = 0;
    for c in word {
        if 100_000 <= number {
            return None;
        }
        number = 10 * number + digit(*c)?;
    }
    if 6 < word.len() || 100_000 <= number {
        return None;
    }
    Some(number)
}

// ---- names

impl<'a> Name<'a> {
    fn value(self) -> Option<u32> {
        Some(10 * digit(self.tens)? + digit(self.ones)?)
    }

    // The number that the name is told for: its value, or where it has none a number that no word sets.
    // Kept: these numbers, since a book's bytes may hold such a season, and `transcript` then tells the name for it.
    fn told_for(self) -> u32 {
        match (digit(self.tens), digit(self.ones)) {
            (Some(tens), Some(ones)) => 10 * tens + ones,
            (Some(tens), None) if self.ones == 0 => 2_000_000 + tens,
            (None, _) if self.tens == 0 => 2_000_000,
            _ => 1_000_000,
        }
    }

    // A name is one word, of at most 23 letters, and that word.
    fn is(self, word: &[u8]) -> bool {
        word.len() < 24 && matches!(self.text.strip_prefix(word), Some([] | [0 | b'\n', ..]))
    }
}

impl<'a> Script<'a> {
    pub fn new(text: &'a [u8]) -> Self
        ensures short { length text.now < 65536 → result.text.now ≡ text.now }
        ensures long { 65536 ≤ length text.now → result.text.now ≡ [] }
    {
        if text.len() < 65536 {
            return Script { text };
        }
        Script { text: &[] }
    }

    // How long it is.
    pub fn size(self) -> u32 {
        self.text.len() as u32
    }

    // What stands from a place on, which is nothing past the end.
    // Kept: 0 is nowhere, since a line with no text has this number in place of one, and a script may tell that number.
    pub fn text_at(self, at: u32) -> &'a [u8] {
        if at == 0 {
            return &[];
        }
        self.text.get(at as usize..).unwrap_or(&[])
    }

    // The name in the line after the line end at a place.
    fn name_after(self, at: u32) -> Option<Name<'a>> {
        // Most places end no line, so that the byte there is looked at first.
        if *self.text.get(at as usize)? != b'\n' {
            return None;
        }
        match self.text.get(at as usize..)? {
            [b'\n', b':', letter, tens, ones, _, text @ ..] => Some(Name {
                letter: *letter,
                tens: *tens,
                ones: *ones,
                place: at + 6,
                text,
            }),
            _ => None,
        }
    }

    // The first name that is told for this number of the letter.
    fn name_for(self, letter: u8, number: u32) -> Option<Name<'a>> {
        (0..self.size())
            .filter_map(|at| self.name_after(at))
            .find(|name| name.letter == letter && name.told_for() == number)
    }

    // The first name that is this word.
    // Kept: beside the one above, since one function that takes the test needs a bound and a clause, and is longer than both.
    fn name_of(self, word: &[u8]) -> Option<Name<'a>> {
        (0..self.size())
            .filter_map(|at| self.name_after(at))
            .find(|name| name.is(word))
    }

    // The name of this number of the letter, with the rest of the script after it, or nothing.
    pub fn find(self, letter: u8, number: u32) -> &'a [u8] {
        match self.name_for(letter, number) {
            Some(name) => name.text,
            None => &[],
        }
    }

    // ---- words

    // The word or number that begins at a place.
    fn word_at(self, at: u32) -> Option<&'a [u8]> {
        let before = self.text.get(at.checked_sub(1)? as usize)?;
        // First, since most places lie inside a word, and the word is as long as its writer likes.
        if is_letter(*before) {
            return None;
        }
        let word = self.text_at(at).split(|c| !is_letter(*c)).next()?;
        if word.is_empty() {
            return None;
        }
        Some(word)
    }

    // A word sets its letter, or has it wait; what is no word is a number that stands by itself.
    fn take_word(self, word: &[u8], r: &mut Numbers) {
        let Some(name) = self.name_of(word) else {
            take_number(word, FREE, r);
            return;
        };
        match name.value() {
            Some(value) => r.set(name.letter, value),
            None => r.set(WAITS, u32::from(name.letter)),
        }
    }

    // What is done at a place: the words end there, or a word or a number may begin.
    fn read_at(self, at: u32, r: &mut Numbers) {
        match self.text_at(at) {
            [] | [0 | b'\n', ..] => end_words(None, r),
            [b'|', ..] => end_words(Some(at.saturating_add(1)), r),
            _ => {
                if let Some(word) = self.word_at(at) {
                    match waiting(r) {
                        Some(letter) => take_number(word, letter, r),
                        None => self.take_word(word, r),
                    }
                }
            }
        }
    }

    // The words from a place to the end of the line, or to a bar, after which the line has its text; they have to end within 256 bytes.
    pub fn words(self, at: u32, mut r: Numbers) -> Numbers {
        r.set(DONE, 0);
        for place in at..at.saturating_add(256) {
            if r.get(DONE) != 0 {
                return r;
            }
            self.read_at(place, &mut r);
        }
        if r.get(DONE) == 0 {
            r.refuse();
        }
        r
    }

    // What is set on every line that sets nothing else.
    pub fn usual(self) -> Numbers {
        let place = self.name_for(b'U', 0).map_or(0, |name| name.place);
        self.words(place, Numbers::new())
    }

    // ---- lines

    // The line after the line end at a place, unless it is a remark or a name.
    pub fn line_after(self, at: u32) -> Option<Line> {
        match self.text.get(at as usize..)? {
            [b'\n', b'>', ..] => Some(Line::Call(at + 2)),
            [b'\n', 0 | b'#' | b':', ..] => None,
            [b'\n', _, ..] => Some(Line::Text(at + 1)),
            _ => None,
        }
    }
}

// The letter that waits for its number.
fn waiting(r: &Numbers) -> Option<u8> {
    match r.get(WAITS) {
        0 => None,
        letter => u8::try_from(letter).ok(),
    }
}

// The number that a word writes is the letter's, which no longer waits.
fn take_number(word: &[u8], letter: u8, r: &mut Numbers) {
    r.set(WAITS, 0);
    match number_of(word) {
        Some(number) => r.set(letter, number),
        None => r.refuse(),
    }
}

// The words are done, and the line has a text at a place, or none.
fn end_words(text: Option<u32>, r: &mut Numbers) {
    r.set(DONE, 1);
    r.set(TEXT, text.unwrap_or(0));
    if r.get(WAITS) != 0 {
        r.refuse();
    }
}
