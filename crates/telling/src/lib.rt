// Tells what a script says: a phrase, in which the numbers that are set stand in holes, and of a call the phrase that is its own. In what
// is told, <o> is the number o in decimal digits, and [k] the name of k's value, in which there may be such holes again.
#![tactic(auto)]

ghost use Rattle.std.specs.Prelude.{◌<◌};

use script::{CALL, LINE, Numbers, Script, TAIL, TEXT};
use std::io;
use std::io::Write;

// Tells what a script says, to a writer.
#[derive(Drop)]
pub struct Teller<'a, W> {
    pub out: &'a mut W,
    pub script: Script<'a>,
}

// Where it goes on, and where after the name that is being told, and after the one around that, and so on; no text is nowhere.
// Kept: four fields and no stack, since four are kept and what is around more is forgotten: `transcript` tells what it told on each script.
#[derive(Clone, Copy)]
struct Spot<'a> {
    at: &'a [u8],
    then: &'a [u8],
    after: &'a [u8],
    last: &'a [u8],
}

impl<'a> Spot<'a> {
    fn move_to(self, at: &'a [u8]) -> Self {
        Spot { at, ..self }
    }

    fn go_in(self, name: &'a [u8], then: &'a [u8]) -> Self {
        Spot {
            at: name,
            then,
            after: self.then,
            last: self.after,
        }
    }

    fn go_out(self) -> Self {
        Spot {
            at: self.then,
            then: self.after,
            after: self.last,
            last: &[],
        }
    }
}

impl<'a, W: Write> Teller<'a, W> {
    fn say(&mut self, text: &[u8]) -> io::Result<()> {
        self.out.write_all(text)
    }

    // ---- phrases

    // A letter or a hole at a time.
    fn step<'s>(&mut self, p: Spot<'s>, r: &Numbers) -> io::Result<Spot<'s>>
    where
        'a: 's,
    {
        let letter = p.at.get(1).copied().unwrap_or(0);
        let past_hole = p.at.get(3..).unwrap_or(&[]);
        match p.at {
            [] | [0 | b'\n', ..] => Ok(p.go_out()),
            [b'[', ..] => Ok(p.go_in(self.script.find(letter, r.get(letter)), past_hole)),
            [b'<', ..] => {
                let number = r.get(letter);
                write!(self.out, "{number}")?;
                Ok(p.move_to(past_hole))
            }
            [c, rest @ ..] => {
                self.say(&[*c])?;
                Ok(p.move_to(rest))
            }
        }
    }

    // Tells a text to the end of its line.
    // Kept, these four: by text or by phrase, with the line's end or without; each that calls another is two calls long.
    pub fn tell(&mut self, text: &[u8], r: &Numbers) -> io::Result<()> {
        let mut p = Spot {
            at: text,
            then: &[],
            after: &[],
            last: &[],
        };
        for _ in 0..512 {
            p = self.step(p, r)?;
        }
        Ok(())
    }

    // Tells a phrase, by its number in the script.
    pub fn tell_phrase(&mut self, phrase: u32, r: &Numbers) -> io::Result<()> {
        self.tell(self.script.find(b'T', phrase), r)
    }

    // ---- lines

    pub fn end_line(&mut self) -> io::Result<()> {
        self.say(b"\n")
    }

    // Tells a text, and the line ends.
    pub fn tell_line(&mut self, text: &[u8], r: &Numbers) -> io::Result<()> {
        self.tell(text, r)?;
        self.end_line()
    }

    pub fn say_line(&mut self, phrase: u32, r: &Numbers) -> io::Result<()> {
        self.tell_phrase(phrase, r)?;
        self.end_line()
    }

    // What is told of a call: as the script has it for every such call, or the line's own text and the answer.
    pub fn told(&mut self, r: &Numbers) -> io::Result<()> {
        if r.is_wrong() {
            self.say(b"not understood:")?;
            return self.tell_line(self.script.text_at(r.get(LINE)), r);
        }
        match r.get(TEXT) {
            0 => self.say_line(r.get(CALL), r),
            text => {
                self.tell(self.script.text_at(text), r)?;
                self.tell_line(self.script.find(b'z', r.get(TAIL)), r)
            }
        }
    }

    // ---- bytes

    // Bytes from a place to before another, in hexadecimal, with zeros for what is past their end.
    // Kept: by their places, since those past the end are told as well.
    pub fn say_bytes(&mut self, bytes: &[u8], first: u32, end: u32) -> io::Result<()> {
        for at in first..end {
            let c = bytes.get(at as usize).copied().unwrap_or(0);
            write!(self.out, " {c:02x}")?;
        }
        Ok(())
    }
}
