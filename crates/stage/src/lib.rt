// The steps of a season that call on no book: a copy is taken from the post, what is given goes to all, a house goes down, how a house
// stands, how many copies there are; and what is told of each.
#![tactic(auto)]

ghost use Rattle.std.specs.Prelude.{◌+◌, ◌*◌, ◌<◌, ◌≤◌};

use post::{
    BOOKS, DELIVERED, DOWN, List, RETURNS, byte, copy, count, count_if, has, is_left, listed,
    post_all, put,
};
use script::{Call, DELIVERS, FREE, FROM, GIVES, HELP_LIMIT, HONEST, HOUSES, LENGTH, Numbers, OWN};
use std::io;
use std::io::Write;
use std::ops::Range;
use telling::Teller;

// The number of the last of several copies or requests; how a copy fares; a bound; whether a house is down, whether it has delivered;
// whether some houses are wrong.
const LAST: u8 = b'X';

const FARES: u8 = b'i';

const BOUND: u8 = b'N';

const IS_DOWN: u8 = b'H';

const HAS_DELIVERED: u8 = b'Y';

const SOME_WRONG: u8 = b'I';

const BECOMES: u8 = b'r';

// What is told beside the calls, by its number in the script.
// Kept: numbers, since the script looks a phrase up by its number, as it does a call's own.
const TO_ONE: u32 = 30;

const TO_ALL: u32 = 31;

const ASKS: u32 = 33;

const READYS: u32 = 34;

// What calls and steps are made with: the teller, and the desk, on which the post and the books lie.
#[derive(Drop)]
pub struct Scene<'a, W> {
    pub teller: Teller<'a, W>,
    pub desk: &'a mut [u8],
}

// What a call gives, by its number in the script. Of a refusal this is not told.
// Kept: the number is set and read back among the numbers (`as u32`, as of what bytes read as and of what waits), and the bytes stand
// beside it, since a script may set g itself.
#[derive(Clone, Copy, PartialEq, Eq, Debug)]
pub enum Gives {
    Nothing = 0,
    Message = 1,
    Help = 2,
    Refusal = 3,
}

// How a copy fares: it is received; lost, where the house is down, which the post has by any number but 0; of no interest, where the
// house is wrong.
#[derive(Clone, Copy, PartialEq, Eq, Debug)]
pub enum Fares {
    Received,
    Lost(u32),
    OfNoInterest,
}

// What is taken from a list, and how it fares.
// Kept: forty bytes, with their length among the numbers, since a script may set that itself, and so many are handed in.
#[derive(Clone, Copy)]
pub struct Taken {
    pub hand: [u8; 40],
    pub fares: Fares,
}

// Kept: by the answer and two flags, as C has them.
pub fn given(answer: u8, gives: bool, helps: bool) -> Gives {
    match (answer, gives, helps) {
        (0, true, _) => Gives::Message,
        (0, false, true) => Gives::Help,
        (0, false, false) => Gives::Nothing,
        _ => Gives::Refusal,
    }
}

// The list that a call takes from, and how many bytes it has of each.
fn list_of(call: Call) -> (List, u32) {
    match call {
        Call::Request => (List::Requests, 11),
        _ => (List::Copies, 36),
    }
}

// To whom they go, and their numbers, which follow those that there are.
fn number(r: &mut Numbers, to: &Range<u32>, so_far: u32) {
    r.set(FROM, to.start);
    r.set(FREE, so_far.wrapping_add(1));
    r.set(LAST, so_far.wrapping_add(to.end));
}

// ---- bounds

// A product, with a bound by which sums of it fit.
fn times(a: u32, b: u8) -> u32
    requires { a < 65536 }
    ensures { result ≤ a * 255 }
{
    a * u32::from(b)
}

// How many copies and how many READYs may be sent at most.
#[derive(Clone, Copy)]
struct Bounds {
    copies: u32,
    readys: u32,
}

// With h honest houses of n, each back at most d times.
fn bounds_of(n: u8, h: u8, d: u8) -> Bounds {
    let n = u32::from(n);
    let hn = times(n, h);
    let hnd = times(hn, d);
    Bounds {
        copies: n + 2 * hn + 6 * hnd,
        readys: hn + 2 * hnd,
    }
}

impl<W: Write> Scene<'_, W> {
    // ---- what is posted

    fn post_to(&mut self, r: &Numbers, list: List, to: &Range<u32>, message: [u8; 36]) {
        post_all(
            self.desk,
            list,
            r.get(OWN),
            r.get(HONEST),
            to.start,
            to.end,
            message,
        );
    }

    // A message that was sent is sent again. That it goes to one house alone is told where it goes to a single one.
    pub fn send_again(
        &mut self,
        mut r: Numbers,
        message: [u8; 36],
        to: &Range<u32>,
    ) -> io::Result<()> {
        number(&mut r, to, has(self.desk, List::Copies.place(), 0));
        let phrase = if to.start.wrapping_add(1) == to.end {
            TO_ONE
        } else {
            TO_ALL
        };
        self.teller.say_line(phrase, &r)?;
        self.post_to(&r, List::Copies, to, message);
        Ok(())
    }

    // A request goes to all.
    pub fn ask_all(&mut self, mut r: Numbers, request: [u8; 36]) -> io::Result<()> {
        let all = 0..r.get(HOUSES);
        number(&mut r, &all, has(self.desk, List::Requests.place(), 0));
        self.teller.tell_phrase(ASKS, &r)?;
        self.teller.say_bytes(&request, 0, 11)?;
        self.teller.end_line()?;
        self.post_to(&r, List::Requests, &all, request);
        Ok(())
    }

    // What came of a call in a season: a delivery is noted, and a message given goes to all.
    pub fn give(&mut self, r: &Numbers, message: [u8; 36]) {
        count_if(self.desk, DELIVERED, r.get(OWN), r.get(DELIVERS) == 1);
        if r.get(GIVES) == Gives::Message as u32 {
            self.post_to(r, List::Copies, &(0..r.get(HOUSES)), message);
        }
    }

    // ---- what comes

    fn fares(&self, r: &Numbers) -> Fares {
        if r.get(OWN) < r.get(HONEST) {
            return match has(self.desk, DOWN, r.get(OWN)) {
                0 => Fares::Received,
                down => Fares::Lost(down),
            };
        }
        Fares::OfNoInterest
    }

    // Number x of the call's list, if it is left, with the numbers that tell of it.
    pub fn take(&mut self, call: Call, r: &mut Numbers) -> Option<Taken> {
        let (list, length) = list_of(call);
        if !is_left(self.desk, list, r.get(FREE)) {
            return None;
        }
        let at = listed(list, r.get(FREE));
        put(self.desk, at, 2, 1);
        let mut hand: [u8; 40] = [0; 40];
        copy(&mut hand, 0, self.desk, at + 3);
        r.set(FROM, has(self.desk, at, 0));
        r.set(OWN, has(self.desk, at, 1));
        r.set(LENGTH, length);
        let fares = self.fares(r);
        r.set(
            FARES,
            match fares {
                Fares::Received => 0,
                Fares::Lost(down) => down,
                Fares::OfNoInterest => 2,
            },
        );
        Some(Taken { hand, fares })
    }

    // ---- down and back

    // Byte x of the book of house 0 becomes another.
    // Kept, this and the one below: a put and what is told; one function of both would take all that differs.
    fn spoil(&mut self, r: Numbers) -> io::Result<()> {
        put(self.desk, BOOKS as u32, r.get(FREE), r.get(BECOMES));
        self.teller.told(&r)
    }

    fn go_down(&mut self, r: Numbers) -> io::Result<()> {
        put(self.desk, DOWN, r.get(OWN), 1);
        self.teller.told(&r)
    }

    pub fn go_up(&mut self, own: u32) {
        put(self.desk, DOWN, own, 0);
        count(self.desk, RETURNS, own);
    }

    // ---- what is told

    fn stand(&mut self, mut r: Numbers) -> io::Result<()> {
        let own = r.get(OWN);
        r.set(IS_DOWN, has(self.desk, DOWN, own));
        r.set(FREE, has(self.desk, RETURNS, own));
        r.set(HAS_DELIVERED, has(self.desk, DELIVERED, own));
        self.teller.told(&r)
    }

    // The copies sent, those between honest houses where some are not, the READYs, and the bounds.
    fn bound(&mut self, mut r: Numbers) -> io::Result<()> {
        let bounds = bounds_of(
            byte(r.get(HOUSES)),
            byte(r.get(HONEST)),
            byte(r.get(HELP_LIMIT)),
        );
        let sent = has(self.desk, List::Copies.place(), 0);
        let between_honest = has(self.desk, List::Copies.place(), 1);
        r.set(FREE, sent);
        r.set(LAST, between_honest);
        r.set(SOME_WRONG, u32::from(between_honest < sent));
        r.set(BOUND, bounds.copies);
        self.teller.told(&r)?;
        r.set(FREE, has(self.desk, List::Copies.place(), 2));
        r.set(BOUND, bounds.readys);
        self.teller.say_line(READYS, &r)
    }

    fn refuse(&mut self, mut r: Numbers) -> io::Result<()> {
        r.refuse();
        self.teller.told(&r)
    }

    // A step that calls on no book.
    pub fn take_step(&mut self, call: Call, r: Numbers) -> io::Result<()> {
        match call {
            Call::Begin => {
                post::begin(self.desk);
                Ok(())
            }
            Call::GoDown => self.go_down(r),
            Call::Stand => self.stand(r),
            Call::Bounds => self.bound(r),
            Call::Spoil => self.spoil(r),
            _ => self.refuse(r),
        }
    }
}
