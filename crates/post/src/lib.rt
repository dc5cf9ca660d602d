// A season's post, as bytes: how each house stands, and two lists, the copies sent and the requests for help, each with the house it is
// from, the house it goes to, whether it came, and its bytes. They stand in one buffer, before the books. Its first bytes are for what a
// list has no room for.
// Kept: the buffer, its places and what lies past them, since a number past a list's end writes on into the next list, and a book into the
// one after it, and what `transcript` then answers stands.
#![tactic(auto)]

ghost use Rattle.std.specs.Prelude.{◌+◌, ◌≤◌, ◌<◌};

// For each house whether it is down, how often it returned, whether it delivered.
pub const DOWN: u32 = 100;

pub const RETURNS: u32 = 150;

pub const DELIVERED: u32 = 200;

// From, to, whether it came, and its bytes.
const LISTED: u32 = 40;

// The books: where the first begins, and how far apart they do. A longer one has the room of those after it.
pub const BOOKS: usize = 6000;

pub const APART: usize = 1024;

// The longest book, that of 31 houses with 4 numbers each; and the whole buffer.
const LONGEST: usize = 169406;

pub const DESK: usize = BOOKS + LONGEST;

// A list: how many there are, how many go to honest houses, how many are READYs, and from LISTED on each.
#[derive(Clone, Copy, PartialEq, Eq, Debug)]
pub enum List {
    Copies,
    Requests,
}

impl List {
    // Where it begins.
    pub fn place(self) -> u32
        ensures { result ≤ 3000 }
    {
        match self {
            List::Copies => 250,
            List::Requests => 3000,
        }
    }
}

// ---- bytes

// A number as a byte; one that is too large is 255.
pub fn byte(x: u32) -> u8 {
    u8::try_from(x).unwrap_or(255)
}

// Puts a number into a byte, so far from a place; and has it from there.
// Kept, here and below: a place in two parts, since their sum may be more than 32 bits hold; and a byte as a number, as the script's are.
pub fn put(to: &mut [u8], at: u32, off: u32, x: u32) {
    if let Some(b) = to.get_mut(at as usize + off as usize) {
        *b = byte(x);
    }
}

pub fn has(s: &[u8], at: u32, off: u32) -> u32
    ensures { result < 256 }
{
    let b = s.get(at as usize + off as usize).copied().unwrap_or(0);
    u32::from(b)
}

// Copies 36 bytes from one place to another, with zeros for what is past the end.
// Kept: byte by byte, since some may have room where others have none.
pub fn copy(to: &mut [u8], at: u32, from: &[u8], first: u32) {
    for i in 0..36 {
        put(to, at, i, has(from, first, i));
    }
}

// ---- the lists

pub fn count(desk: &mut [u8], at: u32, off: u32) {
    let k = has(desk, at, off);
    put(desk, at, off, k + 1);
}

pub fn count_if(desk: &mut [u8], at: u32, off: u32, is_one: bool) {
    if is_one {
        count(desk, at, off);
    }
}

// Where number k of a list begins, counted from 1. It ends before the books.
pub fn listed(list: List, k: u32) -> u32
    ensures { result + 40 ≤ 6000 }
{
    if k < 64 {
        return list.place() + k * LISTED;
    }
    0
}

fn lay(desk: &mut [u8], at: u32, from: u32, to: u32, message: [u8; 36])
    requires { at + 40 ≤ 6000 }
{
    put(desk, at, 0, from);
    put(desk, at, 1, to);
    put(desk, at, 2, 0);
    copy(desk, at + 3, &message, 0);
}

// One more on a list, to a house that is honest or not.
// Kept: a READY by its number 3 in the message's byte, since this crate is of bytes alone, and stands on no other.
fn post_one(desk: &mut [u8], list: List, from: u32, to: u32, is_honest: bool, message: [u8; 36]) {
    let counts = list.place();
    count(desk, counts, 0);
    count_if(desk, counts, 1, is_honest);
    count_if(desk, counts, 2, message[3] == 3);
    let at = listed(list, has(desk, counts, 0));
    lay(desk, at, from, to, message);
}

// One to each house from `first` to before `end`, of which those below `honest` are honest.
pub fn post_all(
    desk: &mut [u8],
    list: List,
    from: u32,
    honest: u32,
    first: u32,
    end: u32,
    message: [u8; 36],
) {
    for to in first..end {
        post_one(desk, list, from, to, to < honest, message);
    }
}

// Whether one is on a list that has not come.
pub fn is_left(desk: &[u8], list: List, k: u32) -> bool {
    k <= has(desk, list.place(), 0) && has(desk, listed(list, k), 2) == 0
}

// Nothing is posted, and no house has gone down, returned or delivered.
pub fn begin(desk: &mut [u8]) {
    for at in [
        DOWN,
        RETURNS,
        DELIVERED,
        List::Copies.place(),
        List::Requests.place(),
    ] {
        copy(desk, at, &[], 0);
    }
}
