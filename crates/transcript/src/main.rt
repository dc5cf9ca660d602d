// Shows the software at work: runs the script that it is given (the file `stdin`), call by call, and tells of each call its answer, what
// was given and what was delivered. A line that begins with '>' is a call, with '#' or ':' none; every other line is told as it is.
#![tactic(auto)]

ghost use Rattle.std.specs.Prelude.{◌≤◌, length, IfOk};

use post::{DESK, List};
use script::{CALL, Call, FREE, LINE, Line, Numbers, Script};
use stage::{Fares, Scene};
use std::io;
use std::io::{Read, Write};
use telling::Teller;

// ---- calls that change a book

fn act<W: Write>(
    scene: &mut Scene<'_, W>,
    call: Call,
    mut r: Numbers,
    handed: Option<&[u8]>,
) -> io::Result<()> {
    let message = desk::on_desk(scene.desk, call, &mut r, handed);
    clerk::follow(scene, r, message)
}

// Bytes laid as the numbers say, and handed in; calls for which there is nothing to hand in look at none.
fn hand_in<W: Write>(scene: &mut Scene<'_, W>, call: Call, mut r: Numbers) -> io::Result<()> {
    let hand = hand::lay(&r);
    let handed = hand::read_hand(&mut r, &hand);
    act(scene, call, r, handed)
}

// Number x of a list comes. Where it is not left, zeros are read, since the line that is not understood may tell of what was read.
fn come<W: Write>(scene: &mut Scene<'_, W>, call: Call, mut r: Numbers) -> io::Result<()> {
    match scene.take(call, &mut r) {
        Some(taken) => {
            let handed = hand::read_hand(&mut r, &taken.hand);
            if taken.fares == Fares::Received {
                return act(scene, call, r, handed);
            }
        }
        None => {
            let _ = hand::read_hand(&mut r, &[0; 40]);
            r.refuse();
        }
    }
    scene.teller.told(&r)
}

// Copy x and those after it come, each in its turn, if it is left.
fn come_from<W: Write>(scene: &mut Scene<'_, W>, r: Numbers) -> io::Result<()> {
    for k in r.get(FREE)..64 {
        if post::is_left(scene.desk, List::Copies, k) {
            let mut r = r;
            r.set(CALL, u32::from(Call::Copy));
            r.set(FREE, k);
            come(scene, Call::Copy, r)?;
        }
    }
    Ok(())
}

// ---- the script

fn make<W: Write>(scene: &mut Scene<'_, W>, call: Call, mut r: Numbers) -> io::Result<()> {
    match call {
        // It makes no call, and sets what holds for the lines that follow.
        Call::With => Ok(()),
        Call::Card | Call::Length | Call::Judge => {
            outset::on_nothing(call, &mut r);
            scene.teller.told(&r)
        }
        Call::Open | Call::OpenWith | Call::Publish | Call::Receive | Call::Lie | Call::Ask =>
            hand_in(scene, call, r),
        Call::Return | Call::ReturnUntold | Call::Sent | Call::Waiting | Call::StartAgain => {
            clerk::take_step(scene, call, r)
        }
        Call::Show => hand::show(&mut scene.teller, r),
        Call::Copy | Call::Request => come(scene, call, r),
        Call::CopiesOn => come_from(scene, r),
        Call::Begin | Call::GoDown | Call::Stand | Call::Bounds | Call::Spoil => {
            scene.take_step(call, r)
        }
    }
}

// What a line sets holds for that line, or, where it makes no call, for those after it.
fn call_line<W: Write>(scene: &mut Scene<'_, W>, base: &mut Numbers, at: u32) -> io::Result<()> {
    let script = scene.teller.script;
    let mut r = script.words(at, *base);
    r.set(LINE, at);
    if r.is_wrong() {
        return scene.teller.told(&r);
    }
    match Call::try_from(r.get(CALL)) {
        Ok(Call::With) => {
            *base = script.words(at, script.usual());
            Ok(())
        }
        Ok(call) => make(scene, call, r),
        Err(_) => {
            r.refuse();
            scene.teller.told(&r)
        }
    }
}

// The line after a place, where one ends there.
fn line<W: Write>(scene: &mut Scene<'_, W>, base: &mut Numbers, at: u32) -> io::Result<()> {
    let script = scene.teller.script;
    match script.line_after(at) {
        Some(Line::Call(words)) => call_line(scene, base, words),
        Some(Line::Text(text)) => scene.teller.tell_line(script.text_at(text), base),
        None => Ok(()),
    }
}

// Each line but the first.
fn play<W: Write>(scene: &mut Scene<'_, W>) -> io::Result<()> {
    let mut base = scene.teller.script.usual();
    for at in 0..scene.teller.script.size() {
        line(scene, &mut base, at)?;
    }
    Ok(())
}

// Reads until the space is full or the input ends, and says how many bytes it read.
// Kept: a `while`, since `done` counts what was read and is no index of items; the library's `read_to_end` wants a vector.
fn read_full<R: Read>(input: &mut R, space: &mut [u8]) -> io::Result<usize>
    ensures { IfOk result (λ n. n ≤ length space.new) }
{
    let mut done = 0;
    while done < space.len() {
        let n = input.read(&mut space[done..])?;
        if n == 0 {
            return Ok(done);
        }
        done += n;
    }
    Ok(done)
}

fn main(rt: HostRuntime) -> io::Result<()> {
    // Kept: two arrays, and no vectors, since the program would then rest on the allocator too, and might fail where it does not.
    let mut space: [u8; 65536] = [0; 65536];
    let mut desk: [u8; DESK] = [0; DESK];
    let n = read_full(&mut rt.stdin(), &mut space)?;
    let mut out = rt.stdout();
    let script = Script::new(&space[..n]);
    let teller = Teller {
        out: &mut out,
        script,
    };
    let mut scene = Scene {
        teller,
        desk: &mut desk,
    };
    play(&mut scene)
}
