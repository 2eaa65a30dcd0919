// The original's answers on standard input, one case a line, each computed anew: how many of each kind agree, and where the first that differs stands.
#![tactic(auto)]

mod kinds;
mod lines;
mod numbers;
mod packets;
mod symbols;
mod text;

ghost use Rattle.std.specs.Prelude.{◌≡◌, length};
ghost use Rattle.std.specs.Io.{ReadsAtMost};

use kinds::{KINDS, Kind};
use std::io;
use std::io::{Print, Read};
use text::Bytes;

// How many cases of a kind agree, and how many don't.
#[derive(Clone, Copy, Debug, PartialEq, Eq)]
struct Count {
    agree: u64,
    differ: u64,
}

// What was counted so far.
#[derive(Drop)]
struct Tally {
    kinds: [Count; 24],
    cases: u64,
    different: u64,
}

impl Tally {
    fn new() -> Tally {
        Tally {
            kinds: [Count {
                agree: 0,
                differ: 0,
            }; 24],
            cases: 0,
            different: 0,
        }
    }

    fn agreed(&mut self, kind: Kind) {
        let count = &mut self.kinds[kind as usize];
        count.agree = count.agree.wrapping_add(1);
        self.cases = self.cases.wrapping_add(1);
    }

    fn differed(&mut self, kind: Kind) {
        let count = &mut self.kinds[kind as usize];
        count.differ = count.differ.wrapping_add(1);
        self.unread();
    }

    // A case of no kind.
    fn unread(&mut self) {
        self.cases = self.cases.wrapping_add(1);
        self.different = self.different.wrapping_add(1);
    }
}

// Says of a line, by its number and its kind.
fn say_line(rt: &impl Print, number: u64, kind: &[u8], what: &str) -> io::Result<()> {
    print!(rt; "line {number}: ")?;
    rt.write_all(kind)?;
    println!(rt; " {what}")
}

// One case. One that doesn't agree is said where it is the first of its kind or can't be read.
fn case(
    rt: &impl Print,
    number: u64,
    line: &[u8],
    bytes: &mut Bytes,
    tally: &mut Tally,
) -> io::Result<()> {
    let end = line.iter().position(|b| *b == b' ').unwrap_or(line.len());
    let (name, spelled) = line.split_at(end);
    let Some(kind) = Kind::named(name) else {
        tally.unread();
        return say_line(rt, number, name, "is no kind of case");
    };
    let Some(()) = text::read_hex(spelled, bytes) else {
        tally.differed(kind);
        return say_line(rt, number, name, "is malformed");
    };
    if kind.agrees(bytes.as_slice()) {
        tally.agreed(kind);
        return Ok(());
    }
    let first = tally.kinds[kind as usize].differ == 0;
    tally.differed(kind);
    if first {
        return say_line(rt, number, name, "differs, the first of its kind");
    }
    Ok(())
}

// Each line but the comments.
fn replay(rt: &impl Print, list: &[u8], tally: &mut Tally) -> io::Result<()> {
    let mut number = 0u64;
    let mut bytes = Bytes::new();
    for ended in list.split_inclusive(|b| *b == b'\n') {
        number = number.wrapping_add(1);
        let line = ended.strip_suffix(b"\n").unwrap_or(ended);
        if line.first() != Some(&b'#') {
            case(rt, number, line, &mut bytes, tally)?;
        }
    }
    Ok(())
}

fn say_tally(rt: &impl Print, tally: &Tally) -> io::Result<()> {
    for (kind, count) in KINDS.iter().zip(&tally.kinds) {
        print!(rt; "{}: {} agree", kind.name(), count.agree)?;
        if count.differ != 0 {
            print!(rt; ", {} differ", count.differ)?;
        }
        println!(rt)?;
    }
    println!(rt;
        "replay: {} cases, {} different",
        tally.cases, tally.different
    )
}

// Reads until the room is full or the input ends, and returns how many bytes came.
// A loop over `read`: `read_exact` doesn't say how much came of an input shorter than the room, and `read_to_end` needs a `Vec`, which is on the heap.
fn read_full(input: &mut impl Read, room: &mut [u8]) -> io::Result<usize>
    ensures { ReadsAtMost result room.new }
{
    let mut done = 0;
    while done < room.len() {
        let n = input.read(&mut room[done..])?;
        if n == 0 {
            break;
        }
        done += n;
    }
    Ok(done)
}

fn main(rt: HostRuntime) -> io::Result<()> {
    let mut room = [0u8; 262144];
    let n = read_full(&mut rt.stdin(), &mut room)?;
    if n == room.len() {
        println!(rt; "replay: the list is too long")?;
        return Ok(());
    }
    let mut tally = Tally::new();
    replay(&rt, &room[..n], &mut tally)?;
    say_tally(&rt, &tally)
}
