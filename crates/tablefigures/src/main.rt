// Prints figures over the table files that follow one another in the file that its argument names, or in standard
// input if there is none. It prints 32 lines, each a name and a count, and, if a file is refused, the last line
// `refused NUMBER POSITION`. It only reads and prints; what a file adds is decided by the library, figures::step. The
// buffer holds two windows: a step sees at least one window, or all that is left, and bytes are moved only if less
// than a window is unread. If a read fails, no report is printed.
#![tactic(auto)]

ghost use Rattle.std.specs.Prelude.{◌≤◌, length, IfOk};

use blocks::BLOCK_BYTES;
use figures::{CALLS_ACCEPTED, CALLS_REFUSED, ERRORS, FIGURES, FILES, LISTS, MODES, NODES};
use std::env::{Env, FillError};
use std::fs::File;
use std::io::{self, Read};
use std::ops::Range;
use std::str;
use tablefile::MOST_BLOCKS;

// The length of the largest table file: a step reads no more of its input.
const WINDOW: usize = BLOCK_BYTES * MOST_BLOCKS;

const BUFFER: usize = 2 * WINDOW;

// The length of the longest file name.
const MOST_NAME: usize = 4096;

// The system's numbers of the reasons why an argument names no file: it is too long, or not text.
const NAME_TOO_LONG: i32 = 36;

const NOT_TEXT: i32 = 84;

// Why counting stops before the end of the input: a file is refused at a position of the input, or a read failed.
#[derive(Debug, Drop)]
enum Stopped {
    Refused { number: u32, at: u64 },
    Failed(io::Error),
}

fn main(rt: HostRuntime) -> io::Result<()> {
    let mut path = [0u8; MOST_NAME];
    let k = match rt.arg(1, &mut path) {
        Ok(k) => k,
        Err(FillError::NotPresent) => return count(&rt, &mut rt.stdin(), "standard input"),
        Err(FillError::TooLong) => return no_name(&rt, NAME_TOO_LONG),
    };
    let Ok(name) = str::from_utf8(&path[..k]) else {
        return no_name(&rt, NOT_TEXT);
    };
    match File::open(&rt, name) {
        Ok(mut file) => count(&rt, &mut file, name),
        Err(why) => fail(&rt, name, why),
    }
}

// Counts the files of an input and prints the figures.
fn count(
    rt: &(impl Print + Eprint + AllocGlobal),
    input: &mut impl Read,
    name: &str,
) -> io::Result<()> {
    let mut counters = [0u64; FIGURES];
    match count_files(input, &mut counters) {
        Ok(()) => say_figures(rt, &counters),
        Err(Stopped::Refused { number, at }) => {
            say_figures(rt, &counters)?;
            println!(rt; "refused {number} {at}")
        }
        Err(Stopped::Failed(why)) => fail(rt, name, why),
    }
}

// Counts the files of an input. A turn fills the buffer, counts the files that are whole in it and moves the rest to
// its front, so the buffer begins at `position` of the input, and its first `held` bytes are read. A proved loop must
// end, but an input need not: no input uses up the turns. The buffer is no Vec: for want of memory that would fail.
fn count_files(input: &mut impl Read, counters: &mut [u64; FIGURES]) -> Result<(), Stopped> {
    let mut buffer = [0u8; BUFFER];
    let mut held = 0;
    let mut position = 0u64;
    for _ in 0..u64::MAX {
        let n = fill(input, &mut buffer, held).map_err(Stopped::Failed)?;
        let ended = n < BUFFER;
        let wanted = if ended { 1 } else { WINDOW };
        let taken = count_front(front(&buffer, n), wanted, position, counters)?;
        if ended {
            break;
        }
        buffer.copy_within(taken.., 0);
        held = BUFFER - taken;
        position = position.saturating_add(taken as u64);
    }
    Ok(())
}

// The first n bytes of the buffer; none if it is shorter.
fn front(buffer: &[u8], n: usize) -> &[u8]
    ensures { length result.now ≤ length buffer.now }
{
    buffer.get(..n).unwrap_or(&[])
}

// Reads behind the first `held` bytes until the buffer is full or the input ends, and returns the number of bytes in
// the buffer. A failed read is not taken for the end.
// Each read gets all the room that is left: one with less room would lose the rest of a message, where the input keeps
// messages apart (`read_to_end` and `io::copy` read in smaller pieces).
fn fill(input: &mut impl Read, buffer: &mut [u8], held: usize) -> io::Result<usize> {
    let mut done = held;
    while done < buffer.len() {
        match input.read(&mut buffer[done..])? {
            0 => break,
            more => done += more,
        }
    }
    Ok(done)
}

// Counts the files at the front of the buffer as long as `wanted` bytes are unread, and returns the number of bytes
// that they take. A file takes at least one byte, so as many turns as bytes are enough.
fn count_front(
    buffer: &[u8],
    wanted: usize,
    position: u64,
    counters: &mut [u64; FIGURES],
) -> Result<usize, Stopped>
    ensures { IfOk result (λ n. n ≤ length buffer.now) }
{
    let mut unread = buffer;
    for _ in buffer {
        if unread.len() < wanted {
            break;
        }
        let stepped = figures::step(unread, counters);
        match stepped {
            Ok(n) => unread = unread.get(n..).unwrap_or(&[]),
            Err(number) => {
                let at = position.saturating_add((buffer.len() - unread.len()) as u64);
                return Err(Stopped::Refused { number, at });
            }
        }
    }
    Ok(buffer.len() - unread.len())
}

// Prints the 32 lines.
fn say_figures(rt: &impl Print, counters: &[u64; FIGURES]) -> io::Result<()> {
    println!(rt; "files {}", counters[FILES])?;
    println!(rt; "nodes {}", counters[NODES])?;
    println!(rt; "lists {}", counters[LISTS])?;
    say_numbered(rt, "mode", 1..6, &counters[MODES..MODES + 5])?;
    println!(rt; "calls accepted {}", counters[CALLS_ACCEPTED])?;
    println!(rt; "calls refused {}", counters[CALLS_REFUSED])?;
    say_numbered(rt, "error", 10..20, &counters[ERRORS..ERRORS + 10])?;
    say_numbered(rt, "error", 50..62, &counters[ERRORS + 10..ERRORS + 22])
}

// Prints a line for each counter, with its number.
fn say_numbered(
    rt: &impl Print,
    text: &str,
    numbers: Range<u8>,
    counters: &[u64],
) -> io::Result<()> {
    for (number, counter) in numbers.zip(counters) {
        println!(rt; "{text} {number} {counter}")?;
    }
    Ok(())
}

// Reports that the argument names no file, and why.
fn no_name(rt: &(impl Eprint + AllocGlobal), why: i32) -> io::Result<()> {
    fail(rt, "the file's name", io::Error::from_raw_os_error(why))
}

// Writes a line to standard error: what failed, a colon, and why in the system's words, without the number after them.
// Each program has its own: a public function of a library must promise something (tools/gate/promises.py), and no
// contract says what is printed.
fn fail(rt: &(impl Eprint + AllocGlobal), what: &str, why: io::Error) -> io::Result<()> {
    let text = format!(in rt.alloc(); "{why}")?;
    match text.split_once(" (os error ") {
        Some((words, _)) => eprintln!(rt; "{what}: {words}"),
        None => eprintln!(rt; "{what}: {text}"),
    }
}
