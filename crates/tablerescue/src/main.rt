// Rescues what it can of a table file: tablerescue IN NEW OUT, each the name of a file. It prints `statements S`,
// `nodes N`, `dropped D` and `bytes B`, where B is the number of bytes after the header's last block; or, if nothing
// can be rescued, the one line `refused K`, and OUT stays unchanged. The output is written to NEW, flushed and
// renamed to OUT, so OUT is never a partial file. IN is read to its end before, so it may be OUT. The program only
// reads and writes; what is rescued is decided by the library, rescue.
#![tactic(auto)]

ghost use Rattle.std.specs.Prelude.{◌≤◌, length, IfOk};

use blocks::BLOCK_BYTES;
use rescue::Kept;
use std::env::{Env, FillError};
use std::fs::{self, File, OpenOptions};
use std::io::{self, Read, Write};
use std::str;
use tablefile::MOST_BLOCKS;

// The length of the largest file: no more of the input decides what is rescued, and no output is longer.
const MOST_FILE: usize = BLOCK_BYTES * MOST_BLOCKS;

// The number of bytes past those that are read at once.
const AT_ONCE: usize = 65_536;

// The limit of counting, more than the length of any file.
const MOST_COUNTED: u64 = 0x4000_0000_0000_0000;

// The length of the longest file name.
const MOST_NAME: usize = 4096;

// The system's numbers of the reasons why an argument names no file: there is none, it is too long, or it is not text;
// and why a file is not read as a whole: it is too long, or more bytes came after its end.
const NO_NAME: i32 = 22;

const NAME_TOO_LONG: i32 = 36;

const NOT_TEXT: i32 = 84;

const FILE_TOO_LONG: i32 = 27;

const READ_FAILED: i32 = 5;

// Why nothing is written: the file or the argument that a step failed at, and the system's reason.
#[derive(Debug, Drop)]
struct Failure<'a> {
    what: &'a str,
    why: io::Error,
}

fn main(rt: HostRuntime) -> io::Result<()> {
    let mut path = [0u8; MOST_NAME];
    let name = match argument(&rt, 1, &mut path) {
        Ok(name) => name,
        Err(why) => return fail(&rt, "the file's name", why),
    };
    match File::open(&rt, name) {
        Ok(mut file) => run(&rt, &mut file, name),
        Err(why) => fail(&rt, name, why),
    }
}

// The argument at a place, whose bytes go into a buffer. One that is missing, too long or not text is an error.
fn argument<'a>(rt: &impl Env, place: usize, space: &'a mut [u8]) -> io::Result<&'a str> {
    let k = match rt.arg(place, space) {
        Ok(k) => k,
        Err(FillError::NotPresent) => return Err(io::Error::from_raw_os_error(NO_NAME)),
        Err(FillError::TooLong) => return Err(io::Error::from_raw_os_error(NAME_TOO_LONG)),
    };
    str::from_utf8(&space[..k]).map_err(|_| io::Error::from_raw_os_error(NOT_TEXT))
}

// Reads the input, and rescues what it contains. The first bytes are in an array, and not in a Vec, which would fail
// for want of memory.
fn run(rt: &HostRuntime, file: &mut impl Read, name: &str) -> io::Result<()> {
    let mut space = [0u8; MOST_FILE];
    match read(file, &mut space) {
        Ok((input, more)) => save(rt, input, more),
        Err(why) => fail(rt, name, why),
    }
}

// The first bytes of the input, and the number of bytes after them. A failed read is not taken for the end.
fn read<'a>(file: &mut impl Read, space: &'a mut [u8]) -> io::Result<(&'a [u8], u64)> {
    let n = fill(file, space)?;
    let more = count_rest(file)?;
    // the first part ended, and bytes came after it: the file has changed, so nothing is written
    if n < MOST_FILE && 0 < more {
        return Err(io::Error::from_raw_os_error(READ_FAILED));
    }
    Ok((&space[..n], more))
}

// Reads until the buffer is full or the input ends, and returns the number of bytes. A failed read is not taken for
// the end.
// Each read gets all the room that is left: one with less room would lose the rest of a message, where the input keeps
// messages apart (`read_to_end` and `io::copy` read in smaller pieces).
fn fill(file: &mut impl Read, input: &mut [u8]) -> io::Result<usize>
    ensures { IfOk result (λ n. n ≤ length input.new) }
{
    let mut done = 0;
    while done < input.len() {
        match file.read(&mut input[done..])? {
            0 => break,
            more => done += more,
        }
    }
    Ok(done)
}

// The number of bytes up to the end of the input. `io::copy` into `io::sink` would take 1.3 times as long, since it
// reads 8,192 bytes at once.
fn count_rest(file: &mut impl Read) -> io::Result<u64> {
    let mut space = [0u8; AT_ONCE];
    let mut n = 0u64;
    for _ in 0..MOST_COUNTED {
        match file.read(&mut space)? {
            0 => return Ok(n),
            more => n = n.saturating_add(more as u64),
        }
        if MOST_COUNTED <= n {
            break;
        }
    }
    Err(io::Error::from_raw_os_error(FILE_TOO_LONG))
}

// Rescues the first bytes of a file, after which `more` bytes follow, and prints the result.
fn save(rt: &HostRuntime, input: &[u8], more: u64) -> io::Result<()> {
    let mut file = [0u8; MOST_FILE];
    let rescued = rescue::rescue(input, &mut file);
    match rescued {
        Ok(kept) => match file.get(..kept.bytes as usize) {
            Some(bytes) => keep(rt, bytes, kept, more),
            None => Ok(()),
        },
        Err(why) => println!(rt; "refused {}", table::number(why)),
    }
}

// Writes the rescued bytes under the name OUT and prints the counts, or reports why they are not written.
fn keep(rt: &HostRuntime, bytes: &[u8], kept: Kept, more: u64) -> io::Result<()> {
    let mut new = [0u8; MOST_NAME];
    let mut out = [0u8; MOST_NAME];
    match put_out(rt, bytes, &mut new, &mut out) {
        Ok(()) => say_kept(rt, kept, more),
        Err(failure) => fail(rt, failure.what, failure.why),
    }
}

// Writes bytes under the name OUT. The names of the new file and of OUT are read into two buffers.
fn put_out<'a>(
    rt: &HostRuntime,
    bytes: &[u8],
    new: &'a mut [u8],
    out: &'a mut [u8],
) -> Result<(), Failure<'a>> {
    let new = argument(rt, 2, new).map_err(|why| Failure {
        what: "the new file's name",
        why,
    })?;
    let out = argument(rt, 3, out).map_err(|why| Failure {
        what: "the rescued file's name",
        why,
    })?;
    replace(rt, bytes, new, out)
}

// Makes the file `new`, writes and flushes it, and renames it to `out`. If a later step than the first fails, `new` is
// removed.
fn replace<'a>(
    rt: &HostRuntime,
    bytes: &[u8],
    new: &'a str,
    out: &'a str,
) -> Result<(), Failure<'a>> {
    let file = OpenOptions::new()
        .write(true)
        .create_new(true)
        .open(rt, new)
        .map_err(|why| Failure { what: new, why })?;
    let renamed = match put_all(file, bytes) {
        Ok(()) => fs::rename(rt, new, out).map_err(|why| Failure { what: out, why }),
        Err(why) => Err(Failure { what: new, why }),
    };
    if renamed.is_err() {
        let _ = fs::remove_file(rt, new);
    }
    renamed
}

// Writes all bytes, waits until they have reached the device, and closes the file.
fn put_all(mut file: File, bytes: &[u8]) -> io::Result<()> {
    file.write_all(bytes)?;
    file.sync_all()
}

// Prints the counts of a rescue. The bytes after the last block are those among the first ones and the `more` after
// them, or the largest number if their sum is larger.
fn say_kept(rt: &impl Print, kept: Kept, more: u64) -> io::Result<()> {
    println!(rt; "statements {}", kept.statements)?;
    println!(rt; "nodes {}", kept.nodes)?;
    println!(rt; "dropped {}", kept.dropped)?;
    println!(rt; "bytes {}", kept.after.saturating_add(more))
}

// Writes a line to standard error: what failed, a colon, and why in the system's words, without the number after them.
// Each program has its own: a public function of a library must promise something (tools/gate/promises.py), and no
// contract says what is printed.
fn fail(rt: &(impl Eprint + AllocGlobal), what: &str, why: io::Error) -> io::Result<()> {
    let text = format!(in rt.alloc(); "{why}")?;
    match text.split_once(" (os error ") {
        Some((words, _)) => eprintln!(rt; "{what}: {words}"),
        None => eprintln!(rt; "{what}: {text}"),
    }
}
