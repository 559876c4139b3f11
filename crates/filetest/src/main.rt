// Tries the reader of table files. First an accepted file: whole, with each of its bytes changed to eight other
// values, cut at every length, and with a byte more. It prints how often the reader gave which answer: a file with
// one changed byte must be refused with 72, and one that is cut short with 70 (docs/FORMAT.md, a table file). Then
// the files of data/files.bin: both sides of each limit and of each rule, one answer a line, with the answer of every
// job over a file and whether it left its buffers unchanged.
#![tactic(auto)]

mod changes;
mod files;
mod lent;

use std::fs::File;
use std::io::{self, Read};

// The length of the buffer for the first file, which is tried if it is shorter, as every table file is: the largest has
// 59,904 bytes.
const MOST_READ: usize = 65_536;

fn main(rt: HostRuntime) -> io::Result<()> {
    let mut space = [0u8; MOST_READ];
    match read(&rt, "parameters.table", &mut space) {
        Ok(n) => changes::all(&rt, &mut space, n)?,
        Err(why) => return fail(&rt, "parameters.table", why),
    }
    match File::open(&rt, "files.bin") {
        Ok(mut input) => files::all(&rt, &mut input),
        Err(why) => fail(&rt, "files.bin", why),
    }
}

// Reads a file until the buffer is full or the file ends, and returns the number of bytes.
fn read(rt: &HostRuntime, name: &str, space: &mut [u8]) -> io::Result<usize> {
    let mut file = File::open(rt, name)?;
    let mut done = 0;
    while done < space.len() {
        match file.read(&mut space[done..])? {
            0 => break,
            more => done += more,
        }
    }
    Ok(done)
}

// Writes a line to standard error: what failed, a colon, and why in the system's words, without the number after them.
// Each program has its own: a public function of a library must promise something (tools/gate/promises.py), and no
// contract says what is printed.
fn fail(rt: &(impl Eprint + AllocGlobal), what: &str, why: io::Error) -> io::Result<()> {
    let text = format!(in rt.alloc(); "{why}")?;
    match text.split_once(" (os error ") {
        Some((words, _)) => eprintln!(rt; "{what}: {words}"),
        None => eprintln!(rt; "{what}: {text}"),
    }
}
