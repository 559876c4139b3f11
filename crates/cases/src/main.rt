// Runs the cases of data/cases.bin, a request each, and prints the answers of the jobs: both sides of each limit and of
// each rule. The cases are written in cases.txt, and in kinds.txt, which tools/kinds.py generates from the sentences
// about the kinds of records (docs/FORMAT.md); tools/tables.py generates the requests from both, and the gate checks
// that they agree.
#![tactic(auto)]

mod answers;

use answers::{Case, Job};
use std::fs::File;
use std::io::{self, Read};

// The lengths of the longest parts of a request: a longer part ends the file.
const MOST_LABEL: usize = 256;

const MOST_TABLE: usize = 65_535;

const MOST_NAMES: usize = 8192;

const MOST_DIALECT: usize = 16;

// As many requests as a field of the head can count.
const MOST_REQUESTS: usize = 65_536;

fn main(rt: HostRuntime) -> io::Result<()> {
    match File::open(&rt, "cases.bin") {
        Ok(mut input) => all(&rt, &mut input),
        Err(why) => fail(&rt, "cases.bin", why),
    }
}

// Runs all requests.
fn all(rt: &impl Print, input: &mut impl Read) -> io::Result<()> {
    let mut label = [0u8; MOST_LABEL];
    let mut table = [0u8; MOST_TABLE];
    let mut names = [0u8; MOST_NAMES];
    let mut dialect = [0u8; MOST_DIALECT];
    for _ in 0..MOST_REQUESTS {
        match next(input, &mut label, &mut table, &mut names, &mut dialect) {
            Some(case) => answers::say_case(rt, case)?,
            None => break,
        }
    }
    Ok(())
}

// The next request of the file, read into four buffers; none at the end. The head has fields of two bytes, and the
// node in four.
fn next<'a>(
    input: &mut impl Read,
    label: &'a mut [u8],
    table: &'a mut [u8],
    names: &'a mut [u8],
    dialect: &'a mut [u8],
) -> Option<Case<'a>> {
    let mut head = [0u8; 20];
    input.read_exact(&mut head).ok()?;
    Some(Case {
        job: Job::from(fields::half(&head, 0)),
        label: part(input, label, fields::half(&head, 2) as usize)?,
        table: part(input, table, fields::half(&head, 4) as usize)?,
        names: part(input, names, fields::half(&head, 6) as usize)?,
        dialect: part(input, dialect, fields::half(&head, 8) as usize)?,
        wanted: answers::wanted_of(fields::half(&head, 10)),
        room: fields::half(&head, 12) as usize,
        second: fields::half(&head, 14),
        node: fields::word(&head, 16) as usize,
    })
}

// The next `len` bytes of the file, read to the front of a buffer; none if the buffer is shorter or there are fewer.
fn part<'a>(input: &mut impl Read, space: &'a mut [u8], len: usize) -> Option<&'a [u8]> {
    let bytes = space.get_mut(..len)?;
    input.read_exact(bytes).ok()?;
    Some(bytes)
}

// Writes a line to standard error: what failed, a colon, and why in the system's words, without the number after them.
// Each program has its own: a public function of a library must promise something (tools/gate/promises.py), and no
// contract says what is printed.
fn fail(rt: &(impl Eprint + AllocGlobal), what: &str, why: io::Error) -> io::Result<()> {
    let text = format!(in rt.alloc(); "{why}")?;
    match text.split_once(" (os error ") {
        Some((words, _)) => eprintln!(rt; "{what}: {words}"),
        None => eprintln!(rt; "{what}: {text}"),
    }
}
