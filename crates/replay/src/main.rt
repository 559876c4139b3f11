// Replays recorded requests through the C interface, and prints for each job how many answers are the recorded ones:
// those that the crate gave and, where the crate has no such job, those of the oracle's model. data/requests.bin was
// written by `oracle/compare --record`, on inputs on which all judges agreed; oracle/README.md describes its form.
#![tactic(auto)]

mod requests;

use requests::Replayed;
use std::fmt;
use std::fs::File;
use std::io::{self, Read};

// The names of the jobs, in the order of their numbers.
const NAMES: [&str; 15] = [
    "table",
    "params",
    "call",
    "target",
    "assignment",
    "type",
    "module",
    "write",
    "bind",
    "rescue",
    "audit",
    "read",
    "check_file",
    "fstring_write",
    "fstring_read",
];

// The number of places where answers are counted: two for each job, the model's and the crate's.
const PLACES: usize = 30;

// The answers of one judge to one job: how many are the recorded ones, how many are not, and the number of the first
// request whose answer is not, counted from 1.
#[derive(Clone, Copy)]
struct Tally {
    agree: u64,
    differ: u64,
    first: Option<u64>,
}

impl Tally {
    fn agrees(&mut self) {
        self.agree = self.agree.saturating_add(1);
    }

    fn differs(&mut self, number: u64) {
        self.differ = self.differ.saturating_add(1);
        self.first = self.first.or(Some(number));
    }
}

impl fmt::Display for Tally {
    fn fmt<W: fmt::Write>(&self, f: &mut fmt::Formatter<W>) -> fmt::Result {
        let agree = self.agree;
        let differ = self.differ;
        write!(f, "{agree} agree, {differ} differ")?;
        match self.first {
            Some(number) => write!(f, ", first request {number}"),
            None => Ok(()),
        }
    }
}

fn main(rt: HostRuntime) -> io::Result<()> {
    match File::open(&rt, "requests.bin") {
        Ok(mut input) => say_tallies(&rt, &all(&mut input)),
        Err(why) => fail(&rt, "requests.bin", why),
    }
}

// Counts all requests, at most 65,536. A request of no job has no place.
fn all(input: &mut impl Read) -> [Tally; PLACES] {
    let mut tallies = [Tally {
        agree: 0,
        differ: 0,
        first: None,
    }; PLACES];
    for number in 1..65_537u64 {
        let Some(Replayed { place, same }) = requests::one(input) else {
            break;
        };
        if let Some(tally) = tallies.get_mut(place) {
            if same {
                tally.agrees();
            } else {
                tally.differs(number);
            }
        }
    }
    tallies
}

// Prints a line for each job. The model's answers are at an even place, the crate's at the next.
fn say_tallies(rt: &impl Print, tallies: &[Tally]) -> io::Result<()> {
    let (judged, _) = tallies.as_chunks::<2>();
    for (name, [model, of_crate]) in NAMES.iter().zip(judged) {
        println!(rt; "{name}: by the crate {of_crate}; by the model {model}")?;
    }
    Ok(())
}

// Writes a line to standard error: what failed, a colon, and why in the system's words, without the number after them.
// Each program has its own: a public function of a library must promise something (tools/gate/promises.py), and no
// contract says what is printed.
fn fail(rt: &(impl Eprint + AllocGlobal), what: &str, why: io::Error) -> io::Result<()> {
    let text = format!(in rt.alloc(); "{why}")?;
    match text.split_once(" (os error ") {
        Some((words, _)) => eprintln!(rt; "{what}: {words}"),
        None => eprintln!(rt; "{what}: {text}"),
    }
}
