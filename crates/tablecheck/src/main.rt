// Checks the table file that its argument names, or standard input if there is none. It prints `nodes N`, a line
// `number file begin end` for each error and `errors N`; or, for a refused file, the one line `refused K`. It only
// reads and prints; the answer is that of the library, filepass.
#![tactic(auto)]

use errors::WIDTH;
use filepass::{ENOUGH_BYTES, ENOUGH_WORDS, Passed};
use std::env::{Env, FillError};
use std::fs::File;
use std::io::{self, Read};
use std::str;

// The length of the longest file name.
const MOST_NAME: usize = 4096;

// The system's numbers of the reasons why an argument names no file: it is too long, or not text.
const NAME_TOO_LONG: i32 = 36;

const NOT_TEXT: i32 = 84;

fn main(rt: HostRuntime) -> io::Result<()> {
    let mut path = [0u8; MOST_NAME];
    let k = match rt.arg(1, &mut path) {
        Ok(k) => k,
        Err(FillError::NotPresent) => return check(&rt, &mut rt.stdin(), "standard input"),
        Err(FillError::TooLong) => return no_name(&rt, NAME_TOO_LONG),
    };
    let Ok(name) = str::from_utf8(&path[..k]) else {
        return no_name(&rt, NOT_TEXT);
    };
    match File::open(&rt, name) {
        Ok(mut file) => check(&rt, &mut file, name),
        Err(why) => fail(&rt, name, why),
    }
}

// Reads the file, or as many bytes as decide the answer, and reports on it.
fn check(
    rt: &(impl Print + Eprint + AllocGlobal),
    input: &mut impl Read,
    name: &str,
) -> io::Result<()> {
    let mut file = [0u8; ENOUGH_BYTES];
    match fill(input, &mut file) {
        Ok(n) => report(rt, &file, n),
        Err(why) => fail(rt, name, why),
    }
}

// Reads until the buffer is full or the input ends, and returns the number of bytes. A failed read is not taken for
// the end.
// Each read gets all the room that is left: one with less room would lose the rest of a message, where the input keeps
// messages apart (`read_to_end` and `io::copy` read in smaller pieces).
fn fill(input: &mut impl Read, file: &mut [u8]) -> io::Result<usize> {
    let mut done = 0;
    while done < file.len() {
        match input.read(&mut file[done..])? {
            0 => break,
            more => done += more,
        }
    }
    Ok(done)
}

// Prints the answer for the first `len` bytes of an array, as filepass::check_read takes them (its clauses buffer_len
// and errors_len): a program with shorter arrays is not proved. The list has room for all errors.
// The line of a refusal has its number alone, even if it carries a node.
fn report(rt: &impl Print, file: &[u8; ENOUGH_BYTES], len: usize) -> io::Result<()> {
    let mut errors = [0u32; ENOUGH_WORDS];
    let passed = filepass::check_read(file, len, &mut errors);
    match passed {
        Ok(Passed { nodes, total }) => {
            println!(rt; "nodes {nodes}")?;
            say_errors(rt, &errors, total)?;
            println!(rt; "errors {total}")
        }
        Err(why) => println!(rt; "refused {}", table::number(why)),
    }
}

// Prints a line for each error, with its words.
fn say_errors(rt: &impl Print, errors: &[u32], total: u32) -> io::Result<()> {
    let (errors, _) = errors.as_chunks::<WIDTH>();
    for &[number, file, begin, end] in errors.iter().take(total as usize) {
        println!(rt; "{number} {file} {begin} {end}")?;
    }
    Ok(())
}

// Reports that the argument names no file, and why.
fn no_name(rt: &(impl Eprint + AllocGlobal), why: i32) -> io::Result<()> {
    fail(rt, "the file's name", io::Error::from_raw_os_error(why))
}

// Writes a line to standard error: what failed, a colon, and why in the system's words, without the number after them.
// Each program has its own: a public function of a library must promise something (tools/gate/promises.py), and no
// contract says what is printed.
fn fail(rt: &(impl Eprint + AllocGlobal), what: &str, why: io::Error) -> io::Result<()> {
    let text = format!(in rt.alloc(); "{why}")?;
    match text.split_once(" (os error ") {
        Some((words, _)) => eprintln!(rt; "{what}: {words}"),
        None => eprintln!(rt; "{what}: {text}"),
    }
}
