// Reads the files of data/files.bin, each after its label. files.txt describes them in words, and tools/tables.py makes
// them.
use crate::lent;
use blocks::BLOCK_BYTES;
use forest::RECORD;
use std::io::{self, Read};
use table::Refusal;
use tablefile::{Loaded, MOST_BLOCKS};

// The length of the largest file.
const MOST_FILE: usize = BLOCK_BYTES * MOST_BLOCKS;

// The largest length of a file that its head can give: the head has two bytes for it.
const MOST_GIVEN: usize = 65_535;

// The length of the longest label. A longer one ends the list.
const MOST_LABEL: usize = 256;

// No more files of the list are tried.
const MOST_FILES: usize = 65_536;

// A file of the list, after its label.
#[derive(Clone, Copy)]
struct Labelled<'a> {
    label: &'a [u8],
    bytes: &'a [u8],
}

// Tries all files.
pub(crate) fn all(rt: &impl Print, input: &mut impl Read) -> io::Result<()> {
    let mut label = [0u8; MOST_LABEL];
    let mut bytes = [0u8; MOST_GIVEN];
    for _ in 0..MOST_FILES {
        match next(input, &mut label, &mut bytes) {
            Some(file) => one(rt, file)?,
            None => break,
        }
    }
    Ok(())
}

// The next file of the list, or none at its end.
fn next<'a>(
    input: &mut impl Read,
    label: &'a mut [u8],
    bytes: &'a mut [u8],
) -> Option<Labelled<'a>> {
    let mut head = [0u8; 4];
    input.read_exact(&mut head).ok()?;
    let label = part(input, label, fields::half(&head, 0) as usize)?;
    let bytes = part(input, bytes, fields::half(&head, 2) as usize)?;
    Some(Labelled { label, bytes })
}

// The next `len` bytes of the input, read to the front of a buffer; none if the buffer is shorter or there are fewer.
fn part<'a>(input: &mut impl Read, space: &'a mut [u8], len: usize) -> Option<&'a [u8]> {
    let bytes = space.get_mut(..len)?;
    input.read_exact(bytes).ok()?;
    Some(bytes)
}

// Tries one file and prints its label. A label that begins with # is a heading.
fn one(rt: &impl Print, file: Labelled) -> io::Result<()> {
    rt.write_all(file.label)?;
    if !file.label.starts_with(b"#") {
        let l = tablefile::read(file.bytes);
        say_answer(rt, l)?;
        say_again(rt, l, file.bytes)?;
        lent::say_jobs(rt, file.bytes)?;
    }
    println!(rt)
}

// Prints the verdict, the lengths of the content, and whether the bytes past it are zero.
fn say_answer(rt: &impl Print, l: Loaded) -> io::Result<()> {
    let verdict = l.verdict;
    match verdict {
        Ok(()) => say_held(rt, l)?,
        Err(r) => say_refused(rt, r)?,
    }
    let table = l.table;
    let names = l.names;
    let dialect = l.dialect;
    say_rest(rt, &table, l.table_len)?;
    say_rest(rt, &names, l.names_len)?;
    say_rest(rt, &dialect, l.dialect_len)
}

fn say_held(rt: &impl Print, l: Loaded) -> io::Result<()> {
    let nodes = l.table_len / RECORD;
    let names_len = l.names_len;
    let dialect_len = l.dialect_len;
    print!(rt; "accepted, nodes {nodes}, name bytes {names_len}, dialect bytes {dialect_len}")?;
    let edition = l.edition;
    say_edition(rt, edition)?;
    print!(rt; ", taken {}", l.taken)
}

// Prints the edition byte, if there is one.
fn say_edition(rt: &impl Print, edition: Option<u32>) -> io::Result<()> {
    match edition {
        Some(n) => print!(rt; ", edition {n}"),
        None => Ok(()),
    }
}

fn say_refused(rt: &impl Print, r: Refusal) -> io::Result<()> {
    print!(rt; "refused {}", table::number(r))?;
    let node = table::node_of(r);
    if let Some(i) = node {
        print!(rt; " at {i}")?;
    }
    Ok(())
}

// Prints whether the writer makes the same file again from the content of an accepted file.
fn say_again(rt: &impl Print, l: Loaded, file: &[u8]) -> io::Result<()> {
    let verdict = l.verdict;
    match verdict {
        Ok(()) => say_written(rt, l, file),
        Err(_) => Ok(()),
    }
}

fn say_written(rt: &impl Print, l: Loaded, file: &[u8]) -> io::Result<()> {
    let table = l.table;
    let names = l.names;
    let dialect = l.dialect;
    let edition = l.edition;
    let mut again = [0u8; MOST_FILE];
    let written = writer::write(
        front(&table, l.table_len),
        front(&names, l.names_len),
        front(&dialect, l.dialect_len),
        edition,
        &mut again,
    );
    match written {
        Ok(size) => say_same(rt, file, front(&again, size as usize)),
        Err(why) => print!(rt; ", NOT WRITTEN AGAIN"),
    }
}

fn say_same(rt: &impl Print, file: &[u8], again: &[u8]) -> io::Result<()> {
    if file == again {
        print!(rt; ", written again")
    } else {
        print!(rt; ", WRITTEN OTHERWISE")
    }
}

// The first `len` bytes, or all if there are fewer.
fn front(s: &[u8], len: usize) -> &[u8] {
    s.get(..len).unwrap_or(s)
}

// Prints a note unless all bytes from a place on are zero.
fn say_rest(rt: &impl Print, bytes: &[u8], from: usize) -> io::Result<()> {
    if bytes.iter().skip(from).any(|&byte| byte != 0) {
        return print!(rt; ", NOT ZERO BEHIND THAT");
    }
    Ok(())
}
