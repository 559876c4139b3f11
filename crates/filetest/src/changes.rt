// Reads a file with each of its bytes changed to eight other values, and cut at every length.
ghost use Rattle.std.specs.Prelude.{◌<◌, length};

use std::io;
use table::number;

// Tries the file of n bytes at the front of a buffer in all these ways. One that fills the buffer is not tried.
pub(crate) fn all(rt: &impl Print, space: &mut [u8], n: usize) -> io::Result<()> {
    if space.len() <= n {
        return Ok(());
    }
    once(rt, "whole", &space[..n])?;
    change_all(rt, &mut space[..n])?;
    cut_all(rt, &space[..n])?;
    once(rt, "a byte more", &space[..n + 1])
}

fn once(rt: &impl Print, what: &str, file: &[u8]) -> io::Result<()> {
    let mut counts = [0u32; 256];
    count(file, &mut counts);
    say_counts(rt, what, &counts)
}

// Changes every byte, from the last to the first.
fn change_all(rt: &impl Print, file: &mut [u8]) -> io::Result<()> {
    let mut counts = [0u32; 256];
    for at in (0..file.len()).rev() {
        change(file, at, &mut counts);
    }
    say_counts(rt, "a byte changed", &counts)
}

// Changes one byte to eight other values, each the byte and a power of two, and restores it.
fn change(file: &mut [u8], at: usize, counts: &mut [u32; 256])
    requires { at < length file.old }
{
    let byte = file[at];
    for step in [128u8, 64, 32, 16, 8, 4, 2, 1] {
        file[at] = byte.wrapping_add(step);
        count(file, counts);
    }
    file[at] = byte;
}

// Cuts the file at every shorter length.
fn cut_all(rt: &impl Print, file: &[u8]) -> io::Result<()> {
    let mut counts = [0u32; 256];
    for len in (0..file.len()).rev() {
        count(&file[..len], &mut counts);
    }
    say_counts(rt, "cut", &counts)
}

// Counts the answer for a file: 0 if it is accepted, else the number of the refusal.
fn count(file: &[u8], counts: &mut [u32; 256]) {
    let l = tablefile::read(file);
    let verdict = l.verdict;
    let answer = match verdict {
        Ok(()) => 0,
        Err(r) => number(r),
    };
    if let Some(times) = counts.get_mut(answer as usize) {
        *times = times.saturating_add(1);
    }
}

// Prints a line for each answer that was given, with how often.
fn say_counts(rt: &impl Print, what: &str, counts: &[u32; 256]) -> io::Result<()> {
    for (answer, &times) in counts.iter().enumerate() {
        say_count(rt, what, answer, times)?;
    }
    Ok(())
}

fn say_count(rt: &impl Print, what: &str, answer: usize, times: u32) -> io::Result<()> {
    match (times, answer) {
        (0, _) => Ok(()),
        (_, 0) => println!(rt; "{what}: {times} accepted"),
        _ => println!(rt; "{what}: {times} refused {answer}"),
    }
}
