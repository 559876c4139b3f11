// Runs the jobs over a file, each with buffers in which every byte or word is 9. Prints the number of its answer, 0
// if it accepts, and whether every byte or word is still 9: no refusal may change a buffer.
use filepass::Passed;
use std::io;
use table::{MOST_BYTES, MOST_NAMES, Refusal, number};

pub(crate) fn say_jobs(rt: &impl Print, file: &[u8]) -> io::Result<()> {
    say_unpack(rt, file)?;
    say_read_into(rt, file)?;
    say_check_file(rt, file)
}

fn say_unpack(rt: &impl Print, file: &[u8]) -> io::Result<()> {
    let mut table = [9u8; MOST_BYTES];
    let mut names = [9u8; MOST_NAMES];
    let answer = of_verdict(tablefile::unpack(file, &mut table, &mut names));
    let same = all_are(&table, 9) && all_are(&names, 9);
    print!(rt; "; unpack {answer} {}", kept(same))
}

fn say_read_into(rt: &impl Print, file: &[u8]) -> io::Result<()> {
    let mut table = [9u8; MOST_BYTES];
    let mut names = [9u8; MOST_NAMES];
    let answer = of_verdict(tablefile::read_into(file, &mut table, &mut names));
    let same = all_are(&table, 9) && all_are(&names, 9);
    print!(rt; ", read_into {answer} {}", kept(same))
}

fn say_check_file(rt: &impl Print, file: &[u8]) -> io::Result<()> {
    let mut words = [9u32; filepass::ENOUGH_WORDS];
    let answer = of_passed(filepass::check_file(file, &mut words));
    let same = all_are(&words, 9);
    print!(rt; ", check_file {answer} {}", kept(same))
}

fn of_verdict(answer: Result<(), Refusal>) -> u32 {
    match answer {
        Ok(()) => 0,
        Err(why) => number(why),
    }
}

fn of_passed(answer: Result<Passed, Refusal>) -> u32 {
    match answer {
        Ok(_) => 0,
        Err(why) => number(why),
    }
}

// Whether every item is the given one.
fn all_are<T: Copy + PartialEq>(items: &[T], given: T) -> bool {
    items.iter().all(|&item| item == given)
}

fn kept(same: bool) -> &'static str {
    if same { "kept" } else { "changed" }
}
