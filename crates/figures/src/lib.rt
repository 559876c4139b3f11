// Figures over table files, one after another: what they hold and how the jobs judge it, in 32 counters of 64 bits
// (docs/FORMAT.md, Figures). A step adds the file at the front of a window; a report is the steps over a whole input.
#![tactic(auto)]

mod nodes;
mod sums;
mod told;

ghost use Rattle.std.specs.Prelude.{◌≡◌, []};
ghost use Rattle.table.specs.Answer.{accepted, checked};
ghost use Rattle.table.specs.Check.{check_of, rules_check};
ghost use Rattle.tablefile.specs.Reading.{header_at, content_at};
ghost use Rattle.figures.specs.Counting.{figures_of, table_figures};
ghost use Rattle.figures.specs.Adding.{added};
ghost use Rattle.figures.specs.Walking.{files_of, figures_in};
ghost use Rattle.figures.specs.Reporting.{window_check, told as told_of, counted, step_of, figures_after, report_of};

use dialect::{Dialect, Edition};
use forest::RECORD;
use table::{MOST_BYTES, MOST_NAMES, Refusal, numbers};

// The number of counters of a report. Their order: files; nodes; parameter lists; flat parameters of the modes 1 to 5
// in accepted lists; calls accepted; calls refused; errors of the module pass by number, 10 to 19, then 50 to 61.
pub const FIGURES: usize = 32;

// The places of the counters: MODES is that of mode 1, and ERRORS that of error 10.
pub const FILES: usize = 0;

pub const NODES: usize = 1;

pub const LISTS: usize = 2;

pub const MODES: usize = 3;

pub const CALLS_ACCEPTED: usize = 8;

pub const CALLS_REFUSED: usize = 9;

pub const ERRORS: usize = 10;

// The largest number of files in a report.
pub const MOST_FILES: u64 = 4294967295;

// The end of a report: the end of the input, or a refused file, with its number and the position of its first byte.
#[derive(Clone, Copy)]
pub enum Ending {
    Whole,
    Refused { number: u32, at: usize },
}

// A report: the counters, without those of a refused file, and how it ends.
#[derive(Clone, Copy)]
pub struct Reported {
    pub figures: [u64; FIGURES],
    pub ending: Ending,
}

// Reports on an input, file by file, up to its end or to a refused file.
pub fn report(input: &[u8]) -> Reported
    ensures { result ≡ report_of input.now }
{
    let mut figures = [0u64; FIGURES];
    let mut at = 0;
    // Each file says its own length, so that a `for` over pieces of one length does not go over them.
    while at < input.len() {
        let stepped = step(&input[at..], &mut figures);
        match stepped {
            Ok(n) => {
                at += n;
            }
            Err(number) => {
                return Reported {
                    figures: figures,
                    ending: Ending::Refused {
                        number: number,
                        at: at,
                    },
                };
            }
        }
    }
    Reported {
        figures: figures,
        ending: Ending::Whole,
    }
}

// One step: adds the file at the front of a window, and returns the number of bytes that it takes; 0 if the window is
// empty. Refuses with 76, then 70 to 74, then 1 to 5, and a refusal changes no counter. Sums are limited to 64 bits.
pub fn step(window: &[u8], figures: &mut [u64; FIGURES]) -> Result<usize, u32>
    ensures value { result ≡ step_of window.now figures.old }
    ensures figures_after { figures.new ≡ figures_after window.now figures.old }
{
    if window.len() == 0 {
        return Ok(0);
    }
    if MOST_FILES <= figures[FILES] {
        return Err(numbers::TOO_MANY_FILES);
    }
    add_front(window, figures)
}

// Checks the file at the front of a window, 70 to 74 and 1 to 5, then adds its figures. Only the bytes of that file are
// read, so no byte is left over.
fn add_front(window: &[u8], figures: &mut [u64; FIGURES]) -> Result<usize, u32>
    ensures value { result ≡ told_of (window_check window.now) (header_at window.now).taken }
    ensures figures_after { figures.new ≡
        counted (window_check window.now) figures.old
        (figures_of (content_at window.now)) }
{
    let mut table = [0u8; MOST_BYTES];
    let mut names = [0u8; MOST_NAMES];
    let h = tablefile::header(window);
    let file = filepass::front(window, h.taken);
    let unpacked = tablefile::unpack(file, &mut table, &mut names);
    if let Err(why) = unpacked {
        return Err(table::number(why));
    }
    let bytes = tablefile::dialect_bytes(file);
    let edition = dialect::edition_held(bytes, tablefile::stated_edition(file));
    let judged = add_table(
        filepass::front(&table, RECORD * h.nodes),
        filepass::front(&names, h.names),
        bytes,
        edition,
        figures,
    );
    answer(judged, h.taken)
}

// The answer of a step for a file of `taken` bytes.
fn answer(judged: Result<(), Refusal>, taken: usize) -> Result<usize, u32>
    ensures { result ≡ told_of (checked judged) taken }
{
    match judged {
        Ok(()) => Ok(taken),
        Err(why) => Err(table::number(why)),
    }
}

// Checks 1 to 5 on the content of a file, then adds its figures.
fn add_table(
    table: &[u8],
    names: &[u8],
    bytes: &[u8],
    edition: Option<Edition>,
    figures: &mut [u64; FIGURES],
) -> Result<(), Refusal>
    ensures result_value { checked result ≡
        rules_check table.now names.now bytes.now edition }
    ensures figures_after { figures.new ≡
        counted (rules_check table.now names.now bytes.now edition)
        figures.old (table_figures table.now names.now bytes.now) }
{
    let entered = table::enter_rules(table, names, bytes, edition);
    sums::add(figures, FILES, files(entered));
    let (d, _) = entered?;
    add_all(table, names, d, figures);
    Ok(())
}

// The number of files that are counted: 1 if 1 to 5 are passed, else 0.
fn files(entered: Result<(Dialect, Edition), Refusal>) -> u64
    ensures { result ≡ files_of entered }
{
    match entered {
        Ok(_) => 1,
        Err(_) => 0,
    }
}

// Adds the figures of a table that passes 1 to 5, without the file itself: its nodes, what is counted node by node, the
// errors.
fn add_all(table: &[u8], names: &[u8], d: Dialect, figures: &mut [u64; FIGURES])
    requires { check_of table.now names.now ≡ accepted [] }
    ensures { figures.new ≡
        added figures.old (figures_in d table.now names.now) }
{
    let count = table.len() / RECORD;
    sums::add(figures, NODES, count as u64);
    nodes::add_nodes(table, names, count, figures);
    told::add_errors(table, names, d, figures);
}
