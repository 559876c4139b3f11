// The module job on a table file: the file is judged and its content copied, and the job runs on the content, with the
// errors in the caller's list. The job reads no types, so the file's edition has no effect, unless it is bad.
#![tactic(auto)]

ghost use Rattle.std.specs.Prelude.{◌≡◌, [], ◌*◌, ◌≤◌, length, take};
ghost use Rattle.forest.specs.Forest.{record_bytes};
ghost use Rattle.table.specs.Numbers.{bad_dialect};
ghost use Rattle.table.specs.Answer.{accepted, refused, and_then, refusal};
ghost use Rattle.table.specs.Check.{check_of};
ghost use Rattle.validate.specs.Job.{listed};
ghost use Rattle.tablefile.specs.Reading.{header_at};
ghost use Rattle.tablefile.specs.Lending.{file_check, Holds};
ghost use Rattle.filepass.specs.Sizes.{enough_bytes, enough_words, few_nodes, few_names};
ghost use Rattle.filepass.specs.Passing.{passed, behind, answer_of, words_after};

use blocks::BLOCK_BYTES;
use errors::WIDTH;
use forest::RECORD;
use table::{MOST_BYTES, MOST_NAMES, MOST_NODES, Refusal, numbers};
use tablefile::MOST_BLOCKS;

// The number of bytes of a file that decide its answer: the 117 blocks of the largest file, and one byte.
pub const ENOUGH_BYTES: usize = BLOCK_BYTES * MOST_BLOCKS + 1;

// The number of words for the errors of any file: WIDTH for each, and at most two errors for each of 2,100 nodes.
pub const ENOUGH_WORDS: usize = WIDTH * (2 * MOST_NODES);

// The nodes and name bytes of a file that is read into small arrays: 12 blocks of nodes and two of names. Most scripts
// have no more, and the arrays for the largest file would take 58 KB of zeros for each of them.
const FEW_NODES: usize = 252;

const FEW_NAMES: usize = 1008;

const FEW_BYTES: usize = RECORD * FEW_NODES;

// The answer for a file: its number of nodes and of errors, or why it is refused.
#[derive(Clone, Copy)]
pub struct Passed {
    pub nodes: u32,
    pub total: u32,
}

// Checks a file. A list too short for all errors gets the first that fit whole; a refused file changes no word.
pub fn check_file(file: &[u8], errors: &mut [u32]) -> Result<Passed, Refusal>
    ensures result_value { passed result ≡ answer_of file.now }
    ensures errors_after { errors.new ≡ words_after file.now errors.old }
{
    let judged = tablefile::judge_file(file);
    // no `?`: the wrong answer refused_told_as_clean is about what is returned
    if let Err(why) = judged {
        return Err(why);
    }
    let h = tablefile::header(file);
    if (h.nodes <= FEW_NODES) & (h.names <= FEW_NAMES) {
        return check_few(file, errors);
    }
    check_many(file, errors)
}

// The same for the first n bytes of a buffer, with a buffer and a list that are large enough for every file.
pub fn check_read(
    buffer: &[u8; ENOUGH_BYTES],
    len: usize,
    errors: &mut [u32; ENOUGH_WORDS],
) -> Result<Passed, Refusal>
    ensures result_value { passed result ≡ answer_of (take len buffer.now) }
    ensures errors_after { errors.new ≡ words_after (take len buffer.now) errors.old }
    ensures buffer_len { length buffer.now ≡ enough_bytes }
    ensures errors_len { length errors.old ≡ enough_words }
{
    check_file(front(buffer, len), errors)
}

// The answer for a file of few nodes and name bytes that passes 70 to 75: its content is read into small arrays.
fn check_few(file: &[u8], errors: &mut [u32]) -> Result<Passed, Refusal>
    requires { (file_check file.now ≡ accepted [])
        × ((header_at file.now).nodes ≤ few_nodes) × ((header_at file.now).names ≤ few_names) }
    ensures result_value { passed result ≡ answer_of file.now }
    ensures errors_after { errors.new ≡ words_after file.now errors.old }
{
    let mut table = [0u8; FEW_BYTES];
    let mut names = [0u8; FEW_NAMES];
    fill(file, &mut table, &mut names);
    check_held(file, &table, &names, errors)
}

// The same for any number of nodes and name bytes: the arrays have room for every file.
fn check_many(file: &[u8], errors: &mut [u32]) -> Result<Passed, Refusal>
    requires { file_check file.now ≡ accepted [] }
    ensures result_value { passed result ≡ answer_of file.now }
    ensures errors_after { errors.new ≡ words_after file.now errors.old }
{
    let mut table = [0u8; MOST_BYTES];
    let mut names = [0u8; MOST_NAMES];
    fill(file, &mut table, &mut names);
    check_held(file, &table, &names, errors)
}

// Copies table and names of a file that passes 70 to 75 to the fronts of two arrays that have room for them.
fn fill(file: &[u8], table: &mut [u8], names: &mut [u8])
    requires { (file_check file.now ≡ accepted [])
        × (record_bytes * (header_at file.now).nodes ≤ length table.old)
        × ((header_at file.now).names ≤ length names.old) }
    ensures { Holds file.now table.new names.new }
{
    let h = tablefile::header(file);
    tablefile::copy_content(file, h.first, RECORD * h.nodes, table);
    tablefile::copy_content(file, 1, h.names, names);
}

// The answer for a file whose content is at the front of two arrays: the job runs on it, unless the edition is bad.
fn check_held(
    file: &[u8],
    table: &[u8],
    names: &[u8],
    errors: &mut [u32],
) -> Result<Passed, Refusal>
    requires { Holds file.now table.now names.now }
    ensures result_value { passed result ≡ answer_of file.now }
    ensures errors_after { errors.new ≡ words_after file.now errors.old }
{
    let h = tablefile::header(file);
    let t = front(table, RECORD * h.nodes);
    let n = front(names, h.names);
    let bytes = tablefile::dialect_bytes(file);
    let edition = dialect::edition_held(bytes, tablefile::stated_edition(file));
    if let None = edition {
        return Err(edition_refused(t, n));
    }
    let found = validate::module(t, n, bytes, errors);
    told(h.nodes as u32, found)
}

// The refusal of a file with a bad edition: 1 to 4, else 5.
fn edition_refused(table: &[u8], names: &[u8]) -> Refusal
    ensures { refusal result ≡
        and_then (check_of table.now names.now) (λ _. refused bad_dialect []) }
{
    let found = table::check(table, names);
    match found {
        Ok(()) => Refusal::Bare(numbers::BAD_DIALECT),
        Err(why) => why,
    }
}

// The answer for a file: its number of nodes, and the answer of the module job.
fn told(nodes: u32, found: Result<u32, Refusal>) -> Result<Passed, Refusal>
    ensures { passed result ≡ behind nodes (listed found) }
{
    // no `?`: the wrong answer unsound_told_as_clean is about the second arm
    match found {
        Ok(total) => Ok(Passed { nodes, total }),
        Err(why) => Err(why),
    }
}

// The first n bytes, or all if there are fewer.
pub fn front(bytes: &[u8], len: usize) -> &[u8]
    ensures { result.now ≡ take len bytes.now }
{
    if bytes.len() <= len {
        return bytes;
    }
    &bytes[0..len]
}
