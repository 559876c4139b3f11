// One recorded request: it is read, its job is run on memory filled with a pattern, and all of that memory is compared
// with the record.
ghost use Rattle.std.specs.Prelude.{◌<◌};

use std::io::Read;

// The result of a request: the place where it is counted, and whether the answer is the recorded one.
#[derive(Clone, Copy)]
pub(crate) struct Replayed {
    pub(crate) place: usize,
    pub(crate) same: bool,
}

// The jobs, in the order of their numbers; `Other` is any larger number.
#[derive(Clone, Copy, PartialEq, Eq)]
enum Job {
    Table,
    Params,
    Call,
    Target,
    Assignment,
    Type,
    Module,
    Write,
    Bind,
    Rescue,
    Audit,
    Read,
    CheckFile,
    FstringWrite,
    FstringRead,
    Other,
}

impl From<u8> for Job {
    fn from(number: u8) -> Job {
        match number {
            0 => Job::Table,
            1 => Job::Params,
            2 => Job::Call,
            3 => Job::Target,
            4 => Job::Assignment,
            5 => Job::Type,
            6 => Job::Module,
            7 => Job::Write,
            8 => Job::Bind,
            9 => Job::Rescue,
            10 => Job::Audit,
            11 => Job::Read,
            12 => Job::CheckFile,
            13 => Job::FstringWrite,
            14 => Job::FstringRead,
            _ => Job::Other,
        }
    }
}

// The head of a request: the job, the lengths of its parts, the node, the number of the answer, the number of words,
// and whether the crate or the model alone gave the answer. `second` is the node of the Def for a binding, the length
// of the second buffer for a reader, and the edition for a type job, an audit or a writer.
#[derive(Clone, Copy)]
struct Asked {
    job: Job,
    dialect: u8,
    table: u16,
    names: u16,
    room: u16,
    node: u32,
    number: u32,
    words: u8,
    by_crate: bool,
    second: u16,
}

// The parts of a request after its head. A file is recorded in place of a table; the writer of format texts gets the
// words of its parts in place of names, four bytes each.
#[derive(Clone, Copy)]
struct Parts<'a> {
    table: &'a [u8],
    names: &'a [u8],
    dialect: &'a [u8],
    answer: &'a [u8],
}

// The largest number of bytes after the head of a request.
const MOST_BODY: usize = 4096;

// The lengths of the buffers of a job.
const MOST_BYTES: usize = 2560;

const MOST_WORDS: usize = 256;

// The value of each byte of the buffers before a job.
const FILL: u8 = 0xEE;

const FILL_WORD: u32 = 0xEEEE_EEEE;

fn head_of(head: &[u8]) -> Asked {
    Asked {
        job: Job::from(fields::byte(head, 0)),
        dialect: fields::byte(head, 1),
        table: fields::half(head, 2),
        names: fields::half(head, 4),
        room: fields::half(head, 6),
        node: fields::word(head, 8),
        number: fields::word(head, 12),
        words: fields::byte(head, 16),
        by_crate: fields::byte(head, 17) % 2 == 1,
        second: fields::half(head, 18),
    }
}

// The number of bytes of the recorded buffers.
fn buffer_len(job: Job, room: u16, second: u16) -> usize
    ensures { result < 327680 }
{
    let room = usize::from(room);
    let second = usize::from(second);
    match job {
        Job::Module | Job::Bind | Job::Audit | Job::CheckFile => 4 * room,
        Job::Read => room + second,
        Job::FstringRead => 4 * room + second,
        _ => room,
    }
}

// The number of bytes after the head.
fn size_of(a: Asked) -> usize {
    let parts = usize::from(a.table) + usize::from(a.names) + usize::from(a.dialect);
    parts + 4 * usize::from(a.words) + buffer_len(a.job, a.room, a.second)
}

// The next `len` bytes of the file, read to the front of a buffer; none if the buffer is shorter or there are fewer.
fn part<'a>(input: &mut impl Read, space: &'a mut [u8], len: usize) -> Option<&'a [u8]> {
    let bytes = space.get_mut(..len)?;
    input.read_exact(bytes).ok()?;
    Some(bytes)
}

// The first `len` bytes of a buffer, and the bytes after them; none if the buffer is shorter.
fn front(s: &[u8], len: usize) -> &[u8] {
    s.get(..len).unwrap_or(&[])
}

fn behind(s: &[u8], len: usize) -> &[u8] {
    s.get(len..).unwrap_or(&[])
}

// A recorded edition as a word; 65,535 is recorded for none.
fn edition_of(recorded: u16) -> u32 {
    if recorded == u16::MAX {
        return u32::MAX;
    }
    u32::from(recorded)
}

// Runs the job of a request, except the reader and the jobs with a buffer of words, and returns its number.
fn run(a: Asked, parts: Parts, buffer: &mut [u8], out: &mut [u32; 12]) -> u32 {
    let Parts {
        table,
        names,
        dialect,
        ..
    } = parts;
    let node = a.node as usize;
    let edition = edition_of(a.second);
    match a.job {
        Job::Table => starlark_checks::starlark_table(table, names, out),
        Job::Params => starlark_checks::starlark_params(table, names, node, buffer, out),
        Job::Call => starlark_checks::starlark_call(table, names, node, out),
        Job::Target => starlark_checks::starlark_target(table, names, node, out),
        Job::Assignment => starlark_checks::starlark_assignment(table, names, node, out),
        Job::Write => starlark_checks::starlark_write(table, names, dialect, edition, buffer, out),
        Job::Rescue => starlark_checks::starlark_rescue(table, buffer, out),
        _ => starlark_checks::starlark_type(table, names, dialect, edition, node, buffer, out),
    }
}

// A recorded word, or the fill word if none is recorded.
fn word_of(recorded: &[u8], len: usize, i: usize) -> u32 {
    if i < len {
        return fields::word(recorded, i.saturating_mul(4));
    }
    FILL_WORD
}

// Whether the first words are the recorded ones and the others are unchanged.
fn each_word(recorded: &[u8], len: usize, out: &[u32]) -> bool {
    out.iter()
        .enumerate()
        .all(|(i, &word)| word == word_of(recorded, len, i))
}

// Whether number and words are as recorded. The recorded answer begins with the words of `out`.
fn is_told(a: Asked, number: u32, answer: &[u8], out: &[u32; 12]) -> bool {
    number == a.number && each_word(answer, usize::from(a.words), out)
}

// The recorded buffers: the answer after the words of `out`.
fn buffers(a: Asked, parts: Parts) -> &[u8] {
    behind(parts.answer, 4 * usize::from(a.words))
}

// Whether number, words and buffer of a job are as recorded.
fn agrees(a: Asked, parts: Parts) -> bool {
    let mut space = [FILL; MOST_BYTES];
    let mut out = [FILL_WORD; 12];
    let Some(buffer) = space.get_mut(..usize::from(a.room)) else {
        return false;
    };
    let number = run(a, parts, buffer, &mut out);
    is_told(a, number, parts.answer, &out) && &*buffer == buffers(a, parts)
}

// Whether number, words and both buffers of the reader are as recorded.
fn read_agrees(a: Asked, parts: Parts) -> bool {
    let room = usize::from(a.room);
    let mut space = [FILL; MOST_BYTES];
    let mut more = [FILL; MOST_BYTES];
    let mut out = [FILL_WORD; 12];
    let Some(table) = space.get_mut(..room) else {
        return false;
    };
    let Some(names) = more.get_mut(..usize::from(a.second)) else {
        return false;
    };
    let number = starlark_checks::starlark_read(parts.table, table, names, &mut out);
    let read = buffers(a, parts);
    is_told(a, number, parts.answer, &out)
        && &*table == front(read, room)
        && &*names == behind(read, room)
}

// Runs the module pass, a binding, the audit or the check of a file, and returns its number.
fn run_listed(a: Asked, parts: Parts, list: &mut [u32], out: &mut [u32; 12]) -> u32 {
    let Parts {
        table,
        names,
        dialect,
        ..
    } = parts;
    match a.job {
        Job::Module => starlark_checks::starlark_module(table, names, dialect, list, out),
        Job::Bind => {
            let def = usize::from(a.second);
            starlark_checks::starlark_bind(table, names, a.node as usize, def, list, out)
        }
        Job::Audit => {
            let edition = edition_of(a.second);
            starlark_checks::starlark_audit(table, names, dialect, edition, list, out)
        }
        _ => starlark_checks::starlark_check_file(table, list, out),
    }
}

// Whether number, words and buffer of such a job, whose buffer consists of words, are as recorded.
fn list_agrees(a: Asked, parts: Parts) -> bool {
    let room = usize::from(a.room);
    let mut space = [FILL_WORD; MOST_WORDS];
    let mut out = [FILL_WORD; 12];
    let Some(list) = space.get_mut(..room) else {
        return false;
    };
    let number = run_listed(a, parts, list, &mut out);
    is_told(a, number, parts.answer, &out) && each_word(buffers(a, parts), room, &space)
}

// Whether number, words and buffer of the writer of format texts are as recorded. A request has at most twelve words.
fn format_agrees(a: Asked, parts: Parts) -> bool {
    let mut words = [0u32; 12];
    for (word, bytes) in words.iter_mut().zip(parts.names.chunks_exact(4)) {
        *word = fields::word(bytes, 0);
    }
    let Some(words) = words.get(..parts.names.len() / 4) else {
        return false;
    };
    let mut space = [FILL; MOST_BYTES];
    let mut out = [FILL_WORD; 12];
    let Some(text) = space.get_mut(..usize::from(a.room)) else {
        return false;
    };
    let number = starlark_checks::starlark_fstring_write(
        words,
        parts.table,
        parts.dialect,
        text,
        &mut out,
    );
    is_told(a, number, parts.answer, &out) && &*text == buffers(a, parts)
}

// Whether number, words and both buffers of the reader of format texts are as recorded.
fn parts_agree(a: Asked, parts: Parts) -> bool {
    let room = usize::from(a.room);
    let mut space = [FILL_WORD; MOST_WORDS];
    let mut more = [FILL; MOST_BYTES];
    let mut out = [FILL_WORD; 12];
    let Some(list) = space.get_mut(..room) else {
        return false;
    };
    let Some(texts) = more.get_mut(..usize::from(a.second)) else {
        return false;
    };
    let number = starlark_checks::starlark_fstring_read(parts.table, list, texts, &mut out);
    let read = buffers(a, parts);
    is_told(a, number, parts.answer, &out)
        && &*texts == behind(read, 4 * room)
        && each_word(read, room, &space)
}

// Whether the answer of a request is the recorded one, given the bytes after its head.
fn is_same(a: Asked, body: &[u8]) -> bool {
    let names = behind(body, usize::from(a.table));
    let dialect = behind(names, usize::from(a.names));
    let parts = Parts {
        table: front(body, usize::from(a.table)),
        names: front(names, usize::from(a.names)),
        dialect: front(dialect, usize::from(a.dialect)),
        answer: behind(dialect, usize::from(a.dialect)),
    };
    match a.job {
        Job::Module | Job::Bind | Job::Audit | Job::CheckFile => list_agrees(a, parts),
        Job::Read => read_agrees(a, parts),
        Job::FstringWrite => format_agrees(a, parts),
        Job::FstringRead => parts_agree(a, parts),
        _ => agrees(a, parts),
    }
}

// The place where a request is counted: two places for each job, the model's and the crate's.
fn place_of(a: Asked) -> usize {
    2 * usize::from(a.job as u8) + usize::from(a.by_crate)
}

// The next request of the file, or none at its end.
pub(crate) fn one(input: &mut impl Read) -> Option<Replayed> {
    let mut head = [0u8; 20];
    input.read_exact(&mut head).ok()?;
    let a = head_of(&head);
    let mut space = [0u8; MOST_BODY];
    let body = part(input, &mut space, size_of(a))?;
    Some(Replayed {
        place: place_of(a),
        same: is_same(a, body),
    })
}
