// The writer of table files (docs/FORMAT.md, a table file): writes a table, its names, a dialect or none and an edition
// or none as blocks into a buffer.
#![tactic(auto)]

ghost use Rattle.std.specs.Prelude.{◌≡◌, true, ◌+◌, ◌*◌, ◌<◌, ◌≤◌, length};
ghost use Rattle.fields.specs.Over.{over};
ghost use Rattle.dialect.specs.Editions.{stated_bytes};
ghost use Rattle.table.specs.Answer.{is_refused};
ghost use Rattle.blocks.specs.Block.{block_bytes, content_bytes, weighed, block_of};
ghost use Rattle.blocks.specs.Run.{blocks_for, run_of};
ghost use Rattle.tablefile.specs.File.{header_of, file_of, most_blocks};
ghost use Rattle.writer.specs.Writing.{holding, bytes_for, room_check, write_of, file_after, fits_in, laid_over};
ghost use Rattle.writer.specs.Writing.{is_byte, written};

use blocks::{BLOCK_BYTES, CONTENT_BYTES, bytes};
use forest::RECORD;
use table::{MOST_BYTES, MOST_NAMES, Refusal, numbers};

// Writes the file of a table, its names, nine dialect bytes or none, and the number of an edition or nothing. Refuses
// with 1 to 5, then with 7 if the buffer is shorter than the file. An edition without a dialect is 5. A refusal changes
// no byte, and bytes past the file stay.
pub fn write(
    table: &[u8],
    names: &[u8],
    dialect: &[u8],
    edition: Option<u32>,
    file: &mut [u8],
) -> Result<u32, Refusal>
    ensures result_value { written result ≡
        write_of (holding table.now names.now dialect.now edition)
        (length file.old) }
    ensures file_after { file.new ≡
        file_after (holding table.now names.now dialect.now edition)
        file.old }
{
    let judged = judge(table, names, dialect, edition, file.len());
    if is_refused(judged) {
        return judged;
    }
    write_file(table, names, dialect, edition, file);
    judged
}

// Writes the file of a table, names, dialect bytes and an edition that have passed 1 to 5: they are not checked again.
// If they are longer than in any file, or the buffer is shorter than the file, no byte changes.
pub fn write_unchecked(
    table: &[u8],
    names: &[u8],
    dialect: &[u8],
    edition: Option<u32>,
    file: &mut [u8],
)
    ensures { file.new ≡
        laid_over (holding table.now names.now dialect.now edition)
        file.old }
{
    if !fits(table.len(), names.len(), dialect.len(), edition, file.len()) {
        return;
    }
    write_file(table, names, dialect, edition, file)
}

// Whether a table, names and dialect bytes of these lengths, and an edition, make a file, and it fits in `room` bytes.
fn fits(table: usize, names: usize, dialect: usize, edition: Option<u32>, room: usize) -> bool
    ensures { result ≡ fits_in table names dialect edition room }
{
    if MOST_BYTES < table {
        return false;
    }
    if MOST_NAMES < names {
        return false;
    }
    if 9 < dialect {
        return false;
    }
    if !is_byte(edition) {
        return false;
    }
    let count = 1 + blocks::blocks_for(names) + blocks::blocks_for(table);
    BLOCK_BYTES * count <= room
}

// Whether an edition takes no byte or one.
fn is_byte(edition: Option<u32>) -> bool
    ensures { result ≡ is_byte edition }
{
    match edition {
        Some(number) => number < 256,
        None => true,
    }
}

// Judges what is to be written: 1 to 5, then 7 for a buffer of `room` bytes.
fn judge(
    table: &[u8],
    names: &[u8],
    dialect: &[u8],
    edition: Option<u32>,
    room: usize,
) -> Result<u32, Refusal>
    ensures { written result ≡
        write_of (holding table.now names.now dialect.now edition) room }
{
    let read = dialect::edition_held(dialect, edition);
    table::enter_rules(table, names, dialect, read)?;
    room_for(table.len(), names.len(), room)
}

// The length of the file, given the lengths of table and names, or 7 if the buffer is shorter.
fn room_for(table: usize, names: usize, room: usize) -> Result<u32, Refusal>
    requires { 1 + blocks_for names + blocks_for table ≤ most_blocks }
    ensures { written result ≡ room_check (bytes_for table names) room }
{
    let first = 1 + blocks::blocks_for(names);
    let size = BLOCK_BYTES * (first + blocks::blocks_for(table));
    if room < size {
        return Err(Refusal::Bare(numbers::SHORT_BUFFER));
    }
    Ok(size as u32)
}

// Whether an answer is a refusal.
fn is_refused(answer: Result<u32, Refusal>) -> bool
    ensures { result ≡ is_refused (written answer) }
{
    match answer {
        Ok(_) => false,
        Err(_) => true,
    }
}

// Writes the file at the front of a buffer: block 0, the blocks of the names, then those of the nodes.
fn write_file(table: &[u8], names: &[u8], dialect: &[u8], edition: Option<u32>, file: &mut [u8])
    requires { (length dialect.now ≤ 9)
        × (is_byte edition ≡ true)
        × (1 + blocks_for (length names.now) + blocks_for (length table.now) ≤ most_blocks)
        × (bytes_for (length table.now) (length names.now) ≤ length file.old) }
    ensures { file.new
        ≡ over 0 (file_of (holding table.now names.now dialect.now edition))
        file.old }
{
    write_header(table, names, dialect, edition, file);
    write_run(1, names, &mut file[BLOCK_BYTES..]);
    let first = 1 + blocks::blocks_for(names.len());
    let at = BLOCK_BYTES * first;
    write_run(first, table, &mut file[at..])
}

// Writes block 0 at the front of some bytes: the node count, the name byte count, and the dialect and the edition if
// there are any.
fn write_header(table: &[u8], names: &[u8], dialect: &[u8], edition: Option<u32>, out: &mut [u8])
    requires { (length dialect.now ≤ 9) × (is_byte edition ≡ true) × (block_bytes ≤ length out.old) }
    ensures { out.new
        ≡ over 0
        (block_of 0 (header_of (holding table.now names.now dialect.now edition)))
        out.old }
{
    let mut header = [0u8; 14];
    let counts = bytes::pair(table.len() / RECORD, names.len());
    bytes::put(&counts, 0, &mut header);
    bytes::put(dialect, 4, &mut header);
    let used = put_edition(edition, 4 + dialect.len(), &mut header);
    write_block(0, &header[0..used], out)
}

// Writes an edition, if there is one, at a place of block 0's content, and returns the place after it.
fn put_edition(edition: Option<u32>, at: usize, out: &mut [u8]) -> usize
    requires { (is_byte edition ≡ true) × (at < length out.old) }
    ensures out_after { out.new ≡ over at (stated_bytes edition) out.old }
    ensures value { result ≡ at + length (stated_bytes edition) }
{
    match edition {
        Some(number) => {
            out[at] = number as u8;
            at + 1
        }
        None => at,
    }
}

// Writes the blocks of a content at the front of a buffer, with numbers that increase by one. Each block is written
// to the part of the buffer from its place on.
fn write_run(first: usize, content: &[u8], out: &mut [u8])
    requires { (block_bytes * blocks_for (length content.now) ≤ length out.old) × (first ≤ most_blocks) }
    ensures { out.new ≡ over 0 (run_of first content.now) out.old }
{
    for (done, piece) in content.chunks(CONTENT_BYTES).enumerate() {
        let at = BLOCK_BYTES * done;
        write_block(first + done, piece, &mut out[at..]);
    }
}

// Writes a block at the front of a buffer. It is made from 512 zero bytes: the number, the used bytes and the content
// are copied and weighed, then the sum is added.
fn write_block(number: usize, content: &[u8], out: &mut [u8])
    requires { (length content.now ≤ content_bytes) × (block_bytes ≤ length out.old) }
    ensures { out.new ≡ over 0 (block_of number content.now) out.old }
{
    out[0..BLOCK_BYTES].fill(0);
    let head = bytes::pair(number, content.len());
    let begun = lay(&head, 0, 0, out);
    let sum = lay(content, 4, begun, out);
    let check = bytes::quad(sum);
    bytes::put(&check, 508, out)
}

// Copies bytes into a block from a place on, and adds their weights to the sum of the places before.
fn lay(bytes: &[u8], at: usize, before: u32, out: &mut [u8]) -> u32
    requires { (at + length bytes.now ≤ 508) × (508 ≤ length out.old) × (before ≡ weighed at out.old) }
    ensures out_after { out.new ≡ over at bytes.now out.old }
    ensures value { result ≡ weighed (at + length bytes.now) out.new }
{
    let mut sum = before;
    for (i, x) in bytes.iter().enumerate() {
        let p = at + i;
        out[p] = *x;
        sum += blocks::weight(p as u16, *x);
    }
    sum
}
