// The rescue of a damaged table file. If the blocks that the header describes pass, it keeps them all, else the largest
// number of the root's first children that lie in good blocks, with names, dialect and edition whole.
#![tactic(auto)]

ghost use Rattle.std.specs.Prelude.{◌≡◌, ◌&&◌, [], ◌∷◌, ◌*◌, ◌-◌, ◌/◌, ◌≤◌, ◌<◌, leb, length};
ghost use Rattle.fields.specs.Over.{over};
ghost use Rattle.forest.specs.Forest.{record_bytes, forest, roots};
ghost use Rattle.table.specs.Answer.{passes};
ghost use Rattle.table.specs.Check.{most_bytes, most_nodes, check_of};
ghost use Rattle.tablefile.specs.File.{file_of};
ghost use Rattle.tablefile.specs.Reading.{header_at};
ghost use Rattle.writer.specs.Writing.{bytes_for};
ghost use Rattle.rescue.specs.Good.{head_good};
ghost use Rattle.rescue.specs.Cut.{resized, largest_cut};
ghost use Rattle.rescue.specs.Job.{kept, statements_of, rescue_of, file_after, told, rescued};
ghost use Rattle.rescue.specs.Steps.{keepable, keepable_at, leading_bytes, kept_if, Front, Records};
ghost use Rattle.rescue.specs.Steps.{good_bytes, Ready, Goods, Keeping};

use blocks::{BLOCK_BYTES, bytes};
use forest::{Nodes, RECORD};
use soundness::{classes, kinds};
use table::{MOST_BYTES, MOST_NAMES, Refusal, numbers};
use tablefile::Heading;

// The counts of a rescue: the bytes written, the statements and nodes kept, the nodes dropped of the header's number,
// and the bytes after the header's last block.
#[derive(Clone, Copy)]
pub struct Kept {
    pub bytes: u32,
    pub statements: u32,
    pub nodes: u32,
    pub dropped: u32,
    pub after: u64,
}

// Rescues a file. Refuses with 90 (bad header or name block), 91 (nothing can be kept), then 7 (the buffer is shorter
// than the output). A refusal changes no byte, and bytes past the output stay.
pub fn rescue(input: &[u8], file: &mut [u8]) -> Result<Kept, Refusal>
    ensures result_value { rescued result ≡ rescue_of input.now (length file.old) }
    ensures file_after { file.new ≡ file_after input.now file.old }
{
    let h = tablefile::header(input);
    if !head_good(input, h) {
        return Err(Refusal::Bare(numbers::BAD_HEADER));
    }
    let n = h.names;
    let mut names = [0u8; MOST_NAMES];
    tablefile::copy_content(input, 1, n, &mut names);
    rescue_named(input, h, &names[0..n], file)
}

// Reads the records in good node blocks of a file whose header is good, and rescues them.
fn rescue_named(input: &[u8], h: Heading, names: &[u8], file: &mut [u8]) -> Result<Kept, Refusal>
    requires { Ready input.now h names.now }
    ensures result_value { rescued result ≡ rescue_of input.now (length file.old) }
    ensures file_after { file.new ≡ file_after input.now file.old }
{
    let at = BLOCK_BYTES * h.first;
    let got = good_bytes(&input[at..], h.first, RECORD * h.nodes);
    let mut table = [0u8; MOST_BYTES];
    tablefile::copy_content(input, h.first, got, &mut table);
    rescue_good(input, h, names, &mut table[0..got], file)
}

// The same, for the records in good node blocks: all are kept if they pass, else the largest cut; 91 if there is none.
fn rescue_good(
    input: &[u8],
    h: Heading,
    names: &[u8],
    table: &mut [u8],
    file: &mut [u8],
) -> Result<Kept, Refusal>
    requires { Goods input.now h names.now table.old }
    ensures result_value { rescued result ≡ rescue_of input.now (length file.old) }
    ensures file_after { file.new ≡ file_after input.now file.old }
{
    let whole = all_sound(table, names, h.nodes);
    let kept = keep(table, names, whole);
    if kept == 0 {
        return Err(Refusal::Bare(numbers::NOTHING_KEPT));
    }
    finish(input, h, names, &table[0..kept], whole, file)
}

// Whether the header is good: block 0, its counts, its dialect and its edition, and every name block.
fn head_good(input: &[u8], h: Heading) -> bool
    requires { h ≡ header_at input.now }
    ensures { result ≡ head_good input.now }
{
    let zero = blocks::judge(input, 0, 4 + h.dialect + h.edition);
    if let Err(_) = zero {
        return false;
    }
    if !tablefile::counts_fit(h.nodes, h.names) {
        return false;
    }
    let bytes = tablefile::dialect_bytes(input);
    let read = dialect::from_bytes(bytes);
    if let None = read {
        return false;
    }
    let edition = dialect::edition_held(bytes, tablefile::stated_edition(input));
    if let None = edition {
        return false;
    }
    let names = blocks::judge_run(&input[BLOCK_BYTES..], 1, h.names);
    match names {
        Ok(()) => true,
        Err(_) => false,
    }
}

// The number of bytes that the good blocks of a run hold: those before the first bad or missing one.
fn good_bytes(bytes: &[u8], first: usize, total: usize) -> usize
    requires { first < 65536 }
    ensures { result ≡ good_bytes first total bytes.now }
{
    let mut left = bytes;
    let mut done = 0;
    for number in first..first + blocks::blocks_for(total) {
        let used = blocks::used_here(total - done);
        let here = blocks::judge(left, number, used);
        if let Err(_) = here {
            return done;
        }
        left = &left[BLOCK_BYTES..];
        done += used;
    }
    done
}

// Leaves what is kept of the good records at their front, and returns its length; 0 if nothing is kept.
fn keep(table: &mut [u8], names: &[u8], whole: bool) -> usize
    requires { Records table.old }
    ensures { Front (kept_if whole table.old names.now) table.new result }
{
    if whole {
        return table.len();
    }
    cut(table, names)
}

// Whether the good records are all nodes that the header counts, and pass 1 to 4.
fn all_sound(table: &[u8], names: &[u8], nodes: usize) -> bool
    requires { nodes ≤ most_nodes }
    ensures { result ≡
        (leb (record_bytes * nodes) (length table.now)
        && passes (check_of table.now names.now)) }
{
    if table.len() < RECORD * nodes {
        return false;
    }
    sound(table, names)
}

// Whether a table passes 1 to 4.
fn sound(table: &[u8], names: &[u8]) -> bool
    ensures { result ≡ passes (check_of table.now names.now) }
{
    let found = table::check(table, names);
    match found {
        Ok(()) => true,
        Err(_) => false,
    }
}

// Cuts a table to the largest number of leading children that pass, writes the new size into its root, and returns its
// length; 0 if there is none. If the cut to the children that can be kept does not pass, the root is at fault, and no
// cut passes.
fn cut(table: &mut [u8], names: &[u8]) -> usize
    requires { Records table.old }
    ensures { Front (largest_cut table.old names.now) table.new result }
{
    if forest::kind(table) != kinds::STATEMENTS {
        return 0;
    }
    let e = forest::span(table);
    let done = leading(&table[RECORD..e], names.len());
    if done == 0 {
        return 0;
    }
    let end = RECORD + done;
    resize(table, end / RECORD);
    if !sound(&table[0..end], names) {
        return 0;
    }
    end
}

// The length of the leading children that can be kept, in a table that has `names` name bytes.
fn leading(row: &[u8], names: usize) -> usize
    requires { record_bytes * (length row.now / record_bytes) ≡ length row.now }
    ensures { (result ≡ leading_bytes (keepable names) (forest 1 row.now))
        × (result ≤ length row.now) }
{
    let mut done = 0;
    for (_, left) in (Nodes { at: 0, left: row }) {
        let e = forest::span(left);
        if !can_keep(&left[0..e], names) {
            return done;
        }
        done += e;
    }
    done
}

// Whether a child can be kept: a statement that has the number of a source file, its nodes are sound in a table that
// has `names` name bytes, and none is too deep under the root.
fn can_keep(child: &[u8], names: usize) -> bool
    ensures { result ≡ keepable_at names child.now }
{
    if table::class(child) != classes::STATEMENT {
        return false;
    }
    let unsound = soundness::first_unsound_in(child, names);
    if let Some(_) = unsound {
        return false;
    }
    let deep = table::deep_under_root(child);
    match deep {
        Some(_) => false,
        None => true,
    }
}

// Writes a subtree size into the root.
fn resize(table: &mut [u8], m: usize)
    requires { (record_bytes ≤ length table.old) × (m < 65536) }
    ensures { table.new ≡ resized m table.old }
{
    table[16] = (m % 256) as u8;
    table[17] = (m / 256) as u8;
}

// Writes the file of the table that is kept, with names, dialect and edition: 7, or the counts of what is kept.
fn finish(
    input: &[u8],
    h: Heading,
    names: &[u8],
    table: &[u8],
    whole: bool,
    file: &mut [u8],
) -> Result<Kept, Refusal>
    requires { Keeping input.now h names.now table.now whole }
    ensures result_value { rescued result ≡ rescue_of input.now (length file.old) }
    ensures file_after { file.new ≡ file_after input.now file.old }
{
    let size = BLOCK_BYTES
        * (1 + blocks::blocks_for(names.len()) + blocks::blocks_for(table.len()));
    if file.len() < size {
        return Err(Refusal::Bare(numbers::SHORT_BUFFER));
    }
    put_kept(input, h, names, table, whole, file);
    Ok(tell(input, h, table, size as u32))
}

// Writes the file of the table that is kept at the front of a buffer. If all is kept, it is the header's blocks:
// copying them is cheaper than computing their sums again.
fn put_kept(input: &[u8], h: Heading, names: &[u8], table: &[u8], whole: bool, file: &mut [u8])
    requires keeping { Keeping input.now h names.now table.now whole }
    requires names_in_bounds { bytes_for (length table.now) (length names.now) ≤ length file.old }
    ensures { file.new ≡ over 0 (file_of (kept input.now)) file.old }
{
    if whole {
        let n = h.taken;
        bytes::put(&input[0..n], 0, file);
        return;
    }
    writer::write_unchecked(
        table,
        names,
        tablefile::dialect_bytes(input),
        tablefile::stated_edition(input),
        file,
    )
}

// The counts of a table that is kept, for a file of `bytes` bytes.
fn tell(input: &[u8], h: Heading, table: &[u8], bytes: u32) -> Kept
    requires { (h.nodes ≤ most_nodes) × (record_bytes ≤ length table.now) ×
        (length table.now ≤ record_bytes * h.nodes) }
    ensures { told result ≡
        bytes ∷ statements_of table.now ∷ length table.now / record_bytes
        ∷ (h.nodes - length table.now / record_bytes) ∷ (length input.now - h.taken) ∷ [] }
{
    let nodes = table.len() / RECORD;
    Kept {
        bytes: bytes,
        statements: statements(table),
        nodes: nodes as u32,
        dropped: (h.nodes - nodes) as u32,
        after: past(input.len(), h.taken) as u64,
    }
}

// The number of bytes after the first `taken` of `len`.
fn past(len: usize, taken: usize) -> usize
    ensures { result ≡ len - taken }
{
    if len < taken {
        return 0;
    }
    len - taken
}

// The statements of a table: the root's children, 1 for a root that is no Statements.
fn statements(table: &[u8]) -> u32
    requires { (record_bytes ≤ length table.now) × (length table.now ≤ most_bytes) }
    ensures { result ≡ statements_of table.now }
{
    if forest::kind(table) != kinds::STATEMENTS {
        return 1;
    }
    let e = forest::span(table);
    count(&table[RECORD..e]) as u32
}

// The number of sibling nodes in a stretch.
fn count(row: &[u8]) -> usize
    ensures { (result ≡ length (roots (forest 1 row.now))) ×
        (record_bytes * result ≤ length row.now) }
{
    Nodes { at: 0, left: row }.count()
}
