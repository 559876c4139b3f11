// The reader of table files (docs/FORMAT.md, a table file): the file at the front of some bytes, or a file that is
// all of the bytes.
#![tactic(auto)]

ghost use Rattle.std.specs.Prelude.{◌≡◌, [], ◌++◌, ◌+◌, ◌*◌, ◌≤◌, ◌&&◌, length, take, drop, leb};
ghost use Rattle.table.specs.Numbers.{short_buffer};
ghost use Rattle.table.specs.Answer.{accepted, and_then, is_refused};
ghost use Rattle.table.specs.Check.{most_bytes, most_names};
ghost use Rattle.blocks.specs.Block.{block_bytes, demand, judged};
ghost use Rattle.blocks.specs.Run.{blocks_for, content_of};
ghost use Rattle.tablefile.specs.Reading.{dialect_in, edition_in, header_at, content_at, number_held, counts_fit};
ghost use Rattle.tablefile.specs.Reading.{blocks_check, front_check, sound_check, read_check};
ghost use Rattle.tablefile.specs.Loading.{verdict, laid, loaded_of, none};
ghost use Rattle.tablefile.specs.Lending.{file_check, into_check, handed, copied, Holds};

use blocks::{BLOCK_BYTES, CONTENT_BYTES, bytes};
use forest::RECORD;
use table::{MOST_BYTES, MOST_NAMES, MOST_NODES, Refusal, numbers};

// The largest number of blocks in a file: block 0, 16 with 8,064 name bytes, 100 with 2,100 nodes.
pub const MOST_BLOCKS: usize = 117;

// The content of a file by value, and the number of bytes that the file takes. Without a dialect, dialect_len is 0. The
// bytes past the lengths are zero. If the file is refused, all is zero, with no edition.
#[derive(Clone, Copy)]
pub struct Loaded {
    pub verdict: Result<(), Refusal>,
    pub taken: usize,
    pub table: [u8; MOST_BYTES],
    pub table_len: usize,
    pub names: [u8; MOST_NAMES],
    pub names_len: usize,
    pub dialect: [u8; 9],
    pub dialect_len: usize,
    pub edition: Option<u32>,
}

// The header of a file, and from it the places of its blocks: the numbers of nodes, name bytes, dialect bytes and
// edition bytes, the number of the first node block, and the number of bytes that the file takes.
#[derive(Clone, Copy)]
pub struct Heading {
    pub nodes: usize,
    pub names: usize,
    pub dialect: usize,
    pub edition: usize,
    pub first: usize,
    pub taken: usize,
}

// Reads the header from the first bytes of a file. It takes any bytes and does not judge block 0.
pub fn header(bytes: &[u8]) -> Heading
    ensures { result ≡ header_at bytes.now }
{
    let nodes = fields::half(bytes, 4) as usize;
    let names = fields::half(bytes, 6) as usize;
    let used = fields::half(bytes, 2);
    let first = 1 + blocks::blocks_for(names);
    let last = blocks::blocks_for(RECORD * nodes);
    Heading {
        nodes: nodes,
        names: names,
        dialect: dialect_in(used),
        edition: edition_in(used),
        first: first,
        taken: BLOCK_BYTES * (first + last),
    }
}

// Reads a file and returns its content by value. Refuses with 70, 72, 71, 73 for each block, 74 after block 0, 75 for
// bytes left over, then 1 to 5.
pub fn read(file: &[u8]) -> Loaded
    ensures verdict_value { verdict result.verdict ≡ read_check file.now }
    ensures value { result ≡ loaded_of result.verdict (content_at file.now) (header_at file.now).taken }
{
    let h = header(file);
    let first = judge_front(file, h);
    if let Err(n) = first {
        return refused(Refusal::Bare(n));
    }
    let l = load(file, h);
    if l.taken < file.len() {
        return refused(Refusal::Bare(numbers::BYTES_LEFT_OVER));
    }
    let table = l.table;
    let names = l.names;
    let dialect = l.dialect;
    let edition = l.edition;
    let sound = check(
        &table,
        l.table_len,
        &names,
        l.names_len,
        &dialect,
        l.dialect_len,
        edition,
    );
    if let Err(r) = sound {
        return refused(r);
    }
    l
}

// Judges a file and reads no content: 70 to 74 for its blocks, then 75 for bytes left over.
pub fn judge_file(file: &[u8]) -> Result<(), Refusal>
    ensures { verdict result ≡ file_check file.now }
{
    let h = header(file);
    let first = judge_front(file, h);
    if let Err(n) = first {
        return Err(Refusal::Bare(n));
    }
    if h.taken < file.len() {
        return Err(Refusal::Bare(numbers::BYTES_LEFT_OVER));
    }
    Ok(())
}

// Reads a file into two arrays that are large enough for every file. Refuses with 70 to 75, and a refusal changes no
// byte. Else table and names are written to the fronts of the arrays; they are not checked for 1 to 5.
pub fn unpack(
    file: &[u8],
    table: &mut [u8; MOST_BYTES],
    names: &mut [u8; MOST_NAMES],
) -> Result<(), Refusal>
    ensures result_value { verdict result ≡ file_check file.now }
    ensures table_after { table.new ≡
        handed (file_check file.now) (content_at file.now).table table.old }
    ensures names_after { names.new ≡
        handed (file_check file.now) (content_at file.now).names names.old }
{
    let h = header(file);
    let judged = judge_file(file);
    if is_refused(judged) {
        return judged;
    }
    copy(file, h.first, RECORD * h.nodes, table);
    copy(file, 1, h.names, names);
    judged
}

// Reads a file into the caller's buffers. Refuses as `read` does, then with 7 if a buffer is shorter than the table or
// the names. A refusal changes no byte, and the bytes past table and names stay.
pub fn read_into(file: &[u8], table: &mut [u8], names: &mut [u8]) -> Result<(), Refusal>
    ensures result_value { verdict result ≡
        into_check file.now (length table.old) (length names.old) }
    ensures table_after { table.new ≡
        handed (into_check file.now (length table.old) (length names.old))
        (content_at file.now).table table.old }
    ensures names_after { names.new ≡
        handed (into_check file.now (length table.old) (length names.old))
        (content_at file.now).names names.old }
{
    let mut whole_table = [0u8; MOST_BYTES];
    let mut whole_names = [0u8; MOST_NAMES];
    let unpacked = unpack(file, &mut whole_table, &mut whole_names);
    if is_refused(unpacked) {
        return unpacked;
    }
    hand_over(file, &whole_table, &whole_names, table, names)
}

// Copies len content bytes, of the blocks numbered from `first` on, to the front of out. If a block is missing, or out
// is shorter than len, no byte changes.
pub fn copy_content(bytes: &[u8], first: usize, len: usize, out: &mut [u8])
    ensures { out.new ≡ copied first len bytes.now out.old }
{
    let there = bytes.len() / BLOCK_BYTES;
    if there < first {
        return;
    }
    if there - first < blocks::blocks_for(len) {
        return;
    }
    if out.len() < len {
        return;
    }
    copy(bytes, first, len, out)
}

// The dialect bytes of a file, which is not judged: nine or none, or fewer if the file ends before.
pub fn dialect_bytes(file: &[u8]) -> &[u8]
    ensures { result.now ≡ (content_at file.now).dialect }
{
    if file.len() < 8 {
        return &file[0..0];
    }
    let len = dialect_in(fields::half(file, 2));
    let rest = &file[8..];
    if rest.len() < len {
        return rest;
    }
    &rest[0..len]
}

// The edition that a file states, which is not judged: the byte after the dialect bytes, or nothing.
pub fn stated_edition(file: &[u8]) -> Option<u32>
    ensures { result ≡ (content_at file.now).edition }
{
    if file.len() < 18 {
        return None;
    }
    if edition_in(fields::half(file, 2)) == 0 {
        return None;
    }
    Some(file[17] as u32)
}

// The number of the edition that holds in a file: the one that it states, or 1. In an accepted file it is 1 or 2.
pub fn edition_number(stated: Option<u32>) -> u32
    ensures { result ≡ number_held stated }
{
    match stated {
        Some(number) => number,
        None => 1,
    }
}

// Checks 1 to 5 and then 7 on a file that was unpacked into two arrays; then writes table and names into the buffers.
fn hand_over(
    file: &[u8],
    t: &[u8],
    n: &[u8],
    table: &mut [u8],
    names: &mut [u8],
) -> Result<(), Refusal>
    requires { Holds file.now t.now n.now }
    ensures result_value { verdict result ≡
        into_check file.now (length table.old) (length names.old) }
    ensures table_after { table.new ≡
        handed (into_check file.now (length table.old) (length names.old))
        (content_at file.now).table table.old }
    ensures names_after { names.new ≡
        handed (into_check file.now (length table.old) (length names.old))
        (content_at file.now).names names.old }
{
    let h = header(file);
    let len = RECORD * h.nodes;
    let dialect = dialect_bytes(file);
    let edition = stated_edition(file);
    let sound = check(t, len, n, h.names, dialect, dialect.len(), edition);
    let answer = judge_room(sound, len, table.len(), h.names, names.len());
    if is_refused(answer) {
        return answer;
    }
    put(t, len, table);
    put(n, h.names, names);
    answer
}

// A verdict, then 7 unless t bytes fit into a and n bytes into b.
fn judge_room(
    found: Result<(), Refusal>,
    t: usize,
    a: usize,
    n: usize,
    b: usize,
) -> Result<(), Refusal>
    ensures { verdict result ≡ and_then (verdict found) (λ _. demand (leb t a && leb n b) short_buffer) }
{
    if is_refused(found) {
        return found;
    }
    if (t <= a) & (n <= b) {
        return Ok(());
    }
    Err(Refusal::Bare(numbers::SHORT_BUFFER))
}

// Whether a verdict is a refusal.
fn is_refused(found: Result<(), Refusal>) -> bool
    ensures { result ≡ is_refused (verdict found) }
{
    match found {
        Ok(()) => false,
        Err(_) => true,
    }
}

// Judges the blocks of the file at the front, one after another.
fn judge_front(bytes: &[u8], h: Heading) -> Result<(), u32>
    requires { h ≡ header_at bytes.now }
    ensures { judged result ≡ blocks_check h bytes.now }
{
    blocks::judge(bytes, 0, 4 + h.dialect + h.edition)?;
    if !counts_fit(h.nodes, h.names) {
        return Err(numbers::BLOCK_COUNTS);
    }
    blocks::judge_run(&bytes[BLOCK_BYTES..], 1, h.names)?;
    let at = BLOCK_BYTES * h.first;
    blocks::judge_run(&bytes[at..], h.first as u16, RECORD * h.nodes)
}

// Loads the content of the file at the front, whose blocks pass.
fn load(bytes: &[u8], h: Heading) -> Loaded
    requires { (h ≡ header_at bytes.now) × (front_check bytes.now ≡ accepted []) }
    ensures { result ≡ loaded_of (Ok tt) (content_at bytes.now) (header_at bytes.now).taken }
{
    let len = RECORD * h.nodes;
    Loaded {
        verdict: Ok(()),
        taken: h.taken,
        table: table_of(bytes, h.first, len),
        table_len: len,
        names: names_of(bytes, h.names),
        names_len: h.names,
        dialect: dialect_of(bytes, h.dialect),
        dialect_len: h.dialect,
        edition: stated_edition(bytes),
    }
}

// Checks 1 to 5 on the content of a file: each array up to its length.
fn check(
    table: &[u8],
    t: usize,
    names: &[u8],
    n: usize,
    dialect: &[u8],
    d: usize,
    edition: Option<u32>,
) -> Result<(), Refusal>
    requires { (t ≤ length table.now) × (n ≤ length names.now) × (d ≤ length dialect.now) }
    ensures { verdict result ≡
        sound_check (record {
          table = take t table.now;
          names = take n names.now;
          dialect = take d dialect.now;
          edition = edition;
        }) }
{
    let read = dialect::edition_held(&dialect[0..d], edition);
    // no `?`: the wrong answer bad_dialect_accepted is about the second arm
    match table::enter_rules(&table[0..t], &names[0..n], &dialect[0..d], read) {
        Ok(_) => Ok(()),
        Err(why) => Err(why),
    }
}

// The answer for a refused file: the refusal, and zeros.
fn refused(why: Refusal) -> Loaded
    ensures { result ≡ loaded_of (Err why) none 0 }
{
    Loaded {
        verdict: Err(why),
        taken: 0,
        table: [0u8; MOST_BYTES],
        table_len: 0,
        names: [0u8; MOST_NAMES],
        names_len: 0,
        dialect: [0u8; 9],
        dialect_len: 0,
        edition: None,
    }
}

// The number of dialect bytes in block 0, given its number of used bytes.
fn dialect_in(used: u16) -> usize
    ensures { (result ≡ dialect_in used) × (result ≤ 9) }
{
    if (used == 13) | (used == 14) { 9 } else { 0 }
}

// The number of edition bytes in block 0, given its number of used bytes.
fn edition_in(used: u16) -> usize
    ensures { (result ≡ edition_in used) × (result ≤ 1) }
{
    if used == 14 { 1 } else { 0 }
}

// Whether the numbers of nodes and of name bytes are within the limits.
pub fn counts_fit(nodes: usize, names: usize) -> bool
    ensures { result ≡ counts_fit nodes names }
{
    (1 <= nodes) & ((nodes <= MOST_NODES) & (names <= MOST_NAMES))
}

// Copies the first len bytes of `from` to the front of out.
fn put(from: &[u8], len: usize, out: &mut [u8])
    requires { (len ≤ length from.now) × (len ≤ length out.old) }
    ensures { out.new ≡ take len from.now ++ drop len out.old }
{
    bytes::put(&from[0..len], 0, out)
}

// Copies len content bytes, of the blocks numbered from `first` on, to the front of out, block by block.
fn copy(bytes: &[u8], first: usize, len: usize, out: &mut [u8])
    requires { (block_bytes * (first + blocks_for len) ≤ length bytes.now) × (len ≤ length out.old) }
    ensures { out.new ≡
        content_of len (drop (block_bytes * first) bytes.now) ++ drop len out.old }
{
    for i in 0..blocks::blocks_for(len) {
        let done = CONTENT_BYTES * i;
        let used = blocks::used_here(len - done);
        put(blocks::content(bytes, first + i), used, &mut out[done..]);
    }
}

// The table, read from the blocks numbered from `first` on.
fn table_of(bytes: &[u8], first: usize, len: usize) -> [u8; MOST_BYTES]
    requires { (block_bytes * (first + blocks_for len) ≤ length bytes.now) × (len ≤ most_bytes) }
    ensures { result ≡ laid most_bytes (content_of len (drop (block_bytes * first) bytes.now)) }
{
    let mut t = [0u8; MOST_BYTES];
    copy(bytes, first, len, &mut t);
    t
}

// The names, read from the blocks numbered from 1 on.
fn names_of(bytes: &[u8], len: usize) -> [u8; MOST_NAMES]
    requires { (block_bytes * (1 + blocks_for len) ≤ length bytes.now) × (len ≤ most_names) }
    ensures { result ≡ laid most_names (content_of len (drop block_bytes bytes.now)) }
{
    let mut t = [0u8; MOST_NAMES];
    copy(bytes, 1, len, &mut t);
    t
}

// The dialect bytes of block 0.
fn dialect_of(bytes: &[u8], len: usize) -> [u8; 9]
    requires { (block_bytes ≤ length bytes.now) × (len ≤ 9) }
    ensures { result ≡ laid 9 (take len (drop 8 bytes.now)) }
{
    let mut d = [0u8; 9];
    put(&bytes[8..], len, &mut d);
    d
}
