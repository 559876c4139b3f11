// Soundness: the rule of a record with its children, and the first record in index order that breaks it.
ghost use Rattle.std.specs.Prelude.{◌≡◌, ◌&&◌, ◌*◌, ◌≤◌, max, leb, length};
ghost use Rattle.forest.specs.Forest.{record_bytes, node_of, forest};
ghost use Rattle.soundness.specs.Files.{range, file_sound};
ghost use Rattle.soundness.specs.Sound.{context, name_sound, span_sound, source_sound, fields_sound, classes};
ghost use Rattle.soundness.specs.Sound.{kids_sound, sound_at, root_sound, first_unsound, unsound_in};
ghost use Rattle.soundness.specs.Packed.{backs_in, children_of, rule_of, number_sound, LastFrom, class_at, child_of};
ghost use Rattle.soundness.specs.Packed.{root_end, Turned, Searched, Ranges, child_in};

use crate::{classes, kinds, rows};
use forest::{Nodes, RECORD};

// The largest number of a source file.
const LAST_FILE: u16 = 999;

// Whether a name is sound: within the name bytes if the kind has one, else with length and start zero.
fn name_sound(named: bool, names: usize, len: u16, start: u32) -> bool
    ensures { result ≡ name_sound named names len start }
{
    if named {
        let end = (start as usize) + (len as usize);
        return (1 <= len) & ((len <= 255) & (end <= names));
    }
    (len == 0) & (start == 0)
}

fn span_sound(begin: u32, stop: u32) -> bool
    ensures { result ≡ span_sound begin stop }
{
    (begin <= stop) & (stop <= 2147483647)
}

// Whether the source position of a name is sound: in range if the kind has one, else zero.
fn source_sound(kind: u8, source: u32, len: u16) -> bool
    ensures { result ≡ source_sound kind source len }
{
    if kind == kinds::NAMED {
        let end = (source as usize) + (len as usize);
        return end <= 2147483647;
    }
    source == 0
}

// Whether the number of the source file is from `least` to `most`.
fn file_sound(file: u16, least: u16, most: u16) -> bool
    ensures { result ≡ file_sound (range least most) file }
{
    (least <= file) & (file <= most)
}

// Whether the fields of the first record are sound. Its file number must be from `least` to `most`.
fn fields_sound(t: &[u8], names: usize, least: u16, most: u16) -> bool
    ensures { result ≡ fields_sound (context names (range least most)) (node_of 0 t.now) }
{
    let kind = forest::kind(t);
    let len = forest::name_len(t);
    let classed = 1 <= rows::class(kind);
    let detailed = forest::detail(t) <= rows::details(kind);
    let named = name_sound(rows::named(kind), names, len, forest::name_start(t));
    let spanned = span_sound(forest::begin(t), forest::stop(t));
    let filed = file_sound(forest::file(t), least, most);
    let sourced = source_sound(kind, forest::source(t), len);
    classed & (detailed & (named & (spanned & (filed & sourced))))
}

// Whether a subtree of `size` records fits within `len` bytes.
fn whole(size: u16, len: usize) -> bool
    ensures { result ≡ (leb 1 size && leb (record_bytes * size) len) }
{
    let end = RECORD * (size as usize);
    (1 <= size) & (end <= len)
}

// The number of nodes of a stretch, side by side.
fn children(t: &[u8]) -> usize
    ensures { result ≡ length (classes (forest 0 t.now)) }
{
    Nodes { at: 0, left: t }.count()
}

// The index of the first of the `backs` last children. If the rule has none, a number past all children, so that the
// children need not be counted.
fn last_from(t: &[u8], backs: usize) -> usize
    ensures { LastFrom (length (classes (forest 0 t.now))) backs result }
{
    if backs == 0 {
        return t.len() / RECORD;
    }
    let n = children(t);
    if n < backs {
        return 0;
    }
    n - backs
}

// Whether a node may have n children.
fn number_sound(rule: u64, n: usize) -> bool
    ensures { result ≡ number_sound (children_of rule) n }
{
    let fixed = rows::fronts(rule) + rows::backs(rule);
    if n < fixed {
        return false;
    }
    let m = n - fixed;
    let times = rows::times(rule);
    if times == 15 {
        return true;
    }
    if times == 14 {
        return m % 2 == 0;
    }
    m <= (times as usize)
}

// The class that child j must have, where the last children begin at child m.
fn class_wanted(rule: u64, m: usize, j: usize) -> u8
    ensures { result ≡ class_at rule m j }
{
    if j < rows::fronts(rule) {
        return rows::front(rule, j);
    }
    if j < m {
        return rows::middle(rule);
    }
    rows::back(rule, j - m)
}

// The size in bytes of the first node, if it is whole and of the class `want`; else zero.
fn child(t: &[u8], want: u8) -> usize
    requires { record_bytes ≤ length t.now }
    ensures { result ≡ child_of want t.now }
{
    let head = &t[0..RECORD];
    let size = forest::size(head);
    if !whole(size, t.len()) {
        return 0;
    }
    if rows::class(forest::kind(head)) != want {
        return 0;
    }
    RECORD * (size as usize)
}

// Whether the nodes of a stretch fill it and are the children that a rule permits. The last children begin at child m.
// No `for` over Nodes here and in row_sound: `child` tests the size by which the walk goes on; Nodes reads it again.
fn children_sound(t: &[u8], rule: u64, m: usize) -> bool
    requires { LastFrom (length (classes (forest 0 t.now))) (backs_in rule) m }
    ensures { result ≡ kids_sound (children_of rule) (forest 0 t.now) }
{
    let mut left = t;
    let mut j = 0;
    while RECORD <= left.len() {
        let e = child(left, class_wanted(rule, m, j));
        if e == 0 {
            return false;
        }
        left = &left[e..];
        j += 1;
    }
    number_sound(rule, j)
}

// The size in bytes of the first node, if it is whole and its kind is in a range of `ranges_of`; else zero.
fn child_in(t: &[u8], range: u64) -> usize
    requires { record_bytes ≤ length t.now }
    ensures { result ≡ child_in range t.now }
{
    let head = &t[0..RECORD];
    let size = forest::size(head);
    if !whole(size, t.len()) {
        return 0;
    }
    let kind = forest::kind(head) as u64;
    if !((range % 256 <= kind) & (kind <= range / 256 % 256)) {
        return 0;
    }
    RECORD * (size as usize)
}

// The same as `children_sound` for a rule without last children, whose ranges are given. Most nodes have such a rule.
fn row_sound(t: &[u8], rule: u64, first: u64) -> bool
    requires { Ranges rule first }
    ensures { result ≡ kids_sound (children_of rule) (forest 0 t.now) }
{
    let mut left = t;
    let mut j = 0;
    let mut ranges = first;
    let others = first / 0x1_0000_0000_0000 * 0x1_0000_0000_0000;
    while RECORD <= left.len() {
        let e = child_in(left, ranges);
        if e == 0 {
            return false;
        }
        ranges = ranges / 0x1_0000 + others;
        left = &left[e..];
        j += 1;
    }
    number_sound(rule, j)
}

// Whether the nodes of a stretch fill it and are the children that a kind permits at a detail.
fn kids_sound(t: &[u8], kind: u8, detail: u8) -> bool
    ensures { result ≡ kids_sound (rule_of kind detail) (forest 0 t.now) }
{
    let rule = rows::rule_of(kind, detail);
    if t.len() < RECORD {
        return number_sound(rule, 0);
    }
    if (detail == 0) & (rows::backs(rule) == 0) {
        return row_sound(t, rule, rows::ranges_of(kind));
    }
    let m = last_from(t, rows::backs(rule));
    children_sound(t, rule, m)
}

// Whether the record that the rest of a table begins with is sound. Its fields are read from 24 bytes, where compiled
// code needs no test of lengths.
fn record_sound(t: &[u8], names: usize, least: u16, most: u16) -> bool
    requires { record_bytes ≤ length t.now }
    ensures { result ≡ sound_at (context names (range least most)) 0 t.now }
{
    let head = &t[0..RECORD];
    if !fields_sound(head, names, least, most) {
        return false;
    }
    let size = forest::size(head);
    if !whole(size, t.len()) {
        return false;
    }
    let e = RECORD * (size as usize);
    kids_sound(&t[RECORD..e], forest::kind(head), forest::detail(head))
}

// Whether node 0 is a statement that covers the table.
fn root_sound(table: &[u8]) -> bool
    ensures { result ≡ root_sound table.now }
{
    (rows::class(forest::kind(table)) == classes::STATEMENT)
        & (RECORD * (forest::size(table) as usize) == table.len())
}

// Where the loop's first statement ends: a root Statements ends after its own record. Any other root is a statement
// itself, so the statement before it ends at record 0.
fn root_end(table: &[u8]) -> usize
    ensures { result ≡ root_end table.now }
{
    if forest::kind(table) == kinds::STATEMENTS {
        return 1;
    }
    0
}

// The top-level statement of a record: where it ends and its file number; then the least and the greatest file number
// that the record may have.
#[derive(Clone, Copy)]
struct Within {
    end: usize,
    file: u16,
    least: u16,
    most: u16,
}

// The top-level statement of record i, the first of the stretch. The record before it is in the statement that ends at
// `end` and has the file number `file`. The fields are read from 24 bytes, as in `record_sound`.
fn turn(t: &[u8], i: usize, end: usize, file: u16) -> Within
    requires record_bytes_in_bounds { record_bytes ≤ length t.now }
    requires i_bound { record_bytes * i ≤ 18446744073709551615 }
    ensures { Turned t.now i end file result.end result.file result.least result.most }
{
    if i < end {
        return Within {
            end: end,
            file: file,
            least: file,
            most: file,
        };
    }
    let head = &t[0..RECORD];
    let own = forest::file(head);
    let size = forest::size(head);
    Within {
        end: i + (size as usize),
        file: own,
        least: 1,
        most: LAST_FILE,
    }
}

// The larger of two numbers.
fn later(a: usize, b: usize) -> usize
    ensures { result ≡ max a b }
{
    if a < b {
        return b;
    }
    a
}

// The first unsound record in index order, of a table where `first` is its root's end and `whole` is 0; of a top-level
// statement where `first` is 0 and `whole` its number of records, since that statement does not end before. The loop
// keeps where the top-level statement ends that it is in, and the number of that one. It is one loop for both, so that
// `record_sound` is called in one place: compiled code then has no call for each record.
fn first_from(t: &[u8], names: usize, first: usize, whole: usize) -> Option<usize>
    ensures { Searched t.now names first whole result }
{
    let n = t.len() / RECORD;
    let mut end = first;
    let mut file = 0;
    let mut i = 0;
    while i < n {
        let a = RECORD * i;
        let within = turn(&t[a..], i, end, file);
        end = later(within.end, whole);
        file = within.file;
        if !record_sound(&t[a..], names, within.least, within.most) {
            return Some(i);
        }
        i += 1;
    }
    None
}

// The first unsound record in index order.
pub(crate) fn first_unsound(table: &[u8], names: &[u8]) -> Option<usize>
    ensures { result ≡ first_unsound table.now names.now }
{
    if table.len() / RECORD == 0 {
        return None;
    }
    if !root_sound(table) {
        return Some(0);
    }
    first_from(table, names.len(), root_end(table), 0)
}

// The first unsound record of a top-level statement, in a table that has `names` name bytes.
pub(crate) fn first_unsound_in(statement: &[u8], names: usize) -> Option<usize>
    ensures { result ≡ unsound_in names statement.now }
{
    first_from(statement, names, 0, statement.len() / RECORD)
}
