// Stretches of a node table: 24-byte records in preorder. A stretch begins with a record; the children of that record
// and what follows its subtree are stretches again.
// Every function takes any bytes. Missing bytes of a record read as zero; a subtree takes at least one record and at
// most the whole stretch.
#![tactic(auto)]

pub mod marks;
pub mod names;

ghost use Rattle.std.specs.Prelude.{◌≡◌, ◌/◌, length};
ghost use Rattle.std.specs.Iterator.{at_most};
ghost use Rattle.forest.specs.Forest.{record_bytes, node_of, span_of, Countable};

// The size of a record in bytes.
pub const RECORD: usize = 24;

// The fields of the first record of a stretch (docs/FORMAT.md, "A record"). Byte 0: the kind of the node.
pub fn kind(t: &[u8]) -> u8
    ensures { result ≡ (node_of 0 t.now).kind }
{
    fields::byte(t, 0)
}

// Byte 1: the detail.
pub fn detail(t: &[u8]) -> u8
    ensures { result ≡ (node_of 0 t.now).detail }
{
    fields::byte(t, 1)
}

// Bytes 2 and 3: the length of the name in bytes.
pub fn name_len(t: &[u8]) -> u16
    ensures { result ≡ (node_of 0 t.now).name_len }
{
    fields::half(t, 2)
}

// Bytes 4 to 7: where the name begins in the name bytes.
pub fn name_start(t: &[u8]) -> u32
    ensures { result ≡ (node_of 0 t.now).name_start }
{
    fields::word(t, 4)
}

// Bytes 8 to 11: where the span begins in the source.
pub fn begin(t: &[u8]) -> u32
    ensures { result ≡ (node_of 0 t.now).begin }
{
    fields::word(t, 8)
}

// Bytes 12 to 15: where the span ends.
pub fn stop(t: &[u8]) -> u32
    ensures { result ≡ (node_of 0 t.now).stop }
{
    fields::word(t, 12)
}

// Bytes 16 and 17: the number of records of the subtree.
pub fn size(t: &[u8]) -> u16
    ensures { result ≡ (node_of 0 t.now).size }
{
    fields::half(t, 16)
}

// Bytes 18 and 19: the number of the source file; zero in a root Statements.
pub fn file(t: &[u8]) -> u16
    ensures { result ≡ (node_of 0 t.now).file }
{
    fields::half(t, 18)
}

// Bytes 20 to 23: where the name of a named argument begins in the source; zero in every other sound record.
pub fn source(t: &[u8]) -> u32
    ensures { result ≡ (node_of 0 t.now).source }
{
    fields::word(t, 20)
}

// The size in bytes e of the first node's subtree: `&t[RECORD..e]` are its children and `&t[e..]` is what follows.
pub fn span(t: &[u8]) -> usize
    ensures { result ≡ span_of t.now }
{
    let n = t.len();
    let s = size(t) as usize;
    if s == 0 {
        if RECORD < n {
            return RECORD;
        }
        return n;
    }
    if RECORD * s < n {
        return RECORD * s;
    }
    n
}

// The nodes of a stretch, side by side: each with its index and with the rest of the stretch, which begins with it.
// A walk begins with the index of the first record and the stretch; no index is past the largest usize.
#[derive(Clone, Copy)]
pub struct Nodes<'a> {
    pub at: usize,
    pub left: &'a [u8],
    ghost countable: { Countable at left.now },
}

impl<'a> Iterator for Nodes<'a> {
    ghost use Rattle.forest.specs.Nodes.{NextNode};

    type Item = (usize, &'a [u8]);

    ghost next_gives = { NextNode };

    ghost remaining = { λ s. at_most (length s.left.now / record_bytes) };

    #[inline(always)]
    fn next(&mut self) -> Option<(usize, &'a [u8])> {
        let node = (self.at, self.left);
        if self.left.len() < RECORD {
            return None;
        }
        let e = span(self.left);
        self.at += e / RECORD;
        self.left = &self.left[e..];
        Some(node)
    }
}
