// The written list, read from the children of a def or lambda: each next parameter is found by stepping over the one
// before it.
ghost use Rattle.std.specs.Prelude.{◌≡◌, ◌≤◌, length, drop};
ghost use Rattle.forest.specs.Forest.{record_bytes, span_of};
ghost use Rattle.deflist.specs.Reading.{SlashAt, is_over, Exceeds, Skips};

use crate::{Params, Written, entry};
use forest::{Nodes, RECORD};

// The written position of the first `/`.
pub(crate) fn first_slash(kids: &[u8]) -> Option<Written>
    ensures { SlashAt kids.now result }
{
    for (i, (_, left)) in (Params {
        nodes: Nodes { at: 0, left: kids },
    })
    .enumerate()
    {
        if entry::is_slash(entry::kind_of(left)) {
            return Some(Written(i));
        }
    }
    None
}

// What follows the first node of a stretch. Most parameters are one record; with a branch for them the processor can
// read the next record before it knows the size.
fn after(t: &[u8]) -> &[u8]
    requires { record_bytes ≤ length t.now }
    ensures { result.now ≡ drop (span_of t.now) t.now }
{
    if forest::size(t) == 1 {
        return &t[RECORD..];
    }
    let e = forest::span(t);
    &t[e..]
}

// Whether the list at the front of a stretch has more than `most` entries, marks counted. A stretch of at most `most`
// records is not read, nor are the entries after the first one too many. No `for` over Params, whose `next` has not the
// branch of `after`, by which lists of one record each are read faster.
pub fn has_more(kids: &[u8], most: usize) -> bool
    ensures value { result ≡ is_over most kids.now }
    ensures exceeds { Exceeds most kids.now result }
{
    if kids.len() / RECORD <= most {
        return false;
    }
    let mut left = kids;
    let mut n = 0;
    while entry::listed(left) {
        if most <= n {
            return true;
        }
        let next = after(left);
        left = next;
        n += 1;
    }
    false
}

// The size in bytes of the first n parameters.
pub(crate) fn skip(kids: &[u8], n: Written) -> usize
    ensures { Skips kids.now n.0 result }
{
    let mut at = 0;
    for _ in 0..n.0 {
        at += forest::span(&kids[at..]);
    }
    at
}
