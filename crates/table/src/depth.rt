// Depth: the first node, in table order, that is deeper than the limit of 64 (docs/FORMAT.md, "A sound table").
ghost use Rattle.std.specs.Prelude.{◌≡◌, ◌+◌, ◌*◌, ◌≤◌, ◌<◌, ◌^◌, length};
ghost use Rattle.forest.specs.Forest.{record_bytes, node_of, forest};
ghost use Rattle.table.specs.Depth.{class_weight, weight, first_deep};

use forest::{Nodes, RECORD};
use soundness::classes;

// The largest depth.
const MOST_DEPTH: usize = 64;

// What a record of a class adds to its parent's depth.
fn class_weight(class: u8) -> usize
    ensures { (result ≡ class_weight class) × (result ≤ 1) }
{
    match class {
        classes::STATEMENT => 1,
        classes::EXPRESSION => 1,
        classes::PARAMETER => 0,
        classes::ARGUMENT => 0,
        _ => 0,
    }
}

// What the first record of a stretch adds to its parent's depth.
fn weight_of(t: &[u8]) -> usize
    ensures { (result ≡ weight (node_of 0 t.now).kind) × (result ≤ 1) }
{
    class_weight(crate::class(t))
}

// The first node of a stretch that is too deep; its first record has the index `at`, and its parent the depth `depth`.
// Children are visited by recursion, which the depth limit ends, and siblings in a loop.
pub(crate) fn deep_from(t: &[u8], at: usize, depth: usize) -> Option<usize>
    requires { (record_bytes * at + length t.now < 2 ^ 63) × (depth ≤ 64) }
    ensures { result ≡ first_deep depth (forest at t.now) }
{
    for (i, left) in (Nodes { at, left: t }) {
        // fewer nodes cannot reach that depth, so most subtrees need no walk
        if depth + left.len() / RECORD <= MOST_DEPTH {
            return None;
        }
        let here = depth + weight_of(left);
        if MOST_DEPTH < here {
            return Some(i);
        }
        let e = forest::span(left);
        // a call for each small subtree would cost more than this test
        if MOST_DEPTH < here + e / RECORD {
            let below = deep_from(&left[RECORD..e], i + 1, here);
            if let Some(j) = below {
                return Some(j);
            }
        }
    }
    None
}

// The first node of a table that is too deep.
pub(crate) fn first_deep(table: &[u8]) -> Option<usize>
    ensures { result ≡ first_deep 0 (forest 0 table.now) }
{
    deep_from(table, 0, 0)
}
