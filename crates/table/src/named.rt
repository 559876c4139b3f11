// The entries of a list, parameters or arguments side by side: which of them have a name, and the first with a name.
ghost use Rattle.std.specs.Prelude.{◌≡◌, take};
ghost use Rattle.forest.specs.Forest.{node_of, forest, roots};
ghost use Rattle.table.specs.Naming.{bears_name, has_name, first_named};

use crate::Entries;
use forest::RECORD;
use soundness::kinds;

// Whether an entry of a kind has a name: parameters other than `*` and `/`, and named arguments.
pub fn bears_name(entries: Entries, kind: u8) -> bool
    ensures { result ≡ bears_name entries kind }
{
    match entries {
        Entries::Parameters => !((kind == kinds::NO_ARGS) | (kind == kinds::SLASH)),
        Entries::Arguments => kind == kinds::NAMED,
    }
}

// Whether the first entry of a stretch has this name.
fn has_name(entries: Entries, names: &[u8], name: &[u8], t: &[u8]) -> bool
    ensures { result ≡ has_name entries names.now name.now (node_of 0 t.now) }
{
    if !bears_name(entries, forest::kind(t)) {
        return false;
    }
    forest::names::same_bytes(forest::names::name(names, t), name)
}

// The index in the stretch of the first of its first n entries that has this name. Not a `for` with `take(n)`, which
// has no i: the wrong answers last_entry_not_searched and place_for_the_index are about it.
pub fn first_named(entries: Entries, names: &[u8], name: &[u8], t: &[u8], n: usize) -> Option<usize>
    ensures { result ≡ first_named entries names.now name.now
        (take n (roots (forest 0 t.now))) }
{
    let mut left = t;
    let mut at = 0;
    for i in 0..n {
        if left.len() < RECORD {
            return None;
        }
        if has_name(entries, names, name, &left[0..RECORD]) {
            return Some(at);
        }
        let e = forest::span(left);
        at += e / RECORD;
        left = &left[e..];
    }
    None
}
