// unpack: 10, then the parameters in turn, then what follows a bare `*`.
//
// Ported from src/syntax/def.rs of starlark_syntax 0.14.2, and changed: the list is a stretch of the node table, and
// names are noted and compared instead of hashed.
// Copyright 2018 The Starlark in Rust Authors. Copyright (c) Facebook, Inc. and its affiliates.
// Licensed under Apache-2.0.
ghost use Rattle.std.specs.Prelude.{◌≡◌, [], ◌+◌, ◌*◌, ◌/◌, ◌≤◌, ◌<◌, ◌^◌, length, take};
ghost use Rattle.forest.specs.Forest.{record_bytes, node_of, forest};
ghost use Rattle.forest.specs.Marks.{Known};
ghost use Rattle.deflist.specs.Written.{params_in, written};
ghost use Rattle.deflist.specs.Unpack.{first_same, firstly, rule as rule_of, one_more, more_positional};
ghost use Rattle.deflist.specs.Unpack.{count as count_of, advance as advance_of, run as run_of};
ghost use Rattle.deflist.specs.Unpack.{start as start_of, unpack as unpack_of};
ghost use Rattle.deflist.specs.Told.{fault as fault_of, turn_of};
ghost use Rattle.deflist.specs.Reading.{kind_here, begins_with_slash, Says, Finishes, Earlier, Meets};

use crate::{
    Check, Counts, Fault, Flat, Kind, Params, State, Unpacking, Written, entry, list, rules, states,
};
use forest::{Nodes, RECORD};
use table::{Entries, named, numbers};

// The node of the first of n parameters that has this name; first is the node of the first record.
fn earlier(names: &[u8], name: &[u8], kids: &[u8], first: usize, n: Written) -> Option<usize>
    requires { (record_bytes * first + length kids.now < 2 ^ 64) ×
        (n.0 ≤ length (params_in names.now (forest first kids.now))) }
    ensures { Earlier name.now
        (take n.0 (params_in names.now (forest first kids.now)))
        (first + length kids.now / record_bytes) result }
{
    let found = named::first_named(Entries::Parameters, names, name, kids, n.0);
    match found {
        Some(i) => Some(first + i),
        None => None,
    }
}

// A refusal at the first record of a stretch, with the node of an earlier parameter.
pub(crate) fn fault(number: u32, node: usize, t: &[u8], earlier: Option<usize>) -> Fault
    ensures { result ≡ fault_of number (node_of node t.now) earlier }
{
    Fault {
        number,
        node,
        span: table::span_of(t),
        earlier,
    }
}

// The first of the n parameters before it that has the name of the first parameter of `left`. Notes that name; where
// the marks show that it is new, nothing is searched.
fn repeated(
    names: &[u8],
    kids: &[u8],
    first: usize,
    n: Written,
    left: &[u8],
    kind: Kind,
    marks: &mut [u8],
) -> Option<usize>
    requires { (record_bytes * first + length kids.now < 2 ^ 64) ×
        (n.0 ≤ length (params_in names.now (forest first kids.now))) × (kind ≡ kind_here left.now) ×
        Known first_same marks.old (take n.0 (params_in names.now (forest first kids.now))) }
    ensures { Meets names.now
        (take n.0 (params_in names.now (forest first kids.now))) left.now
        marks.new (first + length kids.now / record_bytes) result }
{
    if !rules::is_named(kind) {
        return None;
    }
    let name = forest::names::name(names, left);
    if !forest::marks::note(marks, name) {
        return None;
    }
    earlier(names, name, kids, first, n)
}

// 11 (a repeated name) before the rule of the kind.
fn check(found: Option<usize>, state: State, optional: bool, kind: Kind) -> Check
    ensures { result ≡ firstly found (rule_of state optional kind) }
{
    match found {
        Some(i) => Check::Repeated(i),
        None => rules::rule(state, optional, kind),
    }
}

// The turn of the first parameter of a stretch: 11, then the rule of its kind.
fn turn(
    found: Option<usize>,
    state: State,
    optional: bool,
    kind: Kind,
    node: usize,
    t: &[u8],
) -> Result<(), Fault>
    ensures { result ≡ turn_of (firstly found (rule_of state optional kind)) (node_of node t.now) }
{
    let c = check(found, state, optional, kind);
    match c {
        Check::Fine => Ok(()),
        Check::Broken(number) => Err(fault(number, node, t, None)),
        Check::Repeated(i) => { Err(fault(numbers::DUPLICATED_PARAMETER, node, t, Some(i))) }
    }
}

// One more in the flat list.
fn one_more(flat: Flat) -> Flat
    requires { flat.0 < 2 ^ 63 }
    ensures { result ≡ one_more flat }
{
    Flat(flat.0 + 1)
}

// One more that can be filled positionally, before any star.
fn more_positional(state: State, n: Flat) -> Flat
    requires { n.0 < 2 ^ 63 }
    ensures { result ≡ more_positional state n }
{
    match state {
        State::Normal => one_more(n),
        State::SeenSlash => one_more(n),
        State::SeenStar => n,
        State::SeenStarStar => n,
    }
}

// The counts after a parameter of a kind.
fn count(state: State, c: Counts, kind: Kind) -> Counts
    requires { (c.num_positional.0 < 2 ^ 63) × (c.flat.0 < 2 ^ 63) }
    ensures { result ≡ count_of state c kind }
{
    let positional = c.num_positional;
    let only = c.num_positional_only;
    let args = c.args;
    let kwargs = c.kwargs;
    let flat = c.flat;
    match kind {
        Kind::Normal(_) => Counts {
            num_positional: more_positional(state, positional),
            num_positional_only: only,
            args,
            kwargs,
            flat: one_more(flat),
        },
        Kind::NoArgs => c,
        Kind::Slash => c,
        Kind::Args => Counts {
            num_positional: positional,
            num_positional_only: only,
            args: Some(flat),
            kwargs,
            flat: one_more(flat),
        },
        Kind::KwArgs => Counts {
            num_positional: positional,
            num_positional_only: only,
            args,
            kwargs: Some(flat),
            flat: one_more(flat),
        },
    }
}

// The state after a parameter of a kind whose written position is i.
fn advance(u: Unpacking, i: Written, kind: Kind) -> Unpacking
    requires { (u.counts.num_positional.0 < 2 ^ 63) × (u.counts.flat.0 < 2 ^ 63) }
    ensures { result ≡ advance_of u i kind }
{
    let state = u.state;
    let star = u.index_of_star;
    let counts = u.counts;
    Unpacking {
        state: states::next_state(state, kind),
        seen_optional: rules::next_optional(u.seen_optional, kind),
        index_of_star: rules::next_star(star, i, kind),
        counts: count(state, counts, kind),
    }
}

// 17 (`*` is last) and 18 (the entry after `*` is no Normal), for the bare `*` at a written position.
fn after_star(kids: &[u8], first: usize, star: Written, counts: Counts) -> Result<Counts, Fault>
    requires { record_bytes * first + length kids.now < 2 ^ 64 }
    ensures { Finishes kids.now first (Some star) counts result }
{
    let at = list::skip(kids, star);
    let here = &kids[at..];
    let e = forest::span(here);
    let next = &here[e..];
    let node = first + at / RECORD;
    if !entry::listed(next) {
        return Err(fault(numbers::STAR_LAST, node, here, None));
    }
    if rules::is_normal(entry::kind_of(next)) {
        return Ok(counts);
    }
    Err(fault(numbers::NO_NORMAL_AFTER_STAR, node + e / RECORD, next, None))
}

// After the last parameter.
fn finish(kids: &[u8], first: usize, star: Option<Written>, counts: Counts) -> Result<Counts, Fault>
    requires { record_bytes * first + length kids.now < 2 ^ 64 }
    ensures { Finishes kids.now first star counts result }
{
    match star {
        Some(i) => after_star(kids, first, i, counts),
        None => Ok(counts),
    }
}

// The parameters in turn, of which `only` are positional only. Notes their names in the marks.
fn run(
    names: &[u8],
    kids: &[u8],
    first: usize,
    only: Flat,
    marks: &mut [u8],
) -> Result<Counts, Fault>
    requires { record_bytes * first + length kids.now < 2 ^ 64 }
    ensures { Says (run_of [] (start_of only) (params_in names.now (forest first kids.now)))
        (first + length kids.now / record_bytes) result }
{
    let mut u = rules::start(only);
    for (i, (at, left)) in (Params {
        nodes: Nodes {
            at: first,
            left: kids,
        },
    })
    .enumerate()
    {
        let n = Written(i);
        let kind = entry::kind_of(left);
        let found = repeated(names, kids, first, n, left, kind, marks);
        let state = u.state;
        turn(found, state, u.seen_optional, kind, at, left)?;
        u = advance(u, n, kind);
    }
    let star = u.index_of_star;
    let counts = u.counts;
    finish(kids, first, star, counts)
}

// Whether `/` is first.
fn slash_first(kids: &[u8]) -> bool
    ensures { result ≡ begins_with_slash kids.now }
{
    entry::listed(kids) & entry::is_slash(entry::kind_of(kids))
}

// 10 first, then the parameters in turn; first is the node of the first record.
fn unpack(names: &[u8], kids: &[u8], first: usize, marks: &mut [u8]) -> Result<Counts, Fault>
    requires { record_bytes * first + length kids.now < 2 ^ 64 }
    ensures { Says (unpack_of (params_in names.now (forest first kids.now)))
        (first + length kids.now / record_bytes) result }
{
    if slash_first(kids) {
        return Err(fault(numbers::SLASH_FIRST, first, kids, None));
    }
    let slash = list::first_slash(kids);
    run(names, kids, first, rules::positional_only(slash), marks)
}

// DefParams::unpack of the written list of the node whose subtree is the stretch: the counts, or the first refusal.
// Notes names in the marks; what the marks hold before does not change the answer.
pub(crate) fn judge(names: &[u8], t: &[u8], node: u32, marks: &mut [u8]) -> Result<Counts, Fault>
    ensures { Says (unpack_of (written names.now node t.now))
        (node + 1 + length t.now / record_bytes) result }
{
    let kids = crate::children(t);
    let first = (node as usize) + 1;
    unpack(names, kids, first, marks)
}
