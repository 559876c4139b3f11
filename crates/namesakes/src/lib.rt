// Reports the arguments of a call that have the name of one ordinary parameter and reach another, such as two arguments
// that are exchanged. Uses the binding of the crate `bind`.
#![tactic(auto)]

ghost use Rattle.std.specs.Prelude.{◌≡◌, ◌&&◌, List, [], ℕ, ◌*◌, ◌≤◌, length, get_or, replicate};
ghost use Rattle.forest.specs.Forest.{record_bytes, node_of, kids_of, forest};
ghost use Rattle.forest.specs.Names.{name_of, same};
ghost use Rattle.table.specs.Answer.{accepted, checked};
ghost use Rattle.table.specs.Check.{most_nodes, most_bytes};
ghost use Rattle.arguments.specs.Written.{arguments_in};
ghost use Rattle.bind.specs.FlatList.{flats};
ghost use Rattle.bind.specs.Job.{arguments_at};
ghost use Rattle.bind.specs.Reading.{Behind, flats_of as flat_count};
ghost use Rattle.parameters.specs.Params.{list_of};
ghost use Rattle.namesakes.specs.Namesake.{label_of, labelled_in, ordinary_from, namesake_of, report_of, reports_from};
ghost use Rattle.namesakes.specs.Job.{entry_of, reports_at, written, namesakes_of, list_after, named};
ghost use Rattle.namesakes.specs.Reading.{is_normal, is_named, flats_of, Ready};

use deflist::{Kind, Params, entry};
use forest::{Nodes, RECORD};
use soundness::kinds;
use table::{MOST_NODES, Refusal, Wanted, numbers};

// Room for the words of every binding: a word for each flat parameter and for each argument.
const MOST_WORDS: usize = 2 * MOST_NODES;

// Reports the namesakes of the call and the def at two nodes. Returns the number of arguments reported, with four words
// for each at the front of the list: the argument's node, the flat index of the parameter that it reaches, the flat
// index of the parameter that has its name, and the node of the argument that this parameter takes, or 0. Or a refusal:
// 1 to 4, 6, 7, then those of the binding.
pub fn namesakes(
    table: &[u8],
    names: &[u8],
    call: usize,
    def: usize,
    list: &mut [u32],
) -> Result<u32, Refusal>
    ensures result_value { named result ≡
        namesakes_of table.now names.now call def (length list.old) }
    ensures list_after { list.new ≡
        list_after table.now names.now call def list.old }
{
    enter(table, names, call, def, list.len())?;
    let mut space = [0u32; MOST_WORDS];
    let words: &mut [u32] = &mut space;
    bound(table, names, call, def, words, list)
}

// The same for a call and a def that have passed 1 to 4, 6 and 7; `words` has room for the words of the binding.
fn bound(
    table: &[u8],
    names: &[u8],
    call: usize,
    def: usize,
    words: &mut [u32],
    list: &mut [u32],
) -> Result<u32, Refusal>
    requires list_value { entry_of table.now names.now call def (length list.old) ≡ accepted [] }
    requires words_value { words.old ≡ replicate (2 * most_nodes) 0 }
    ensures result_value { named result ≡
        namesakes_of table.now names.now call def (length list.old) }
    ensures list_after { list.new ≡
        list_after table.now names.now call def list.old }
{
    let bound = bind::bind(table, names, call, def, words)?;
    Ok(report(table, names, call, def, bound.flat, words, list))
}

// 1 to 4, 6 and 7.
fn enter(table: &[u8], names: &[u8], call: usize, def: usize, room: usize) -> Result<(), Refusal>
    ensures { checked result ≡ entry_of table.now names.now call def room }
{
    table::enter(table, names, call, Wanted::Call)?;
    if !bind::is_def(table, def) {
        return Err(Refusal::Bare(numbers::WRONG_NODE));
    }
    if room < 4 * argument_count(table, call) {
        return Err(Refusal::Bare(numbers::SHORT_BUFFER));
    }
    Ok(())
}

// The number of arguments of the call at a node: what follows its callee.
fn argument_count(table: &[u8], call: usize) -> usize
    ensures by_index { (names : List ℕ) → result ≡ length (arguments_at table.now names call) }
    ensures result_in_bounds { record_bytes * result ≤ length table.now }
{
    let kids = deflist::children(table::stretch(table, call));
    let e = forest::span(kids);
    count(&kids[e..])
}

// The number of arguments.
fn count(args: &[u8]) -> usize
    ensures by_index { (names : List ℕ) (i : ℕ) → result ≡ length (arguments_in names (forest i args.now)) }
    ensures result_in_bounds { record_bytes * result ≤ length args.now }
{
    Nodes { at: 0, left: args }.count()
}

// Writes the reports of a call and a def that are bound, and returns their number. `flat` is the flat count, and
// `words` are the words of the binding.
fn report(
    table: &[u8],
    names: &[u8],
    call: usize,
    def: usize,
    flat: u32,
    words: &[u32],
    list: &mut [u32],
) -> u32
    requires ready { Ready table.now names.now call def (length list.old) }
    requires flat_value { flat ≡ length (flats (list_of table.now names.now def)) }
    ensures value { result ≡
        length (reports_at table.now names.now call def words.now) }
    ensures list_after { list.new ≡
        written (reports_at table.now names.now call def words.now)
        list.old }
{
    let params = deflist::children(table::stretch(table, def));
    let kids = deflist::children(table::stretch(table, call));
    let e = forest::span(kids);
    let first = call + 1 + e / RECORD;
    along(names, params, &kids[e..], first, flat as usize, words, list) as u32
}

// The reports of the arguments in turn, the first of which is the node `first`; their words begin at `place`.
fn along(
    names: &[u8],
    params: &[u8],
    args: &[u8],
    first: usize,
    from: usize,
    words: &[u32],
    list: &mut [u32],
) -> usize
    requires behind { Behind first args.now × (length params.now ≤ most_bytes) × (from ≤ most_bytes) }
    requires args_in_bounds { 4 * length (labelled_in names.now (forest first args.now)) ≤ length list.old }
    ensures by_index { (i : ℕ) → result ≡
        length (reports_from (flats_of names.now i params.now) words.now from
        (labelled_in names.now (forest first args.now))) }
    ensures result_in_bounds { record_bytes * result ≤ length args.now }
    ensures by_index_2 { (i : ℕ) → list.new ≡
        written (reports_from (flats_of names.now i params.now) words.now from
        (labelled_in names.now (forest first args.now))) list.old }
{
    let mut place = from;
    let mut found = 0;
    for (at, left) in (Nodes {
        at: first,
        left: args,
    }) {
        let q = namesake(names, params, left);
        let p = word(words, place);
        let next = 4 * found;
        found += put(q, at as u32, p, words, &mut list[next..]);
        place += 1;
    }
    found
}

// Writes the report of an argument at a node, if there is one, to the front of a list. p is the flat index of the
// parameter that the argument reaches, q that of the parameter with its name. Returns the number of reports: 0 or 1.
fn put(q: Option<u32>, at: u32, p: u32, words: &[u32], list: &mut [u32]) -> usize
    requires { 4 ≤ length list.old }
    ensures value { result ≡ length (report_of words.now at p q) }
    ensures list_after { list.new ≡ written (report_of words.now at p q) list.old }
{
    match q {
        Some(i) => put_other(i, at, p, words, list),
        None => 0,
    }
}

// The same where a parameter has the argument's name: there is a report if it is not the parameter that is reached.
fn put_other(q: u32, at: u32, p: u32, words: &[u32], list: &mut [u32]) -> usize
    requires { 4 ≤ length list.old }
    ensures value { result ≡ length (report_of words.now at p (Some q)) }
    ensures list_after { list.new ≡ written (report_of words.now at p (Some q)) list.old }
{
    if p == q {
        return 0;
    }
    list[0] = at;
    list[1] = p;
    list[2] = q;
    list[3] = word(words, q as usize);
    1
}

// A word, 0 beyond the last.
fn word(words: &[u32], i: usize) -> u32
    ensures { result ≡ get_or words.now i 0 }
{
    if words.len() <= i {
        return 0;
    }
    words[i]
}

// The ordinary parameter that has the name of the first argument of a stretch.
fn namesake(names: &[u8], params: &[u8], t: &[u8]) -> Option<u32>
    requires { length params.now ≤ most_bytes }
    ensures { (i j : ℕ) → result ≡
        namesake_of (flats_of names.now i params.now)
        (label_of names.now (forest j (kids_of t.now))) }
{
    let expression = deflist::children(t);
    if !is_named(expression) {
        return None;
    }
    find(names, forest::names::name(names, expression), params)
}

// Whether a stretch begins with an expression that has a name.
fn is_named(t: &[u8]) -> bool
    ensures { result ≡ is_named t.now }
{
    let kind = forest::kind(t);
    (RECORD <= t.len()) & ((kind == kinds::IDENTIFIER) | (kind == kinds::DOT))
}

// The flat index of the ordinary parameter of this name.
fn find(names: &[u8], name: &[u8], params: &[u8]) -> Option<u32>
    requires { length params.now ≤ most_bytes }
    ensures { (i : ℕ) → result ≡
        ordinary_from 0 name.now (flats_of names.now i params.now) }
{
    let mut flat = 0;
    for (_, left) in (Params {
        nodes: Nodes {
            at: 0,
            left: params,
        },
    }) {
        let kind = entry::kind_of(left);
        if is_called(names, name, left, kind) {
            return Some(flat);
        }
        flat += flat_count(kind);
    }
    None
}

// Whether the first parameter of a stretch is an ordinary one of this name.
fn is_called(names: &[u8], name: &[u8], t: &[u8], kind: Kind) -> bool
    ensures { result ≡
        (is_normal kind && same (name_of names.now (node_of 0 t.now)) name.now) }
{
    if !is_normal(kind) {
        return false;
    }
    forest::names::same_bytes(forest::names::name(names, t), name)
}

// Whether a parameter of a kind is an ordinary one.
fn is_normal(kind: Kind) -> bool
    ensures { result ≡ is_normal kind }
{
    match kind {
        Kind::Normal(_) => true,
        Kind::NoArgs => false,
        Kind::Slash => false,
        Kind::Args => false,
        Kind::KwArgs => false,
    }
}

// The number of flat parameters of one of a kind: 0 for a mark, else 1.
fn flat_count(kind: Kind) -> u32
    ensures { (result ≡ flat_count kind) × (result ≤ 1) }
{
    match kind {
        Kind::Normal(_) => 1,
        Kind::NoArgs => 0,
        Kind::Slash => 0,
        Kind::Args => 1,
        Kind::KwArgs => 1,
    }
}
