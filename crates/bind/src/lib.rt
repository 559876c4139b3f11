// Which argument of a call reaches which parameter of a def (W-204). The parameter list is read as def.rs reads it, and
// the arguments as call.rs does: the crates `deflist` and `arguments`.
#![tactic(auto)]

mod checks;
mod entries;
mod reaching;
mod walk;
mod words;

ghost use Rattle.std.specs.Prelude.{◌≡◌, ◌+◌, ◌*◌, ◌≤◌, length};
ghost use Rattle.table.specs.Answer.{checked};
ghost use Rattle.table.specs.Check.{most_nodes};
ghost use Rattle.bind.specs.Job.{is_def, arguments_at, answered, answered_at, bind_of, laid};
ghost use Rattle.bind.specs.Job.{list_after, bound};
ghost use Rattle.bind.specs.Reading.{stored};
ghost use Rattle.bind.specs.Reading.{without, is_refused, binding_at, continued, Kept, Roomy};

use forest::RECORD;
use parameters::Counted;
use soundness::kinds;
use table::{MOST_NODES, Refusal};

// What an argument reaches: it fills the ordinary parameter of a flat index, it joins what a star parameter collects,
// or no parameter takes it.
#[derive(Clone, Copy)]
pub enum Reach {
    Fills(u32),
    Joins(u32),
    Nowhere,
}

// The answer of the job: the flat count and the number of arguments, or a refusal.
#[derive(Clone, Copy)]
pub struct Bound {
    pub flat: u32,
    pub many: u32,
}

// Room for the words of every binding: a word for each flat parameter and for each argument.
const MOST_WORDS: usize = 2 * MOST_NODES;

// Binds the call and the def at two nodes. Returns the flat count and the number of arguments, with a word for each
// flat parameter and for each argument at the front of the list; or a refusal: 1 to 4, 6, 7, 10 to 19, 20 to 24, 80 to
// 84.
pub fn bind(
    table: &[u8],
    names: &[u8],
    call: usize,
    def: usize,
    list: &mut [u32],
) -> Result<Bound, Refusal>
    ensures result_value { bound result ≡
        bind_of table.now names.now call def (length list.old) }
    ensures list_after { list.new ≡
        list_after table.now names.now call def list.old }
{
    let ruled = checks::rules(table, names, call, def, list.len());
    // no `?`: the wrong answer refused_told_as_bound is about the second arm
    match ruled {
        Ok(c) => bind_kept(table, names, call, def, c, list),
        Err(why) => Err(why),
    }
}

// Whether a node is a Def of the table.
pub fn is_def(table: &[u8], node: usize) -> bool
    ensures { result ≡ is_def table.now node }
{
    if table.len() / RECORD <= node {
        return false;
    }
    let a = RECORD * node;
    forest::kind(&table[a..]) == kinds::DEF
}

// The words of the call and the def at two nodes: 80 to 84, or writes all of them.
fn fill_words(
    table: &[u8],
    names: &[u8],
    call: usize,
    def: usize,
    c: Counted,
    words: &mut [u32],
) -> Result<(), Refusal>
    requires { Kept table.now names.now call def c }
    ensures { stored result words.new ≡
        binding_at c table.now names.now call def words.old }
{
    let params = deflist::children(table::stretch(table, def));
    let t = table::stretch(table, call);
    walk::fill(
        names,
        params,
        def + 1,
        entries::behind_callee(t),
        entries::first_argument(t, call),
        c,
        words,
    )
}

// Whether a check refuses.
fn is_refused(found: Result<(), Refusal>) -> bool
    ensures { result ≡ is_refused found }
{
    match found {
        Ok(()) => false,
        Err(_) => true,
    }
}

// Binds a call and a def that keep their own rules, in a part of `space`: 80 to 84, or writes the words to the front of
// the list.
fn lay(
    table: &[u8],
    names: &[u8],
    call: usize,
    def: usize,
    c: Counted,
    words: &mut [u32],
    list: &mut [u32],
) -> Result<(), Refusal>
    requires kept { Kept table.now names.now call def c }
    requires words_len { length words.old ≡ c.flat + length (arguments_at table.now names.now call) }
    requires words_in_bounds { length words.old ≤ length list.old }
    ensures result_value { checked result ≡ without (continued (Ok c) table.now names.now call def) }
    ensures list_after { list.new ≡
        laid (continued (Ok c) table.now names.now call def) list.old }
{
    words::clear(words);
    let found = fill_words(table, names, call, def, c, words);
    if is_refused(found) {
        return found;
    }
    words::write(words, list);
    found
}

// The answer for the check of the binding.
fn answer(found: Result<(), Refusal>, flat: u32, many: u32) -> Result<Bound, Refusal>
    ensures { bound result ≡ answered (checked found) flat many }
{
    found?;
    Ok(Bound { flat, many })
}

// Binds a call and a def that keep their own rules, with `space` for the words.
fn bind_in(
    table: &[u8],
    names: &[u8],
    call: usize,
    def: usize,
    c: Counted,
    space: &mut [u32],
    list: &mut [u32],
) -> Result<Bound, Refusal>
    requires kept { Kept table.now names.now call def c }
    requires roomy { Roomy table.now names.now call def (length list.old) }
    requires most_nodes_in_bounds { 2 * most_nodes ≤ length space.old }
    ensures result_value { bound result ≡
        answered_at (continued (Ok c) table.now names.now call def)
        table.now names.now call def }
    ensures list_after { list.new ≡
        laid (continued (Ok c) table.now names.now call def) list.old }
{
    let many = entries::argument_count(table, call);
    let n = (c.flat as usize) + many;
    let found = lay(table, names, call, def, c, &mut space[0..n], list);
    answer(found, c.flat, many as u32)
}

// The same with space for the words of any binding.
fn bind_kept(
    table: &[u8],
    names: &[u8],
    call: usize,
    def: usize,
    c: Counted,
    list: &mut [u32],
) -> Result<Bound, Refusal>
    requires kept { Kept table.now names.now call def c }
    requires roomy { Roomy table.now names.now call def (length list.old) }
    ensures result_value { bound result ≡
        answered_at (continued (Ok c) table.now names.now call def)
        table.now names.now call def }
    ensures list_after { list.new ≡
        laid (continued (Ok c) table.now names.now call def) list.old }
{
    let mut space = [0u32; MOST_WORDS];
    let words: &mut [u32] = &mut space;
    bind_in(table, names, call, def, c, words, list)
}
