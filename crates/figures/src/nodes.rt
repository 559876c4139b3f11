// What is counted node by node: parameter lists, the modes of those that are accepted, and calls.
ghost use Rattle.std.specs.Prelude.{◌≡◌, [], ◌∷◌};
ghost use Rattle.forest.specs.Forest.{node_of, tree_of};
ghost use Rattle.table.specs.Answer.{accepted};
ghost use Rattle.table.specs.Check.{check_of, headed_of};
ghost use Rattle.deflist.specs.Written.{written};
ghost use Rattle.deflist.specs.Limited.{limited};
ghost use Rattle.deflist.specs.Told.{told};
ghost use Rattle.arguments.specs.Job.{call_answer};
ghost use Rattle.figures.specs.Adding.{added};
ghost use Rattle.figures.specs.Counting.{nodes_of};
ghost use Rattle.figures.specs.Walking.{places as places_of, Ranged, RangedIn, range_counts, judged_counts};
ghost use Rattle.figures.specs.Walking.{list_figures, call_figures, node_figures, nodes_figures, NodeIn};

use crate::{CALLS_ACCEPTED, CALLS_REFUSED, FIGURES, LISTS, MODES, sums};
use deflist::{Counts, Fault, Flat};
use forest::RECORD;
use soundness::kinds;

// The number of flat parameters of each mode in a list.
#[derive(Clone, Copy)]
pub struct Modes {
    pub pos_only: u64,
    pub pos_or_named: u64,
    pub named_only: u64,
    pub args: u64,
    pub kwargs: u64,
}

// Adds the figures of the nodes of a sound table.
pub(crate) fn add_nodes(table: &[u8], names: &[u8], count: usize, figures: &mut [u64; FIGURES])
    requires { (check_of table.now names.now ≡ accepted []) × (count ≡ nodes_of table.now) }
    ensures { figures.new ≡
        added figures.old (nodes_figures table.now names.now count) }
{
    for i in 0..count {
        add_node(table, names, i, figures);
    }
}

// Adds the figures of one node, by its kind.
fn add_node(table: &[u8], names: &[u8], i: usize, figures: &mut [u64; FIGURES])
    requires { NodeIn table.now names.now i }
    ensures { figures.new ≡
        added figures.old (node_figures table.now names.now i) }
{
    let a = RECORD * i;
    match forest::kind(&table[a..]) {
        kinds::DEF => add_list(names, table::stretch(table, i), i as u32, figures),
        kinds::LAMBDA => add_list(names, table::stretch(table, i), i as u32, figures),
        kinds::CALL => add_call(names, table::stretch(table, i), i as u32, figures),
        _ => {}
    }
}

// Adds the parameter list of the first node of a stretch.
fn add_list(names: &[u8], t: &[u8], node: u32, figures: &mut [u64; FIGURES])
    ensures { figures.new ≡ added figures.old
        (list_figures (told (limited (node_of node t.now) (written names.now node
        t.now)))) }
{
    sums::add(figures, LISTS, 1);
    let judged = deflist::judge(names, t, node);
    add_modes(modes_of(judged), figures);
}

// Adds the modes of a list.
fn add_modes(m: Modes, figures: &mut [u64; FIGURES])
    ensures { figures.new ≡ added figures.old
        (0 ∷ 0 ∷ 0 ∷ m.pos_only ∷ m.pos_or_named ∷ m.named_only ∷ m.args ∷ m.kwargs ∷ []) }
{
    sums::add(figures, MODES, m.pos_only);
    sums::add(figures, MODES + 1, m.pos_or_named);
    sums::add(figures, MODES + 2, m.named_only);
    sums::add(figures, MODES + 3, m.args);
    sums::add(figures, MODES + 4, m.kwargs);
}

// The modes of a list that is accepted; a refused one has none.
fn modes_of(judged: Result<Counts, Fault>) -> Modes
    requires { RangedIn judged }
    ensures { result.pos_only ∷ result.pos_or_named ∷ result.named_only ∷ result.args ∷ result.kwargs ∷ [] ≡
        judged_counts judged }
{
    match judged {
        Ok(c) => lengths(c),
        Err(_) => Modes {
            pos_only: 0,
            pos_or_named: 0,
            named_only: 0,
            args: 0,
            kwargs: 0,
        },
    }
}

// The lengths of the five ranges of an accepted list.
fn lengths(c: Counts) -> Modes
    requires { Ranged c }
    ensures { result.pos_only ∷ result.pos_or_named ∷ result.named_only ∷ result.args ∷ result.kwargs ∷ []
        ≡ range_counts c }
{
    let only = c.num_positional_only;
    let positional = c.num_positional;
    let flat = c.flat;
    let star = c.args;
    let star_star = c.kwargs;
    let args = places(star);
    let kwargs = places(star_star);
    Modes {
        pos_only: only.0 as u64,
        pos_or_named: (positional.0 - only.0) as u64,
        named_only: (flat.0 as u64) - ((positional.0 as u64) + args + kwargs),
        args: args,
        kwargs: kwargs,
    }
}

// The number of `*args` or of `**kwargs`: 0 or 1.
fn places(p: Option<Flat>) -> u64
    ensures { result ≡ places_of p }
{
    match p {
        Some(_) => 1,
        None => 0,
    }
}

// Adds the call that is the first node of a stretch.
fn add_call(names: &[u8], t: &[u8], node: u32, figures: &mut [u64; FIGURES])
    ensures { figures.new ≡ added figures.old
        (call_figures (call_answer names.now (tree_of node (headed_of node t.now)))) }
{
    let called = arguments::judge(names, t, node);
    match called {
        Ok(_) => sums::add(figures, CALLS_ACCEPTED, 1),
        Err(_) => sums::add(figures, CALLS_REFUSED, 1),
    }
}
