// The two lists of a binding: the parameters of a def and the arguments of a call, and their lengths.
ghost use Rattle.std.specs.Prelude.{◌≡◌, List, ℕ, ◌+◌, ◌*◌, ◌/◌, ◌≤◌, length};
ghost use Rattle.forest.specs.Forest.{record_bytes, span_of, kids_of, forest};
ghost use Rattle.table.specs.Check.{Within};
ghost use Rattle.deflist.specs.Written.{params_in};
ghost use Rattle.parameters.specs.Params.{list_of};
ghost use Rattle.arguments.specs.Written.{arguments_in};
ghost use Rattle.bind.specs.Job.{arguments_at};
ghost use Rattle.bind.specs.Reading.{behind_callee};

use deflist::Params;
use forest::{Nodes, RECORD};

// The arguments of the first call of a stretch: what follows its callee.
pub(crate) fn behind_callee(t: &[u8]) -> &[u8]
    ensures { result.now ≡ behind_callee t.now }
{
    let kids = deflist::children(t);
    let e = forest::span(kids);
    &kids[e..]
}

// The node of the first argument.
pub(crate) fn first_argument(t: &[u8], call: usize) -> usize
    requires { Within call t.now }
    ensures { result ≡ call + 1 + span_of (kids_of t.now) / record_bytes }
{
    call + 1 + forest::span(deflist::children(t)) / RECORD
}

// The number of parameters of a list, marks counted.
fn written(params: &[u8]) -> usize
    ensures by_index { (names : List ℕ) (i : ℕ) → result ≡ length (params_in names (forest i params.now)) }
    ensures result_in_bounds { record_bytes * result ≤ length params.now }
{
    let nodes = Nodes {
        at: 0,
        left: params,
    };
    Params { nodes }.count()
}

// The number of arguments.
fn count(args: &[u8]) -> usize
    ensures by_index { (names : List ℕ) (i : ℕ) → result ≡ length (arguments_in names (forest i args.now)) }
    ensures result_in_bounds { record_bytes * result ≤ length args.now }
{
    Nodes { at: 0, left: args }.count()
}

// The number of parameters of the def at a node, marks counted.
pub(crate) fn parameter_count(table: &[u8], def: usize) -> usize
    ensures by_index { (names : List ℕ) → result ≡ length (list_of table.now names def) }
    ensures result_in_bounds { record_bytes * result ≤ length table.now }
{
    written(deflist::children(table::stretch(table, def)))
}

// The number of arguments of the call at a node.
pub(crate) fn argument_count(table: &[u8], call: usize) -> usize
    ensures by_index { (names : List ℕ) → result ≡ length (arguments_at table.now names call) }
    ensures result_in_bounds { record_bytes * result ≤ length table.now }
{
    count(behind_callee(table::stretch(table, call)))
}
