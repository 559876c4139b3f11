// The binding of two lists: 80, then the arguments in turn with 81, 82 and 83, then 84.
ghost use Rattle.std.specs.Prelude.{◌≡◌, List, ℕ, ◌≤◌, length};
ghost use Rattle.forest.specs.Forest.{node_of, forest};
ghost use Rattle.table.specs.Answer.{and_then, checked};
ghost use Rattle.table.specs.Check.{most_bytes};
ghost use Rattle.deflist.specs.Written.{params_in};
ghost use Rattle.deflist.specs.declared.State.{State as StateType};
ghost use Rattle.arguments.specs.Written.{kind_at, arguments_in};
ghost use Rattle.bind.specs.FlatList.{flats_from};
ghost use Rattle.bind.specs.Binding.{unreached as unreached_of, turn as turn_of, along as along_of, is_star};
ghost use Rattle.bind.specs.Binding.{star_check, empty_check, binding};
ghost use Rattle.bind.specs.Reading.{Behind, is_empty};
ghost use Rattle.bind.specs.Reading.{flats_in, stored};
ghost use Rattle.bind.specs.declared.Reach.TheVariants.{Fills};

use crate::{Reach, reaching, words};
use deflist::{Kind, Params, entry};
use forest::Nodes;
use parameters::{Counted, DefParamIndices};
use soundness::kinds;
use table::{Refusal, numbers};

// Whether the first argument of a stretch is a star or a `**`.
fn is_star(t: &[u8]) -> bool
    ensures { result ≡ is_star (kind_at (node_of 0 t.now).kind) }
{
    match forest::kind(t) {
        kinds::POSITIONAL => false,
        kinds::NAMED => false,
        kinds::ARGS_ARG => true,
        _ => true,
    }
}

// 80 (a star or `**` argument); `first` is the node of the first argument.
fn first_star(args: &[u8], first: usize) -> Result<(), Refusal>
    requires { Behind first args.now }
    ensures { (names : List ℕ) → checked result ≡
        star_check (arguments_in names (forest first args.now)) }
{
    for (at, left) in (Nodes {
        at: first,
        left: args,
    }) {
        if is_star(left) {
            return Err(table::refused_at(numbers::STAR_ARGUMENT, at as u32, left));
        }
    }
    Ok(())
}

// The number of an argument that reaches no parameter.
fn unreached(t: &[u8]) -> u32
    ensures { result ≡ unreached_of (kind_at (node_of 0 t.now).kind) }
{
    match forest::kind(t) {
        kinds::POSITIONAL => numbers::TOO_MANY_POSITIONAL,
        kinds::NAMED => numbers::UNKNOWN_NAMED,
        kinds::ARGS_ARG => numbers::STAR_ARGUMENT,
        _ => numbers::STAR_ARGUMENT,
    }
}

// An argument fills an ordinary parameter: 83 if the parameter is filled, else writes both words.
fn filling(i: u32, at: u32, t: &[u8], place: usize, words: &mut [u32]) -> Result<(), Refusal>
    ensures { stored result words.new ≡
        turn_of place (Fills i) (kind_at (node_of 0 t.now).kind) (node_of at t.now)
        words.old }
{
    if 0 < words::word(words, i as usize) {
        return Err(table::refused_at(numbers::ALREADY_FILLED, at, t));
    }
    words::store(words, i as usize, at);
    words::store(words, place, i);
    Ok(())
}

// The turn of the first argument of a stretch, whose own word is at `place`: 81, 82, 83, or writes its words.
fn turn(reach: Reach, at: u32, t: &[u8], place: usize, words: &mut [u32]) -> Result<(), Refusal>
    ensures { stored result words.new ≡
        turn_of place reach (kind_at (node_of 0 t.now).kind) (node_of at t.now)
        words.old }
{
    match reach {
        Reach::Fills(i) => filling(i, at, t, place, words),
        Reach::Joins(i) => {
            words::store(words, place, i);
            Ok(())
        }
        Reach::Nowhere => Err(table::refused_at(unreached(t), at, t)),
    }
}

// The arguments in turn, the first of which is the node `first`; `flat` is the flat count: 81, 82, 83, or writes their
// words. The count of the arguments is a u32, as the words are: the index of `enumerate` would be cast at each turn.
fn along(
    names: &[u8],
    params: &[u8],
    args: &[u8],
    first: usize,
    flat: u32,
    d: DefParamIndices,
    words: &mut [u32],
) -> Result<(), Refusal>
    requires { Behind first args.now × (length params.now ≤ most_bytes) }
    ensures { (i : ℕ) → stored result words.new ≡
        along_of flat d (flats_in d.num_positional_only names.now i params.now) 0
        words.old (arguments_in names.now (forest first args.now)) }
{
    let mut k = 0;
    for (at, left) in (Nodes {
        at: first,
        left: args,
    }) {
        let r = reaching::reaches(names, params, d, k, left);
        turn(r, at as u32, left, (flat as usize) + (k as usize), words)?;
        k += 1;
    }
    Ok(())
}

// Whether a parameter of a kind must not stay empty, and its word says that it is empty.
fn is_empty(kind: Kind, w: u32) -> bool
    ensures { result ≡ is_empty kind w }
{
    match kind {
        Kind::Normal(default) => !default & (w == 0),
        Kind::NoArgs => false,
        Kind::Slash => false,
        Kind::Args => false,
        Kind::KwArgs => false,
    }
}

// 84 (an ordinary parameter left empty); `first` is the node of the first parameter.
fn first_empty(params: &[u8], first: usize, words: &[u32]) -> Result<(), Refusal>
    requires { Behind first params.now }
    ensures { (names : List ℕ) (s : StateType) → checked result ≡
        empty_check 0 (flats_from s (params_in names (forest first params.now))) words.now }
{
    let mut flat = 0;
    for (at, left) in (Params {
        nodes: Nodes {
            at: first,
            left: params,
        },
    }) {
        let kind = entry::kind_of(left);
        if is_empty(kind, words::word(words, flat as usize)) {
            return Err(table::refused_at(numbers::EMPTY_PARAMETER, at as u32, left));
        }
        flat += reaching::flats_of(kind);
    }
    Ok(())
}

// The first of two checks that refuses.
fn first_of(a: Result<(), Refusal>, b: Result<(), Refusal>) -> Result<(), Refusal>
    ensures { checked result ≡ and_then (checked a) (λ _. checked b) }
{
    a?;
    b
}

// 80, then 81 to 83, then 84, or writes all words; `param` and `first` are the nodes of the first parameter and
// argument.
pub(crate) fn fill(
    names: &[u8],
    params: &[u8],
    param: usize,
    args: &[u8],
    first: usize,
    c: Counted,
    words: &mut [u32],
) -> Result<(), Refusal>
    requires { Behind first args.now × Behind param params.now × (1 ≤ param) }
    ensures { stored result words.new ≡
        binding c (flats_in c.indices.num_positional_only names.now param params.now)
        words.old (arguments_in names.now (forest first args.now)) }
{
    let d = c.indices;
    let starred = first_star(args, first);
    let walked = along(names, params, args, first, c.flat, d, words);
    let empty = first_empty(params, param, words);
    first_of(starred, first_of(walked, empty))
}
