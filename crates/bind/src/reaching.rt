// Which parameter an argument reaches: a positional one by its place, a named one by its name.
ghost use Rattle.std.specs.Prelude.{◌≡◌, ◌&&◌, ℕ, ◌≤◌, length};
ghost use Rattle.forest.specs.Forest.{node_of};
ghost use Rattle.forest.specs.Names.{name_of, same};
ghost use Rattle.table.specs.Check.{most_bytes};
ghost use Rattle.deflist.specs.Unpack.{seen_slash};
ghost use Rattle.arguments.specs.Written.{argument_of};
ghost use Rattle.bind.specs.Binding.{named_from, collected as collected_of, by_place, by_name, reaches as reaches_of};
ghost use Rattle.bind.specs.Reading.{nameable as nameable_of, flats_of};
ghost use Rattle.bind.specs.Reading.{flats_in};

use crate::Reach;
use deflist::{Flat, Kind, Params, State, entry, states};
use forest::Nodes;
use parameters::DefParamIndices;
use soundness::kinds;

// Whether a parameter of a kind can be called by its name, in this state.
fn nameable(state: State, kind: Kind) -> bool
    ensures { result ≡ nameable_of state kind }
{
    match kind {
        Kind::Normal(_) => past_slash(state),
        Kind::NoArgs => false,
        Kind::Slash => false,
        Kind::Args => false, // the name of `*args` is not called
        Kind::KwArgs => false,
    }
}

// state >= SeenSlash
fn past_slash(state: State) -> bool
    ensures { result ≡ seen_slash state }
{
    match state {
        State::Normal => false,
        State::SeenSlash => true,
        State::SeenStar => true,
        State::SeenStarStar => true,
    }
}

// The number of flat parameters of one of a kind: 0 for a mark, else 1.
pub(crate) fn flats_of(kind: Kind) -> u32
    ensures { (result ≡ flats_of kind) × (result ≤ 1) }
{
    match kind {
        Kind::Normal(_) => 1,
        Kind::NoArgs => 0,
        Kind::Slash => 0,
        Kind::Args => 1,
        Kind::KwArgs => 1,
    }
}

// Whether the first parameter of a stretch can be called by this name.
fn takes(names: &[u8], name: &[u8], t: &[u8], state: State, kind: Kind) -> bool
    ensures { result ≡
        (nameable_of state kind
        && same (name_of names.now (node_of 0 t.now)) name.now) }
{
    if !nameable(state, kind) {
        return false;
    }
    forest::names::same_bytes(forest::names::name(names, t), name)
}

// The flat index of the parameter that can be called by this name; the first `only` are positional only.
fn find(names: &[u8], name: &[u8], params: &[u8], only: u32) -> Option<u32>
    requires { length params.now ≤ most_bytes }
    ensures { (i : ℕ) → result ≡
        named_from 0 name.now (flats_in only names.now i params.now) }
{
    let mut state = states::first_state(Flat(only as usize));
    let mut flat = 0;
    for (_, left) in (Params {
        nodes: Nodes {
            at: 0,
            left: params,
        },
    }) {
        let kind = entry::kind_of(left);
        if takes(names, name, left, state, kind) {
            return Some(flat);
        }
        flat += flats_of(kind);
        state = states::next_state(state, kind);
    }
    None
}

// What a star parameter collects.
fn collected(place: Option<u32>) -> Reach
    ensures { result ≡ collected_of place }
{
    match place {
        Some(i) => Reach::Joins(i),
        None => Reach::Nowhere,
    }
}

// What positional argument k reaches.
fn by_place(d: DefParamIndices, k: u32) -> Reach
    ensures { result ≡ by_place d k }
{
    if k < d.num_positional {
        return Reach::Fills(k);
    }
    let args = d.args;
    collected(args)
}

// What a named argument reaches, by the parameter that is called so.
fn by_name(found: Option<u32>, kwargs: Option<u32>) -> Reach
    ensures { result ≡ by_name found kwargs }
{
    match found {
        Some(i) => Reach::Fills(i),
        None => collected(kwargs),
    }
}

// What argument k reaches; it is the first argument of the stretch.
pub(crate) fn reaches(names: &[u8], params: &[u8], d: DefParamIndices, k: u32, t: &[u8]) -> Reach
    requires { length params.now ≤ most_bytes }
    ensures { (i j : ℕ) → result ≡
        reaches_of d (flats_in d.num_positional_only names.now i params.now) k
        (argument_of names.now (node_of j t.now)) }
{
    match forest::kind(t) {
        kinds::POSITIONAL => by_place(d, k),
        kinds::NAMED => {
            let kwargs = d.kwargs;
            let name = forest::names::name(names, t);
            by_name(find(names, name, params, d.num_positional_only), kwargs)
        }
        _ => Reach::Nowhere,
    }
}
