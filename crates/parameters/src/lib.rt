// The parameters job: the parameter list of a def or lambda in a table, its five ranges, and the mode of each
// parameter.
//
// Ported from src/syntax/def.rs of starlark_syntax 0.14.2, and changed: the flat list is a buffer of mode bytes,
// written once the list is accepted.
// Copyright 2018 The Starlark in Rust Authors. Copyright (c) Facebook, Inc. and its affiliates.
// Licensed under Apache-2.0.
#![tactic(auto)]

pub mod indices;

ghost use Rattle.std.specs.Prelude.{◌≡◌, true, ◌+◌, ◌<◌, ◌^◌, length};
ghost use Rattle.std.proofs.lemmas.List.Edits.{sets};
ghost use Rattle.forest.specs.Forest.{node_of};
ghost use Rattle.table.specs.Answer.{refusal as refusal_of};
ghost use Rattle.table.specs.Check.{Headed};
ghost use Rattle.deflist.specs.Written.{written};
ghost use Rattle.deflist.specs.Reading.{NotPast, PlaceBelow, Bounded};
ghost use Rattle.deflist.specs.declared.Kind.TheVariants.{Normal};
ghost use Rattle.parameters.specs.Indices.{place_of, counted_of};
ghost use Rattle.parameters.specs.Params.{unpacked, params_of, modes_after};
ghost use Rattle.parameters.specs.Writing.{is_refused, first_of, earlier_place, fault_answer, SmallFault};
ghost use Rattle.parameters.specs.Writing.{judged_answer, Small};
ghost use Rattle.parameters.specs.Writing.{mode_byte, mode_in};
ghost use Rattle.parameters.specs.Writing.{AtMost, Modes, Kept, Leaves};

use deflist::{Counts, Fault, Flat, Kind, Params, State, entry, list, states};
use forest::Nodes;
use table::{Refusal, Wanted, numbers};

// The sizes and indices that split the flat list into its parts, as the crate has them.
#[derive(Clone, Copy)]
pub struct DefParamIndices {
    pub num_positional: u32,
    pub num_positional_only: u32,
    pub args: Option<u32>,
    pub kwargs: Option<u32>,
}

// DefParamIndices and the flat count.
#[derive(Clone, Copy)]
pub struct Counted {
    pub indices: DefParamIndices,
    pub flat: u32,
}

// The indices from `from` to before `upto`.
#[derive(Clone, Copy)]
pub struct Range {
    pub from: usize,
    pub upto: usize,
}

// Checks the parameter list of the def or lambda at a node. Returns its ranges and flat count, with the modes at the
// front of the buffer; or a refusal: 1 to 4, 6, 7, 10 to 19.
pub fn params(table: &[u8], names: &[u8], node: usize, modes: &mut [u8]) -> Result<Counted, Refusal>
    ensures result_value { unpacked result ≡
        params_of table.now names.now node (length modes.old) }
    ensures modes_after { modes.new ≡
        modes_after table.now names.now node modes.old }
{
    table::enter(table, names, node, Wanted::Parameters)?;
    unpack_into(names, table::stretch(table, node), node as u32, modes)
}

// 7, then the answer for the list of the node whose subtree is the stretch. The modes are written once the list is
// accepted.
fn unpack_into(names: &[u8], t: &[u8], node: u32, modes: &mut [u8]) -> Result<Counted, Refusal>
    requires { Headed node t.now }
    ensures { Leaves (node_of node t.now) (written names.now node t.now)
        modes.old (unpacked result) modes.new }
{
    let kids = deflist::children(t);
    if list::has_more(kids, modes.len()) {
        return Err(Refusal::Bare(numbers::SHORT_BUFFER));
    }
    let judged = deflist::judge(names, t, node);
    write_accepted(kids, judged, modes);
    answer(judged)
}

// Writes the modes of a list that unpack accepts.
fn write_accepted(kids: &[u8], judged: Result<Counts, Fault>, modes: &mut [u8])
    requires { AtMost kids.now (length modes.old) }
    ensures { Kept kids.now judged modes.old modes.new }
{
    if is_refused(judged) {
        return;
    }
    write_modes(kids, first_of(judged), modes);
}

// Whether unpack refuses a list.
fn is_refused(judged: Result<Counts, Fault>) -> bool
    ensures { result ≡ is_refused judged }
{
    match judged {
        Ok(_) => false,
        Err(_) => true,
    }
}

// The state in which an accepted list begins.
fn first_of(judged: Result<Counts, Fault>) -> State
    ensures { result ≡ first_of judged }
{
    match judged {
        Ok(c) => {
            let only = c.num_positional_only;
            states::first_state(only)
        }
        Err(_) => State::SeenSlash,
    }
}

// The answer of the job for a result of unpack.
fn answer(judged: Result<Counts, Fault>) -> Result<Counted, Refusal>
    requires { Small judged }
    ensures { unpacked result ≡ judged_answer judged }
{
    match judged {
        Ok(c) => Ok(numbered(c)),
        Err(f) => Err(refusal(f)),
    }
}

// The mode of an ordinary parameter: 1 PosOnly, 2 PosOrName, 3 NameOnly.
fn normal_mode(state: State) -> u8
    ensures { result ≡ mode_byte state (Normal true) }
{
    match state {
        State::Normal => 1,
        State::SeenSlash => 2,
        State::SeenStar => 3,
        State::SeenStarStar => 3,
    }
}

// The mode of a parameter, 4 Args and 5 Kwargs; 0 for a mark.
fn mode(state: State, kind: Kind) -> u8
    ensures { result ≡ mode_byte state kind }
{
    match kind {
        Kind::Normal(_) => normal_mode(state),
        Kind::NoArgs => 0,
        Kind::Slash => 0,
        Kind::Args => 4,
        Kind::KwArgs => 5,
    }
}

// Writes the mode of a flat parameter at its index and returns the next index. For a mark it writes nothing and returns
// the same index.
fn put(modes: &mut [u8], flat: Flat, mode: u8) -> Flat
    requires { flat.0 < length modes.old }
    ensures result_value { result.0 ≡ flat.0 + length (mode_in mode) }
    ensures modes_after { modes.new ≡ sets modes.old flat.0 (mode_in mode) }
{
    if mode == 0 {
        return flat;
    }
    let at = flat.0;
    modes[at] = mode;
    Flat(at + 1)
}

// Writes the modes of a list to the front of the buffer; the list begins in this state.
fn write_modes(kids: &[u8], first: State, modes: &mut [u8])
    requires { AtMost kids.now (length modes.old) }
    ensures { Modes kids.now first modes.old modes.new }
{
    let mut state = first;
    let mut flat = Flat(0);
    for (_, left) in (Params {
        nodes: Nodes { at: 0, left: kids },
    }) {
        let kind = entry::kind_of(left);
        flat = put(modes, flat, mode(state, kind));
        state = states::next_state(state, kind);
    }
}

// A count as the crate keeps it.
fn number(n: Flat) -> u32
    requires { n.0 < 2 ^ 32 }
    ensures { result ≡ n.0 }
{
    n.0 as u32
}

fn place_of(p: Option<Flat>) -> Option<u32>
    requires { PlaceBelow 4294967295 p }
    ensures { result ≡ place_of p }
{
    match p {
        Some(i) => Some(number(i)),
        None => None,
    }
}

// DefParamIndices and the flat count.
fn numbered(c: Counts) -> Counted
    requires { Bounded 4294967295 4294967295 c }
    ensures { result ≡ counted_of c }
{
    let positional = c.num_positional;
    let only = c.num_positional_only;
    let args = c.args;
    let kwargs = c.kwargs;
    let flat = c.flat;
    Counted {
        indices: DefParamIndices {
            num_positional: number(positional),
            num_positional_only: number(only),
            args: place_of(args),
            kwargs: place_of(kwargs),
        },
        flat: number(flat),
    }
}

// The earlier node of a refusal, as the table has it.
fn earlier_place(found: Option<usize>) -> Option<u32>
    requires { NotPast 4294967295 found }
    ensures { result ≡ earlier_place found }
{
    match found {
        Some(i) => Some(i as u32),
        None => None,
    }
}

// A refusal at a parameter.
fn refusal(f: Fault) -> Refusal
    requires { SmallFault f }
    ensures { refusal_of result ≡ fault_answer f }
{
    let span = f.span;
    let earlier = f.earlier;
    table::refused_in(f.number, f.node as u32, span, earlier_place(earlier))
}
