// The parameter list of a def or lambda, read as DefParams::unpack reads it. Every public function takes any bytes.
//
// Ported from src/syntax/def.rs of starlark_syntax 0.14.2, and changed: the list is a stretch of the node table, names
// are compared instead of hashed, and the modes are left to the job.
// Copyright 2018 The Starlark in Rust Authors. Copyright (c) Facebook, Inc. and its affiliates.
// Licensed under Apache-2.0.
#![tactic(auto)]

pub mod entry;
pub mod list;
mod rules;
pub mod states;
mod walk;

ghost use Rattle.std.specs.Prelude.{◌≡◌, ◌+◌, ◌/◌, length};
ghost use Rattle.std.specs.Iterator.{at_most};
ghost use Rattle.forest.specs.Forest.{record_bytes, node_of, kids_of};
ghost use Rattle.deflist.specs.Written.{written};
ghost use Rattle.deflist.specs.Unpack.{unpack};
ghost use Rattle.deflist.specs.Limited.{limited};
ghost use Rattle.deflist.specs.Told.{told};
ghost use Rattle.deflist.specs.Reading.{Inside, Says};

use forest::{Nodes, RECORD, marks};
use table::{Span, numbers};

// The most entries of a list, marks counted.
pub const MOST_PARAMETERS: usize = 48;

// The state of unpack: how far it is in the list, in this order.
#[derive(Clone, Copy)]
pub enum State {
    Normal,
    SeenSlash, // after `/`, or there is none
    SeenStar, // after `*` or `*args`
    SeenStarStar, // after `**kwargs`
}

// A parameter's kind, and whether a Normal has a default.
#[derive(Clone, Copy)]
pub enum Kind {
    Normal(bool),
    NoArgs,
    Slash,
    Args,
    KwArgs,
}

// A position in the written list, marks counted.
#[derive(Clone, Copy)]
pub struct Written(pub usize);

// An index in the flat list, marks omitted.
#[derive(Clone, Copy)]
pub struct Flat(pub usize);

// What unpack counts in the flat list, and its length.
#[derive(Clone, Copy)]
pub struct Counts {
    pub num_positional: Flat,
    pub num_positional_only: Flat,
    pub args: Option<Flat>,
    pub kwargs: Option<Flat>,
    pub flat: Flat,
}

// The parameters at the front of the nodes side by side in a stretch, each as Nodes gives it.
#[derive(Clone, Copy)]
pub struct Params<'a> {
    pub nodes: Nodes<'a>,
}

impl<'a> Iterator for Params<'a> {
    ghost use Rattle.deflist.specs.Params.{NextParam};

    type Item = (usize, &'a [u8]);

    ghost next_gives = { NextParam };

    ghost remaining = { λ s. at_most (length s.nodes.left.now / record_bytes) };

    #[inline(always)]
    fn next(&mut self) -> Option<(usize, &'a [u8])> {
        if !entry::listed(self.nodes.left) {
            return None;
        }
        self.nodes.next()
    }
}

// All that unpack keeps from one parameter to the next.
#[derive(Clone, Copy)]
pub struct Unpacking {
    pub state: State,
    pub seen_optional: bool,
    pub index_of_star: Option<Written>,
    pub counts: Counts,
}

// The result of checking one parameter: fine, the number of a refusal, or 11 with the node of the earlier parameter.
#[derive(Clone, Copy)]
pub enum Check {
    Fine,
    Broken(u32),
    Repeated(usize),
}

// A refusal at a parameter: its number, its node and its span, and for 11 the node of the earlier parameter.
#[derive(Clone, Copy)]
pub struct Fault {
    pub number: u32,
    pub node: usize,
    pub span: Span,
    pub earlier: Option<usize>,
}

// The children of the first node of a stretch.
pub fn children(t: &[u8]) -> &[u8]
    ensures { result.now ≡ kids_of t.now }
{
    let e = forest::span(t);
    if e < RECORD {
        return &t[0..0];
    }
    &t[RECORD..e]
}

// The written list of the node whose subtree is the stretch: 19 at that node if the list has more than MOST_PARAMETERS
// entries, else what DefParams::unpack counts, or its first refusal.
pub fn judge(names: &[u8], t: &[u8], node: u32) -> Result<Counts, Fault>
    ensures value { result ≡
        told (limited (node_of node t.now) (written names.now node t.now)) }
    ensures inside { Inside (node + 1 + length t.now / record_bytes) result }
{
    if list::has_more(children(t), MOST_PARAMETERS) {
        return Err(walk::fault(numbers::TOO_MANY_PARAMETERS, node as usize, t, None));
    }
    if marks::SHORT <= forest::span(t) {
        return with_marks(names, t, node);
    }
    let mut none = [0u8; 1];
    walk::judge(names, t, node, &mut none[0..0])
}

// The same with marks of the names. A list of at most MOST_PARAMETERS entries needs only SOME of them.
fn with_marks(names: &[u8], t: &[u8], node: u32) -> Result<Counts, Fault>
    ensures { Says (unpack (written names.now node t.now))
        (node + 1 + length t.now / record_bytes) result }
{
    let mut noted = [0u8; marks::SOME];
    walk::judge(names, t, node, &mut noted)
}
