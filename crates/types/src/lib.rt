// Types: the type rule and the argument rule on a node of a table, judged with no buffer.
//
// Ported from src/syntax/type_expr.rs (TypeExprUnpackP::unpack) and src/syntax/grammar_util.rs (dialect_check_type) of
// starlark_syntax 0.14.2, and changed: a type is a stretch of the node table, and its first refusal is the answer.
// Copyright 2018 The Starlark in Rust Authors. Copyright (c) Facebook, Inc. and its affiliates.
// Licensed under Apache-2.0.
#![tactic(auto)]

pub mod forms;
mod judging;
mod paths;

ghost use Rattle.std.specs.Prelude.{◌≡◌, []};
ghost use Rattle.forest.specs.Forest.{node_of, tree_of};
ghost use Rattle.table.specs.Numbers.{invalid_type};
ghost use Rattle.table.specs.Answer.{accepted, and_then, refused_at};
ghost use Rattle.table.specs.Check.{check_of};
ghost use Rattle.table.specs.Check.{Headed, headed_of};
ghost use Rattle.types.specs.Types.{types_check, dialect_check_type};
ghost use Rattle.types.specs.Jobs.{shaped, type_at, type_shape_of};

use dialect::{Dialect, DialectTypes, Edition};
use forest::RECORD;
use table::{Refusal, Wanted, numbers};

// The forms of a type, by the kind of its node.
#[derive(Clone, Copy)]
pub enum Form {
    Ellipsis,
    Path,
    Index,
    Index2,
    List,
    Union,
    Tuple,
    Other,
}

// How a child is read: not at all, as a type, or as an argument of an Index2.
#[derive(Clone, Copy)]
pub enum How {
    Unread,
    AsType,
    AsArgument,
}

// How the children of a type are read: the first, and the others.
#[derive(Clone, Copy)]
pub struct Reads {
    pub first: How,
    pub others: How,
}

// Whether a node is a type in a dialect and an edition, which is given by its number; room is the size of the buffer
// for the shapes.
pub fn judge(
    table: &[u8],
    names: &[u8],
    dialect: &[u8],
    edition: u32,
    node: usize,
    room: usize,
) -> Result<(), Refusal>
    ensures { shaped result ≡
        type_shape_of table.now names.now dialect.now edition node room }
{
    let (d, e) = table::enter_rules(table, names, dialect, dialect::edition_of(edition))?;
    type_at(e, table, names, d.enable_types, node, room)
}

// The type at the start of t, in a dialect and an edition, for callers that have checked the table. The first record of
// t has the index node. Any bytes are accepted; if they are not part of a table, none is read.
pub fn judge_type(
    names: &[u8],
    d: Dialect,
    edition: Edition,
    t: &[u8],
    node: u32,
) -> Result<(), Refusal>
    ensures { shaped result ≡ dialect_check_type edition names.now d.enable_types
        (tree_of node (headed_of node t.now)) }
{
    let types = d.enable_types;
    if !table::is_headed(t, node) {
        return no_type(types, &t[0..0], node);
    }
    dialect_check_type(edition, names, types, t, node as usize)
}

// The refusal where no type can be read: 45, else 40, at the node.
fn no_type(types: DialectTypes, none: &[u8], node: u32) -> Result<(), Refusal>
    ensures { shaped result ≡ and_then (types_check types (node_of node none.now))
        (λ _. refused_at invalid_type (node_of node none.now)) }
{
    if !dialect::permits_types(types) {
        return Err(table::refused_at(numbers::TYPES_DISABLED, node, none));
    }
    Err(table::refused_at(numbers::INVALID_TYPE, node, none))
}

// The type job on a node of a sound table, in an edition and a dialect with these types.
fn type_at(
    edition: Edition,
    table: &[u8],
    names: &[u8],
    types: DialectTypes,
    node: usize,
    room: usize,
) -> Result<(), Refusal>
    requires { accepted [] ≡ check_of table.now names.now }
    ensures { shaped result ≡ type_at edition table.now names.now types node room }
{
    if !table::node_fits(table, node, Wanted::Expression) {
        return Err(Refusal::Bare(numbers::WRONG_NODE));
    }
    let t = table::stretch(table, node);
    if room < t.len() / RECORD {
        return Err(Refusal::Bare(numbers::SHORT_BUFFER));
    }
    dialect_check_type(edition, names, types, t, node)
}

// The type at the start of t, in an edition and a dialect with these types.
fn dialect_check_type(
    edition: Edition,
    names: &[u8],
    types: DialectTypes,
    t: &[u8],
    node: usize,
) -> Result<(), Refusal>
    requires { Headed node t.now }
    ensures { shaped result ≡
        dialect_check_type edition names.now types (tree_of node t.now) }
{
    if !dialect::permits_types(types) {
        return Err(table::refused_at(numbers::TYPES_DISABLED, node as u32, t));
    }
    judging::unpack(edition, names, t, node)
}
