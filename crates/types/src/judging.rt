// The type rule and the argument rule: whether there is a type or an argument at the start of a part of the table, and
// the first refusal if not.
//
// Ported from src/syntax/type_expr.rs of starlark_syntax 0.14.2 (unpack, unpack_argument), and changed: a type is a
// stretch of the node table.
// Copyright 2018 The Starlark in Rust Authors. Copyright (c) Facebook, Inc. and its affiliates.
// Licensed under Apache-2.0.
ghost use Rattle.std.specs.Prelude.{◌≡◌, ◌+◌};
ghost use Rattle.forest.specs.Forest.{node_of, kids_of, tree_of, forest};
ghost use Rattle.soundness.specs.KindNumbers.{kind_list};
ghost use Rattle.table.specs.Check.{Headed};
ghost use Rattle.types.specs.Forms.{form_of};
ghost use Rattle.types.specs.Types.{index_base, index2_base, list_length, at_node};
ghost use Rattle.types.specs.Types.{«unpack», unpack_argument};
ghost use Rattle.types.specs.Jobs.{shaped};

use crate::{Form, How, forms, paths};
use dialect::Edition;
use forest::{Nodes, RECORD};
use soundness::kinds;
use table::{Refusal, numbers};

// The base of the Index at the start of t.
fn index_base(t: &[u8], node: usize) -> Result<(), Refusal>
    requires { Headed node t.now }
    ensures { shaped result ≡
        index_base (node_of node t.now) (forest (node + 1) (kids_of t.now)) }
{
    let e = forest::span(t);
    let k = &t[RECORD..e];
    if k.len() < RECORD {
        return Err(table::refused_at(numbers::INVALID_TYPE, node as u32, t));
    }
    if forest::kind(k) != kinds::IDENTIFIER {
        return Err(table::refused_at(numbers::INVALID_TYPE, node as u32, t));
    }
    Ok(())
}

// The base of the Index2 at the start of t.
fn index2_base(edition: Edition, names: &[u8], t: &[u8], node: usize) -> Result<(), Refusal>
    requires { Headed node t.now }
    ensures { shaped result ≡
        index2_base edition names.now (forest (node + 1) (kids_of t.now)) }
{
    let e = forest::span(t);
    let k = &t[RECORD..e];
    if k.len() < RECORD {
        return Ok(());
    }
    paths::unpack_path(edition, names, k, node + 1)
}

// The number of items of the List at the start of t: a type has two or more.
fn list_length(t: &[u8], node: usize) -> Result<(), Refusal>
    requires { Headed node t.now }
    ensures { shaped result ≡
        list_length (node_of node t.now) (forest (node + 1) (kids_of t.now)) }
{
    let e = forest::span(t);
    let k = &t[RECORD..e];
    if k.len() < RECORD {
        return Err(table::refused_at(numbers::EMPTY_LIST_IN_TYPE, node as u32, t));
    }
    let a = forest::span(k);
    if k.len() < a + RECORD {
        return Err(table::refused_at(numbers::INVALID_TYPE, node as u32, t));
    }
    Ok(())
}

// The test at the first node of t, before its children are read.
fn at_node(edition: Edition, names: &[u8], t: &[u8], node: usize) -> Result<(), Refusal>
    requires { Headed node t.now }
    ensures { shaped result ≡
        at_node edition names.now
        (form_of (node_of 0 t.now).kind (node_of 0 t.now).detail)
        (node_of node t.now) (forest (node + 1) (kids_of t.now)) }
{
    let form = forms::form(t);
    match form {
        Form::Ellipsis => Ok(()),
        Form::Path => paths::unpack_path(edition, names, t, node),
        Form::Index => index_base(t, node),
        Form::Index2 => index2_base(edition, names, t, node),
        Form::List => list_length(t, node),
        Form::Union => Ok(()),
        Form::Tuple => Ok(()),
        Form::Other => Err(table::refused_at(numbers::INVALID_TYPE, node as u32, t)),
    }
}

// The type at the start of t. A child that is read is a List of arguments or a type. This function decides which, and
// calls the rule on the children only, so that the subtree is smaller at each call.
#[cycle(unpack_unpack_argument)]
pub(crate) fn unpack(edition: Edition, names: &[u8], t: &[u8], node: usize) -> Result<(), Refusal>
    requires { Headed node t.now }
    ensures { shaped result ≡ «unpack» edition names.now (tree_of node t.now) }
{
    at_node(edition, names, t, node)?;
    let reads = forms::reads_of(forms::form(t));
    let e = forest::span(t);
    let mut how = reads.first;
    for (place, child) in (Nodes {
        at: node + 1,
        left: &t[RECORD..e],
    }) {
        let rule = forms::rule_of(how, forest::kind(child));
        how = reads.others;
        match rule {
            How::Unread => {}
            How::AsType => unpack(edition, names, child, place)?,
            How::AsArgument => unpack_argument(edition, names, child, place)?,
        }
    }
    Ok(())
}

// The List of arguments at the start of t. An item is a List of arguments again, or a type.
#[cycle(unpack_unpack_argument)]
fn unpack_argument(edition: Edition, names: &[u8], t: &[u8], node: usize) -> Result<(), Refusal>
    requires { Headed node t.now × ((node_of 0 t.now).kind ≡ kind_list) }
    ensures { shaped result ≡ unpack_argument edition names.now (tree_of node t.now) }
{
    let e = forest::span(t);
    for (place, item) in (Nodes {
        at: node + 1,
        left: &t[RECORD..e],
    }) {
        if forest::kind(item) == kinds::LIST {
            unpack_argument(edition, names, item, place)?;
        } else {
            unpack(edition, names, item, place)?;
        }
    }
    Ok(())
}
