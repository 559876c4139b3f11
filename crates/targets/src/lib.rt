// Assignment targets: the target job and the assignment job.
//
// Ported from src/syntax/grammar_util.rs of starlark_syntax 0.14.2 (check_assign, check_assignment), and changed: a
// target is a stretch of the node table.
// Copyright 2018 The Starlark in Rust Authors. Copyright (c) Facebook, Inc. and its affiliates.
// Licensed under Apache-2.0.
#![tactic(auto)]

ghost use Rattle.std.specs.Prelude.{◌≡◌, [], ◌∷◌, ◌+◌, ◌≤◌};
ghost use Rattle.forest.specs.Forest.{node_of, tree_of, forest};
ghost use Rattle.table.specs.Answer.{accepted, and_then};
ghost use Rattle.table.specs.Check.{Within, Headed, headed_of};
ghost use Rattle.targets.specs.Targets.{is_leaf, is_group, counted, counted_each, type_check, check_assignment};
ghost use Rattle.targets.specs.Jobs.{targeted, target_of, assignment_of};

use forest::{Nodes, RECORD};
use soundness::kinds;
use table::{Refusal, Wanted, numbers};

// The target job: whether a node is a target, and the number of its Identifier, Dot and Index leaves.
pub fn target(table: &[u8], names: &[u8], node: usize) -> Result<u32, Refusal>
    ensures { targeted result ≡ target_of table.now names.now node }
{
    table::enter(table, names, node, Wanted::Expression)?;
    check_assign(table::stretch(table, node), node, 0)
}

// The assignment job: whether a node is an assignment with an allowed target and type, and the number of leaves of its
// target.
pub fn assignment(table: &[u8], names: &[u8], node: usize) -> Result<u32, Refusal>
    ensures { targeted result ≡ assignment_of table.now names.now node }
{
    table::enter(table, names, node, Wanted::Assignment)?;
    check_assignment(table::stretch(table, node), node)
}

// The target at the start of t, for callers that have checked the table. The first record of t has the index node. Any
// bytes are accepted; if they are not part of a table, none is read.
pub fn judge_target(t: &[u8], node: u32) -> Result<u32, Refusal>
    ensures { targeted result ≡ counted 0 (tree_of node (headed_of node t.now)) }
{
    if !table::is_headed(t, node) {
        return Err(table::refused_at(numbers::INVALID_LHS, node, &t[0..0]));
    }
    check_assign(t, node as usize, 0)
}

// The assignment at the start of t, in the same way.
pub fn judge_assignment(t: &[u8], node: u32) -> Result<u32, Refusal>
    ensures { targeted result ≡ check_assignment (tree_of node (headed_of node t.now)) }
{
    if !table::is_headed(t, node) {
        let leaves = 0;
        return Ok(leaves);
    }
    check_assignment(t, node as usize)
}

// Whether a kind is a leaf of targets: Identifier, Dot or Index.
fn is_leaf(kind: u8) -> bool
    ensures { result ≡ is_leaf kind }
{
    (kind == kinds::IDENTIFIER) | ((kind == kinds::DOT) | (kind == kinds::INDEX))
}

// Whether a kind holds targets: Tuple or List.
fn is_group(kind: u8) -> bool
    ensures { result ≡ is_group kind }
{
    (kind == kinds::TUPLE) | (kind == kinds::LIST)
}

// The target at the start of t; count is the number of leaves before it.
#[cycle(check_assign_check_each)]
fn check_assign(t: &[u8], node: usize, count: u32) -> Result<u32, Refusal>
    requires { Headed node t.now × (count ≤ node) }
    ensures { targeted result ≡ counted count (tree_of node t.now) }
{
    let kind = forest::kind(t);
    if is_leaf(kind) {
        return Ok(count + 1);
    }
    if is_group(kind) {
        let e = forest::span(t);
        return check_each(&t[RECORD..e], node + 1, count);
    }
    Err(table::refused_at(numbers::INVALID_LHS, node as u32, t))
}

// The sibling targets in t; count is the number of leaves before them.
#[cycle(check_assign_check_each)]
fn check_each(t: &[u8], node: usize, count: u32) -> Result<u32, Refusal>
    requires { Within node t.now × (count ≤ node) }
    ensures { targeted result ≡ counted_each count (forest node t.now) }
{
    let mut leaves = count;
    for (at, left) in (Nodes { at: node, left: t }) {
        leaves = check_assign(left, at, leaves)?;
    }
    Ok(leaves)
}

// The assignment at the start of t: its target, then its type.
fn check_assignment(t: &[u8], node: usize) -> Result<u32, Refusal>
    requires { Headed node t.now }
    ensures { targeted result ≡ check_assignment (tree_of node t.now) }
{
    let e = forest::span(t);
    let lhs = &t[RECORD..e];
    if lhs.len() < RECORD {
        return Ok(0);
    }
    let at = node + 1;
    if (forest::kind(t) == kinds::ASSIGN_MODIFY) & is_group(forest::kind(lhs)) {
        return Err(table::refused_at(numbers::INVALID_MODIFY_LHS, at as u32, lhs));
    }
    let leaves = check_assign(lhs, at, 0)?;
    let a = forest::span(lhs);
    check_type(t, lhs, &lhs[a..], at + a / RECORD, leaves)
}

// Whether the assignment t with the target lhs may have its type, which, if there is one, is at the start of ty.
fn check_type(t: &[u8], lhs: &[u8], ty: &[u8], node: usize, leaves: u32) -> Result<u32, Refusal>
    requires { Within node ty.now }
    ensures { targeted result ≡
        and_then (type_check (node_of 0 t.now) (node_of 0 lhs.now) (forest node ty.now))
        (λ _. accepted (leaves ∷ [])) }
{
    if forest::detail(t) != 1 {
        return Ok(leaves);
    }
    if ty.len() < RECORD {
        return Ok(leaves);
    }
    if forest::kind(t) == kinds::ASSIGN_MODIFY {
        return Err(table::refused_at(numbers::TYPE_ON_AUGMENTED, node as u32, ty));
    }
    if is_group(forest::kind(lhs)) {
        return Err(table::refused_at(numbers::TYPE_ON_TUPLE, node as u32, ty));
    }
    Ok(leaves)
}
