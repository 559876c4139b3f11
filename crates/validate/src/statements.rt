// The statement walk of the module pass: which statements are not permitted in their place.
//
// Ported from src/syntax/validate.rs of starlark_syntax 0.14.2 (validate_module's inner f), and changed: statements are
// stretches of the node table.
// Copyright 2018 The Starlark in Rust Authors. Copyright (c) Facebook, Inc. and its affiliates.
// Licensed under Apache-2.0.
ghost use Rattle.std.specs.Prelude.{◌≡◌, ◌+◌, ◌*◌, ◌/◌, length, eqb};
ghost use Rattle.forest.specs.Forest.{record_bytes, node_of, span_of, kids_of, tree_of, forest};
ghost use Rattle.soundness.specs.Kinds.{statement, class_of};
ghost use Rattle.errors.specs.Errors.{Stores};
ghost use Rattle.validate.specs.Inner.{StoresFew, is_plain, SaysStatement};
ghost use Rattle.validate.specs.Module.{is_banned, told_if, arm_of, def_errors, load_errors, f, visit_stmt};
ghost use Rattle.table.specs.Check.{Headed, Within, most_nodes};

use crate::{Arm, Standing, params};
use dialect::Dialect;
use errors::Listing;
use forest::{Nodes, RECORD};
use soundness::kinds;
use table::numbers;

// Whether a kind is a statement's: these are numbered in turn.
fn is_statement(kind: u8) -> bool
    ensures { result ≡ eqb (class_of kind) statement }
{
    (kinds::STATEMENTS <= kind) & (kind <= kinds::ASSIGN_MODIFY)
}

// Whether a statement of this kind has no arm of its own: it has no errors, and the statements below it are in its
// place.
fn is_plain(kind: u8) -> bool
    ensures { result ≡ is_plain kind }
{
    (kind == kinds::STATEMENTS) | (kinds::OTHER_SIMPLE <= kind)
}

// Whether one of the nodes side by side in a stretch is a statement.
fn has_statement(t: &[u8]) -> bool
    ensures { SaysStatement t.now result }
{
    for (_, left) in (Nodes { at: 0, left: t }) {
        if is_statement(forest::kind(left)) {
            return true;
        }
    }
    false
}

// Whether a for or if is not permitted here: at the top level, if the dialect does not permit it.
fn is_banned(d: Dialect, s: Standing) -> bool
    ensures { result ≡ is_banned d s }
{
    s.top_level & !d.enable_top_level_stmt
}

// One error where a statement is refused, else the statements below it in their place.
fn told_if(refused: bool, number: u32, below: Standing) -> Arm
    ensures { result ≡ told_if refused number below }
{
    if refused {
        return Arm::Told(number);
    }
    Arm::Below(below)
}

// The arm of a statement's kind.
fn arm_of(d: Dialect, s: Standing, kind: u8) -> Arm
    ensures { result ≡ arm_of d s kind }
{
    let banned = is_banned(d, s);
    let below_for = Standing {
        top_level: false,
        inside_for: true,
        inside_def: s.inside_def,
    };
    let below_if = Standing {
        top_level: false,
        inside_for: s.inside_for,
        inside_def: s.inside_def,
    };
    match kind {
        kinds::DEF => Arm::Def,
        kinds::FOR => told_if(banned, numbers::TOP_LEVEL_FOR, below_for),
        kinds::IF => told_if(banned, numbers::TOP_LEVEL_IF, below_if),
        kinds::IF_ELSE => told_if(banned, numbers::TOP_LEVEL_IF, below_if),
        kinds::BREAK => told_if(!s.inside_for, numbers::BREAK_MISPLACED, s),
        kinds::CONTINUE => told_if(!s.inside_for, numbers::CONTINUE_MISPLACED, s),
        kinds::RETURN => told_if(!s.inside_def, numbers::RETURN_MISPLACED, s),
        kinds::LOAD => Arm::Load,
        _ => Arm::Below(s),
    }
}

// A def that the dialect does not permit, and the errors of its parameters.
fn def_errors(
    listing: Listing,
    d: Dialect,
    names: &[u8],
    t: &[u8],
    at: usize,
    errors: &mut [u32],
) -> usize
    requires { Headed at t.now }
    ensures { StoresFew listing (2 + length t.now / record_bytes)
        (def_errors d names.now (node_of at t.now) (forest (at + 1) (kids_of t.now)))
        errors.old result errors.new }
{
    let number = numbers::DEF_NOT_PERMITTED;
    params::with_params(listing, d.enable_def, number, d, names, t, at, errors)
}

// A load that is not at the top, and then one that the dialect does not permit.
fn load_errors(
    listing: Listing,
    d: Dialect,
    s: Standing,
    t: &[u8],
    at: u32,
    errors: &mut [u32],
) -> usize
    ensures { Stores listing (load_errors d s (node_of at t.now))
        errors.old result errors.new }
{
    let not_at_top = numbers::LOAD_NOT_AT_TOP;
    let first = errors::push_unless(listing, s.top_level, not_at_top, t, at, errors);
    let free = errors::free(listing, errors.len(), first);
    let left = &mut errors[free..];
    let not_permitted = numbers::LOAD_NOT_PERMITTED;
    let rest = errors::push_unless(listing, d.enable_load, not_permitted, t, at, left);
    first + rest
}

// The statement that a stretch begins with, if it begins with one: the inner f. Its tree takes e bytes. Most statements
// are plain and have no statement below, so that the walk is not entered for them.
#[cycle(check_statement_visit_stmt)]
fn check_statement(
    listing: Listing,
    d: Dialect,
    names: &[u8],
    t: &[u8],
    e: usize,
    at: usize,
    s: Standing,
    errors: &mut [u32],
) -> usize
    requires headed { Headed at t.now }
    requires e_value { e ≡ span_of t.now }
    ensures { Stores listing (f d names.now s (tree_of at t.now)) errors.old result
        errors.new }
{
    let kind = forest::kind(t);
    if !is_statement(kind) {
        return 0;
    }
    if is_plain(kind) {
        let below = &t[RECORD..e];
        if !has_statement(below) {
            return 0;
        }
        return visit_stmt(listing, d, names, below, at + 1, s, errors);
    }
    let arm = arm_of(d, s, kind);
    match arm {
        Arm::Def => {
            let first = def_errors(listing, d, names, t, at, errors);
            let free = errors::free(listing, errors.len(), first);
            let body = Standing {
                top_level: false,
                inside_for: false,
                inside_def: true,
            };
            let below = &t[RECORD..e];
            let rest = visit_stmt(listing, d, names, below, at + 1, body, &mut errors[free..]);
            first + rest
        }
        Arm::Load => load_errors(listing, d, s, t, at as u32, errors),
        Arm::Told(number) => errors::push_at(listing, number, t, at as u32, errors),
        Arm::Below(place) => visit_stmt(listing, d, names, &t[RECORD..e], at + 1, place, errors),
    }
}

// The statements among the nodes side by side in a stretch whose first record has the index at, in turn.
#[cycle(check_statement_visit_stmt)]
pub(crate) fn visit_stmt(
    listing: Listing,
    d: Dialect,
    names: &[u8],
    t: &[u8],
    at: usize,
    s: Standing,
    errors: &mut [u32],
) -> usize
    requires { Within at t.now }
    ensures { StoresFew listing (2 * most_nodes)
        (visit_stmt d names.now s (forest at t.now))
        errors.old result errors.new }
{
    let mut left = t;
    let mut place = at;
    let mut total = 0;
    // no `for` over Nodes: the wrong answer only_first_statement is about what follows the first node
    while RECORD <= left.len() {
        let free = errors::free(listing, errors.len(), total);
        let e = forest::span(left);
        total += check_statement(listing, d, names, left, e, place, s, &mut errors[free..]);
        left = &left[e..];
        place += e / RECORD;
    }
    total
}
