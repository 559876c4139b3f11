// The expression walk of the module pass: all expressions in table order, wherever they are.
//
// Ported from src/syntax/validate.rs of starlark_syntax 0.14.2 (validate_module's inner expr), and changed: expressions
// are stretches of the node table.
// Copyright 2018 The Starlark in Rust Authors. Copyright (c) Facebook, Inc. and its affiliates.
// Licensed under Apache-2.0.
ghost use Rattle.std.specs.Prelude.{◌≡◌, ◌+◌, ◌*◌, ◌/◌, length};
ghost use Rattle.forest.specs.Forest.{record_bytes, node_of, span_of, kids_of, tree_of, forest, nodes};
ghost use Rattle.errors.specs.Errors.{Stores};
ghost use Rattle.validate.specs.Inner.{StoresFew, is_site, has_site};
ghost use Rattle.validate.specs.Module.{expr_errors, expr, visit_expr};
ghost use Rattle.table.specs.Check.{Headed, Within, most_nodes};

use crate::params;
use dialect::Dialect;
use errors::Listing;
use forest::{Nodes, RECORD};
use soundness::kinds;
use table::numbers;

// The errors of the first record of a stretch by itself: of `...`, or of a lambda and its parameters.
fn expr_errors(
    listing: Listing,
    d: Dialect,
    names: &[u8],
    t: &[u8],
    at: usize,
    errors: &mut [u32],
) -> usize
    requires { Headed at t.now }
    ensures { StoresFew listing (2 + length t.now / record_bytes)
        (expr_errors d names.now (node_of at t.now) (forest (at + 1) (kids_of t.now)))
        errors.old result errors.new }
{
    match forest::kind(t) {
        kinds::ELLIPSIS => {
            let types = d.enable_types;
            let permitted = dialect::permits_types(types);
            let number = numbers::ELLIPSIS_NOT_PERMITTED;
            errors::push_unless(listing, permitted, number, t, at as u32, errors)
        }
        kinds::LAMBDA => {
            let number = numbers::LAMBDA_NOT_PERMITTED;
            params::with_params(listing, d.enable_lambda, number, d, names, t, at, errors)
        }
        _ => 0,
    }
}

// The record that a stretch begins with, and then all below it: the inner expr. Its tree takes e bytes.
#[cycle(check_expression_visit_expr)]
fn check_expression(
    listing: Listing,
    d: Dialect,
    names: &[u8],
    t: &[u8],
    e: usize,
    at: usize,
    errors: &mut [u32],
) -> usize
    requires headed { Headed at t.now }
    requires e_value { e ≡ span_of t.now }
    ensures { Stores listing (expr d names.now (tree_of at t.now)) errors.old result
        errors.new }
{
    let own = expr_errors(listing, d, names, t, at, errors);
    if e <= RECORD {
        return own;
    }
    let free = errors::free(listing, errors.len(), own);
    let below = visit_expr(
        listing,
        d,
        names,
        &t[RECORD..e],
        at + 1,
        &mut errors[free..],
    );
    own + below
}

// The expressions of the nodes side by side in a stretch whose first record has the index at, in turn.
#[cycle(check_expression_visit_expr)]
fn visit_expr(
    listing: Listing,
    d: Dialect,
    names: &[u8],
    t: &[u8],
    at: usize,
    errors: &mut [u32],
) -> usize
    requires { Within at t.now }
    ensures { StoresFew listing (2 * most_nodes)
        (visit_expr d names.now (forest at t.now))
        errors.old result errors.new }
{
    let mut total = 0;
    for (place, left) in (Nodes { at, left: t }) {
        let free = errors::free(listing, errors.len(), total);
        let e = forest::span(left);
        total += check_expression(listing, d, names, left, e, place, &mut errors[free..]);
    }
    total
}

// Whether the walk can find an error at a record of this kind.
fn is_site(kind: u8) -> bool
    ensures { result ≡ is_site kind }
{
    (kind == kinds::ELLIPSIS) | (kind == kinds::LAMBDA)
}

// Whether any record of a stretch is of such a kind: one look at each, in table order, until one is.
fn has_site(t: &[u8]) -> bool
    ensures { result ≡ has_site (nodes (forest 0 t.now)) }
{
    for record in t.chunks_exact(RECORD) {
        if is_site(forest::kind(record)) {
            return true;
        }
    }
    false
}

// A statement at the top level, whose tree takes e bytes: it is walked only if it has such a record. No statement below
// it is looked at so again, so that no record is looked at once for each level above it.
fn check_top(
    listing: Listing,
    d: Dialect,
    names: &[u8],
    t: &[u8],
    e: usize,
    at: usize,
    errors: &mut [u32],
) -> usize
    requires headed { Headed at t.now }
    requires e_value { e ≡ span_of t.now }
    ensures { Stores listing (expr d names.now (tree_of at t.now)) errors.old result
        errors.new }
{
    let tree = &t[0..e];
    if !has_site(tree) {
        return 0;
    }
    visit_expr(listing, d, names, tree, at, errors)
}

// The statements at the top level, in turn.
fn visit_tops(
    listing: Listing,
    d: Dialect,
    names: &[u8],
    t: &[u8],
    at: usize,
    errors: &mut [u32],
) -> usize
    requires { Within at t.now }
    ensures { StoresFew listing (2 * most_nodes)
        (visit_expr d names.now (forest at t.now))
        errors.old result errors.new }
{
    let mut total = 0;
    for (place, left) in (Nodes { at, left: t }) {
        let free = errors::free(listing, errors.len(), total);
        let e = forest::span(left);
        total += check_top(listing, d, names, left, e, place, &mut errors[free..]);
    }
    total
}

// A root, whose tree takes e bytes: the statements below it are the ones at the top level. A root that is itself such a
// record, which no sound table has, is walked as any other.
fn check_root(
    listing: Listing,
    d: Dialect,
    names: &[u8],
    t: &[u8],
    e: usize,
    at: usize,
    errors: &mut [u32],
) -> usize
    requires headed { Headed at t.now }
    requires e_value { e ≡ span_of t.now }
    ensures { Stores listing (expr d names.now (tree_of at t.now)) errors.old result
        errors.new }
{
    if is_site(forest::kind(t)) {
        return visit_expr(listing, d, names, &t[0..e], at, errors);
    }
    visit_tops(listing, d, names, &t[RECORD..e], at + 1, errors)
}

// All expressions of a module: those of its roots in turn. A sound table has one.
pub(crate) fn visit_roots(
    listing: Listing,
    d: Dialect,
    names: &[u8],
    t: &[u8],
    at: usize,
    errors: &mut [u32],
) -> usize
    requires { Within at t.now }
    ensures { StoresFew listing (2 * most_nodes)
        (visit_expr d names.now (forest at t.now))
        errors.old result errors.new }
{
    let mut total = 0;
    for (place, left) in (Nodes { at, left: t }) {
        let free = errors::free(listing, errors.len(), total);
        let e = forest::span(left);
        total += check_root(listing, d, names, left, e, place, &mut errors[free..]);
    }
    total
}
