// Shapes: the byte of each node of an accepted type in the buffer.
//
// Ported from src/syntax/type_expr.rs of starlark_syntax 0.14.2, and changed: the type that unpack builds is a byte for
// each node that it reads.
// Copyright 2018 The Starlark in Rust Authors. Copyright (c) Facebook, Inc. and its affiliates.
// Licensed under Apache-2.0.
ghost use Rattle.std.specs.Prelude.{◌≡◌, ◌+◌, ◌/◌, ◌≤◌, length};
ghost use Rattle.forest.specs.Forest.{record_bytes, node_of, tree_of};
ghost use Rattle.soundness.specs.KindNumbers.{kind_list};
ghost use Rattle.shapes.specs.Shapes.{shapes_of, shapes_argument, written};

use forest::{Nodes, RECORD};
use soundness::kinds;
use types::{How, forms};

// The shape of a List that is an argument.
const LIST: u8 = 5;

// Writes the shapes of the type at the start of t, its own at the index at. A child that is read is a List of arguments
// or a type: this function decides which, and the subtree is smaller at each call.
#[cycle(write_write_argument)]
pub(crate) fn write(t: &[u8], at: usize, shapes: &mut [u8])
    requires { (record_bytes ≤ length t.now) × (at + length t.now / record_bytes ≤ length shapes.old) }
    ensures { shapes.new ≡ written (shapes_of (tree_of at t.now)) shapes.old }
{
    let form = forms::form(t);
    let shape = forms::shape_of(form);
    shapes[at] = shape;
    let reads = forms::reads_of(form);
    let e = forest::span(t);
    let mut how = reads.first;
    let first = at + 1;
    for (here, child) in (Nodes {
        at: first,
        left: &t[RECORD..e],
    }) {
        let rule = forms::rule_of(how, forest::kind(child));
        how = reads.others;
        match rule {
            How::Unread => {}
            How::AsType => write(child, here, shapes),
            How::AsArgument => write_argument(child, here, shapes),
        }
    }
}

// Writes the shapes of the List of arguments at the start of t, its own at the index at. An item is a List of arguments
// again, or a type.
#[cycle(write_write_argument)]
fn write_argument(t: &[u8], at: usize, shapes: &mut [u8])
    requires record_bytes_in_bounds { (record_bytes ≤ length t.now) ×
        (at + length t.now / record_bytes ≤ length shapes.old) }
    requires t_value { (node_of 0 t.now).kind ≡ kind_list }
    ensures { shapes.new ≡
        written (shapes_argument (tree_of at t.now)) shapes.old }
{
    shapes[at] = LIST;
    let e = forest::span(t);
    for (here, item) in (Nodes {
        at: at + 1,
        left: &t[RECORD..e],
    }) {
        if forest::kind(item) == kinds::LIST {
            write_argument(item, here, shapes);
        } else {
            write(item, here, shapes);
        }
    }
}
