// The forms of type expressions by the kind of a node.
//
// Ported from src/syntax/type_expr.rs of starlark_syntax 0.14.2 (the arms of TypeExprUnpackP::unpack), and changed: the
// kind of a node says which form it has.
// Copyright 2018 The Starlark in Rust Authors. Copyright (c) Facebook, Inc. and its affiliates.
// Licensed under Apache-2.0.
ghost use Rattle.std.specs.Prelude.{◌≡◌};
ghost use Rattle.forest.specs.Forest.{node_of};
ghost use Rattle.types.specs.Forms.{form_of, shape_of, reads_as, reads_of, rule_of};

use crate::{Form, How, Reads};
use soundness::kinds;

// The form of the first record of t.
pub fn form(t: &[u8]) -> Form
    ensures { result ≡ form_of (node_of 0 t.now).kind (node_of 0 t.now).detail }
{
    form_of(forest::kind(t), forest::detail(t))
}

// The form of a node by its kind and detail.
fn form_of(kind: u8, detail: u8) -> Form
    ensures { result ≡ form_of kind detail }
{
    if kind == kinds::ELLIPSIS {
        return Form::Ellipsis;
    }
    if (kind == kinds::IDENTIFIER) | (kind == kinds::DOT) {
        return Form::Path;
    }
    if kind == kinds::INDEX {
        return Form::Index;
    }
    if kind == kinds::INDEX2 {
        return Form::Index2;
    }
    if kind == kinds::LIST {
        return Form::List;
    }
    if kind == kinds::TUPLE {
        return Form::Tuple;
    }
    if (kind == kinds::OP) & (detail == 1) {
        return Form::Union;
    }
    Form::Other
}

// The shape of a form that is read as a type.
pub fn shape_of(form: Form) -> u8
    ensures { result ≡ shape_of form }
{
    match form {
        Form::Ellipsis => 1,
        Form::Path => 2,
        Form::Index => 3,
        Form::Index2 => 4,
        Form::List => 6,
        Form::Union => 6,
        Form::Tuple => 7,
        Form::Other => 0,
    }
}

// How a form reads its children.
pub fn reads_of(form: Form) -> Reads
    ensures { result ≡ reads_of form }
{
    match form {
        Form::Ellipsis => reads(How::Unread, How::Unread),
        Form::Path => reads(How::Unread, How::Unread),
        Form::Index => reads(How::Unread, How::AsType),
        Form::Index2 => reads(How::Unread, How::AsArgument),
        Form::List => reads(How::AsType, How::AsType),
        Form::Union => reads(How::AsType, How::AsType),
        Form::Tuple => reads(How::AsType, How::AsType),
        Form::Other => reads(How::Unread, How::Unread),
    }
}

// The rule for a child of a kind: an argument that is not a List is read as a type.
pub fn rule_of(how: How, kind: u8) -> How
    ensures { result ≡ rule_of how kind }
{
    match how {
        How::Unread => How::Unread,
        How::AsType => How::AsType,
        How::AsArgument => {
            if kind == kinds::LIST {
                return How::AsArgument;
            }
            How::AsType
        }
    }
}

// The first child read in one way, and the others in another.
fn reads(first: How, others: How) -> Reads
    ensures { result ≡ reads_as first others }
{
    Reads {
        first: first,
        others: others,
    }
}
