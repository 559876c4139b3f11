// Paths in types: an Identifier, or Dots down to one.
//
// Ported from src/syntax/type_expr.rs of starlark_syntax 0.14.2 (unpack_path), and changed: a path is a stretch of the
// node table.
// Copyright 2018 The Starlark in Rust Authors. Copyright (c) Facebook, Inc. and its affiliates.
// Licensed under Apache-2.0.
ghost use Rattle.std.specs.Prelude.{◌≡◌, ◌+◌};
ghost use Rattle.forest.specs.Forest.{node_of, tree_of, forest};
ghost use Rattle.table.specs.Check.{Within, Headed};
ghost use Rattle.types.specs.Paths.{banned, object_path, unpack_path};
ghost use Rattle.types.specs.Jobs.{shaped};

use dialect::Edition;
use forest::RECORD;
use soundness::kinds;
use table::{Refusal, numbers};

// The field `type`, which may not end a path in the first edition.
const TYPE: [u8; 4] = [116, 121, 112, 101];

// Whether a path that ends in the field of the Dot at the start of t is banned. No other rule depends on the edition.
fn is_banned(edition: Edition, names: &[u8], t: &[u8]) -> bool
    ensures { result ≡ banned edition names.now (node_of 0 t.now) }
{
    match edition {
        Edition::One => {
            let field = TYPE;
            forest::names::same_bytes(forest::names::name(names, t), &field)
        }
        Edition::Two => false,
    }
}

// The path at the start of t.
pub(crate) fn unpack_path(
    edition: Edition,
    names: &[u8],
    t: &[u8],
    node: usize,
) -> Result<(), Refusal>
    requires { Headed node t.now }
    ensures { shaped result ≡ unpack_path edition names.now (tree_of node t.now) }
{
    let kind = forest::kind(t);
    if kind == kinds::IDENTIFIER {
        return Ok(());
    }
    if kind != kinds::DOT {
        return Err(table::refused_at(numbers::EXPECTING_PATH, node as u32, t));
    }
    let e = forest::span(t);
    object_path(is_banned(edition, names, t), &t[RECORD..e], node + 1)
}

// The object of a Dot; ban says whether its path is banned.
fn object_path(ban: bool, t: &[u8], node: usize) -> Result<(), Refusal>
    requires { Within node t.now }
    ensures { shaped result ≡ object_path ban (forest node t.now) }
{
    if t.len() < RECORD {
        return Ok(());
    }
    let kind = forest::kind(t);
    if kind == kinds::IDENTIFIER {
        if ban {
            return Err(table::refused_at(numbers::DOT_TYPE_BAN, node as u32, t));
        }
        return Ok(());
    }
    if kind != kinds::DOT {
        return Err(table::refused_at(numbers::DOT_IN_TYPE, node as u32, t));
    }
    let e = forest::span(t);
    object_path(ban, &t[RECORD..e], node + 1)
}
