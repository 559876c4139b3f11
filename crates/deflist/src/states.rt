// The state in which a list begins, and the next state after each parameter.
//
// Ported from src/syntax/def.rs of starlark_syntax 0.14.2, and changed: the state is a value that each parameter maps
// to the next.
// Copyright 2018 The Starlark in Rust Authors. Copyright (c) Facebook, Inc. and its affiliates.
// Licensed under Apache-2.0.
ghost use Rattle.std.specs.Prelude.{◌≡◌};
ghost use Rattle.deflist.specs.Unpack.{next_state, first_state};

use crate::{Flat, Kind, State};

// The state in which a list begins.
pub fn first_state(only: Flat) -> State
    ensures { result ≡ first_state only }
{
    if only.0 == 0 {
        return State::SeenSlash;
    }
    State::Normal
}

// The state after a parameter of a kind.
pub fn next_state(state: State, kind: Kind) -> State
    ensures { result ≡ next_state state kind }
{
    match kind {
        Kind::Normal(_) => state,
        Kind::NoArgs => State::SeenStar,
        Kind::Slash => State::SeenSlash,
        Kind::Args => State::SeenStar,
        Kind::KwArgs => State::SeenStarStar,
    }
}
