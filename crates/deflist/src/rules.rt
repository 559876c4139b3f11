// The rules of the kinds, and what a parameter changes in the written list.
//
// Ported from src/syntax/def.rs of starlark_syntax 0.14.2, and changed: each rule returns its number or Fine.
// Copyright 2018 The Starlark in Rust Authors. Copyright (c) Facebook, Inc. and its affiliates.
// Licensed under Apache-2.0.
ghost use Rattle.std.specs.Prelude.{◌≡◌, ◌||◌};
ghost use Rattle.deflist.specs.Unpack.{default_rule, normal_rule, star_rule, slash_rule, kwargs_rule, rule as rule_of};
ghost use Rattle.deflist.specs.Unpack.{next_optional, next_star, start as start_of, positional_only};
ghost use Rattle.deflist.specs.Reading.{is_named, is_normal};

use crate::{Check, Counts, Flat, Kind, State, Unpacking, Written, states};
use table::numbers;

// Whether a parameter of a kind has a name.
pub(crate) fn is_named(kind: Kind) -> bool
    ensures { result ≡ is_named kind }
{
    match kind {
        Kind::Normal(_) => true,
        Kind::NoArgs => false,
        Kind::Slash => false,
        Kind::Args => true,
        Kind::KwArgs => true,
    }
}

pub(crate) fn is_normal(kind: Kind) -> bool
    ensures { result ≡ is_normal kind }
{
    match kind {
        Kind::Normal(_) => true,
        Kind::NoArgs => false,
        Kind::Slash => false,
        Kind::Args => false,
        Kind::KwArgs => false,
    }
}

// 13 (no default after a default), before any star.
fn default_rule(optional: bool, default: bool) -> Check
    ensures { result ≡ default_rule optional default }
{
    if optional {
        if default {
            return Check::Fine;
        }
        return Check::Broken(numbers::NO_DEFAULT_AFTER_DEFAULT);
    }
    Check::Fine
}

// 12 (Normal after `**kwargs`), then 13.
fn normal_rule(state: State, optional: bool, default: bool) -> Check
    ensures { result ≡ normal_rule state optional default }
{
    match state {
        State::Normal => default_rule(optional, default),
        State::SeenSlash => default_rule(optional, default),
        State::SeenStar => Check::Fine,
        State::SeenStarStar => Check::Broken(numbers::NORMAL_AFTER_KWARGS),
    }
}

// 14 (`*` or `*args` after a star or `**kwargs`).
fn star_rule(state: State) -> Check
    ensures { result ≡ star_rule state }
{
    match state {
        State::Normal => Check::Fine,
        State::SeenSlash => Check::Fine,
        State::SeenStar => Check::Broken(numbers::STAR_AFTER_STAR),
        State::SeenStarStar => Check::Broken(numbers::STAR_AFTER_STAR),
    }
}

// 15 (a second `/`).
fn slash_rule(state: State) -> Check
    ensures { result ≡ slash_rule state }
{
    match state {
        State::Normal => Check::Fine,
        State::SeenSlash => Check::Broken(numbers::MULTIPLE_SLASH),
        State::SeenStar => Check::Broken(numbers::MULTIPLE_SLASH),
        State::SeenStarStar => Check::Broken(numbers::MULTIPLE_SLASH),
    }
}

// 16 (a second `**kwargs`).
fn kwargs_rule(state: State) -> Check
    ensures { result ≡ kwargs_rule state }
{
    match state {
        State::Normal => Check::Fine,
        State::SeenSlash => Check::Fine,
        State::SeenStar => Check::Fine, // 18, if any, waits for the end
        State::SeenStarStar => Check::Broken(numbers::MULTIPLE_KWARGS),
    }
}

// The rule of a parameter's kind.
pub(crate) fn rule(state: State, optional: bool, kind: Kind) -> Check
    ensures { result ≡ rule_of state optional kind }
{
    match kind {
        Kind::Normal(default) => normal_rule(state, optional, default),
        Kind::NoArgs => star_rule(state),
        Kind::Slash => slash_rule(state),
        Kind::Args => star_rule(state),
        Kind::KwArgs => kwargs_rule(state),
    }
}

fn or(a: bool, b: bool) -> bool
    ensures { result ≡ (a || b) }
{
    a | b
}

pub(crate) fn next_optional(optional: bool, kind: Kind) -> bool
    ensures { result ≡ next_optional optional kind }
{
    match kind {
        Kind::Normal(default) => or(optional, default),
        Kind::NoArgs => optional,
        Kind::Slash => optional,
        Kind::Args => optional,
        Kind::KwArgs => optional,
    }
}

pub(crate) fn next_star(star: Option<Written>, i: Written, kind: Kind) -> Option<Written>
    ensures { result ≡ next_star star i kind }
{
    match kind {
        Kind::Normal(_) => star,
        Kind::NoArgs => Some(i),
        Kind::Slash => star,
        Kind::Args => star,
        Kind::KwArgs => star,
    }
}

// The count of positional-only parameters: the written position of `/` is a flat index, since no mark can come before
// it.
pub(crate) fn positional_only(slash: Option<Written>) -> Flat
    ensures { result ≡ positional_only slash }
{
    match slash {
        Some(i) => Flat(i.0),
        None => Flat(0),
    }
}

// The state before the first parameter.
pub(crate) fn start(only: Flat) -> Unpacking
    ensures { result ≡ start_of only }
{
    Unpacking {
        state: states::first_state(only),
        seen_optional: false,
        index_of_star: None,
        counts: Counts {
            num_positional: Flat(0),
            num_positional_only: only,
            args: None,
            kwargs: None,
            flat: Flat(0),
        },
    }
}
