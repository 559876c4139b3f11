// The parameters of a def or lambda in the module pass.
//
// Ported from src/syntax/validate.rs of starlark_syntax 0.14.2 (validate_params), and changed: the list is a stretch of
// the node table.
// Copyright 2018 The Starlark in Rust Authors. Copyright (c) Facebook, Inc. and its affiliates.
// Licensed under Apache-2.0.
ghost use Rattle.std.specs.Prelude.{◌≡◌, [], ◌+◌, ◌/◌, ◌^◌, ◌<◌, length};
ghost use Rattle.forest.specs.Forest.{record_bytes, node_of, kids_of, forest};
ghost use Rattle.deflist.specs.Written.{params_in, written};
ghost use Rattle.deflist.specs.Limited.{limited};
ghost use Rattle.deflist.specs.Told.{told};
ghost use Rattle.deflist.specs.Reading.{kind_here};
ghost use Rattle.errors.specs.Errors.{err, Stores};
ghost use Rattle.table.specs.Check.{Headed, Within};
ghost use Rattle.validate.specs.Inner.{StoresFew};
ghost use Rattle.validate.specs.Params.{is_no_args, is_mark, permits, not_permitted, mark_error, every_mark};
ghost use Rattle.validate.specs.Params.{marks, unpack_error, validate_params, with_params};

use crate::Mark;
use deflist::{Fault, Kind, Params, entry};
use dialect::Dialect;
use errors::{Finding, Listing};
use forest::Nodes;
use table::numbers;

// What may not be in this dialect, then the parameters of the node that a stretch begins with.
pub(crate) fn with_params(
    listing: Listing,
    permitted: bool,
    number: u32,
    d: Dialect,
    names: &[u8],
    t: &[u8],
    at: usize,
    errors: &mut [u32],
) -> usize
    requires { Headed at t.now }
    ensures { StoresFew listing (2 + length t.now / record_bytes)
        (with_params d names.now permitted number (node_of at t.now)
        (forest (at + 1) (kids_of t.now))) errors.old result errors.new }
{
    let node = at as u32;
    let first = errors::push_unless(listing, permitted, number, t, node, errors);
    let free = errors::free(listing, errors.len(), first);
    let rest = validate_params(listing, d, names, t, at, &mut errors[free..]);
    first + rest
}

// Every `*` and then every `/` that is not permitted, then the list's one error.
fn validate_params(
    listing: Listing,
    d: Dialect,
    names: &[u8],
    t: &[u8],
    at: usize,
    errors: &mut [u32],
) -> usize
    requires { Headed at t.now }
    ensures { StoresFew listing (1 + length t.now / record_bytes)
        (validate_params d (node_of at t.now) (written names.now at t.now))
        errors.old result errors.new }
{
    let list = deflist::children(t);
    let first = at + 1;
    let stars = marks_of(listing, d, Mark::Star, list, first, errors);
    let after_stars = errors::free(listing, errors.len(), stars);
    let slashes = marks_of(
        listing,
        d,
        Mark::Slash,
        list,
        first,
        &mut errors[after_stars..],
    );
    let after_marks = errors::free(listing, errors.len(), stars + slashes);
    let last = list_error(listing, names, t, at, &mut errors[after_marks..]);
    stars + slashes + last
}

// The list's one error. It is one of 10 to 19, so a list is not judged for a form that leaves these out.
fn list_error(listing: Listing, names: &[u8], t: &[u8], at: usize, errors: &mut [u32]) -> usize
    requires { Headed at t.now }
    ensures { StoresFew listing 1
        (unpack_error (told (limited (node_of at t.now) (written names.now at t.now))))
        errors.old result errors.new }
{
    match listing {
        Listing::Module => unpack_error(listing, names, t, at, errors),
        Listing::Own => 0,
        Listing::Audit => unpack_error(listing, names, t, at, errors),
        Listing::Numbers => unpack_error(listing, names, t, at, errors),
    }
}

// The list's one error, if it has one: 19, or unpack's.
fn unpack_error(listing: Listing, names: &[u8], t: &[u8], at: usize, errors: &mut [u32]) -> usize
    requires { Headed at t.now }
    ensures { StoresFew listing 1
        (unpack_error (told (limited (node_of at t.now) (written names.now at t.now))))
        errors.old result errors.new }
{
    let judged = deflist::judge(names, t, at as u32);
    match judged {
        Ok(_) => 0,
        Err(f) => errors::push(listing, error_of(f), errors),
    }
}

// A refusal of a list as an error.
fn error_of(f: Fault) -> Finding
    requires { f.node < 2 ^ 32 }
    ensures { result ≡ err f.number f.node f.span }
{
    let span = f.span;
    Finding {
        number: f.number,
        node: f.node as u32,
        span: span,
    }
}

// Every mark of a sort in a list, unless the dialect permits it; at is the index of the list's first record. Names do
// not matter to it.
fn marks_of(
    listing: Listing,
    d: Dialect,
    mark: Mark,
    list: &[u8],
    at: usize,
    errors: &mut [u32],
) -> usize
    requires { Within at list.now }
    ensures { StoresFew listing (length list.now / record_bytes)
        (marks d mark (params_in [] (forest at list.now))) errors.old result errors.new }
{
    if permitted(d, mark) {
        return 0;
    }
    every_mark(listing, mark, list, at, errors)
}

// The same where the dialect does not permit it.
fn every_mark(listing: Listing, mark: Mark, list: &[u8], at: usize, errors: &mut [u32]) -> usize
    requires { Within at list.now }
    ensures { StoresFew listing (length list.now / record_bytes)
        (every_mark mark (params_in [] (forest at list.now))) errors.old result errors.new }
{
    let mut total = 0;
    for (place, left) in (Params {
        nodes: Nodes { at, left: list },
    }) {
        let free = errors::free(listing, errors.len(), total);
        total += mark_error(listing, mark, left, place as u32, &mut errors[free..]);
    }
    total
}

// The parameter that a stretch begins with, if it is a mark of a sort; at is its index.
fn mark_error(listing: Listing, mark: Mark, t: &[u8], at: u32, errors: &mut [u32]) -> usize
    ensures { Stores listing (mark_error mark (node_of at t.now) (kind_here t.now))
        errors.old result errors.new }
{
    let other = !is_mark(mark, entry::kind_of(t));
    errors::push_unless(listing, other, number_of(mark), t, at, errors)
}

// Whether a parameter is a mark of a sort.
fn is_mark(mark: Mark, kind: Kind) -> bool
    ensures { result ≡ is_mark mark kind }
{
    match mark {
        Mark::Star => is_star(kind),
        Mark::Slash => entry::is_slash(kind),
    }
}

fn is_star(kind: Kind) -> bool
    ensures { result ≡ is_no_args kind }
{
    match kind {
        Kind::Normal(_) => false,
        Kind::NoArgs => true,
        Kind::Slash => false,
        Kind::Args => false,
        Kind::KwArgs => false,
    }
}

// The switch of a mark.
fn permitted(d: Dialect, mark: Mark) -> bool
    ensures { result ≡ permits d mark }
{
    match mark {
        Mark::Star => d.enable_keyword_only_arguments,
        Mark::Slash => d.enable_positional_only_arguments,
    }
}

// The number of a mark that is not permitted.
fn number_of(mark: Mark) -> u32
    ensures { result ≡ not_permitted mark }
{
    match mark {
        Mark::Star => numbers::STAR_NOT_PERMITTED,
        Mark::Slash => numbers::SLASH_NOT_PERMITTED,
    }
}
