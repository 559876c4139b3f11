// The module pass: which errors a module has in a dialect, stored in a lent list of words as far as they fit, and
// counted in any case.
//
// Ported from src/syntax/validate.rs of starlark_syntax 0.14.2 (validate_module), and changed: a module is a node
// table, and errors go into a lent list.
// Copyright 2018 The Starlark in Rust Authors. Copyright (c) Facebook, Inc. and its affiliates.
// Licensed under Apache-2.0.
#![tactic(auto)]

mod expressions;
mod params;
mod statements;

ghost use Rattle.std.specs.Prelude.{◌≡◌, ◌≤◌, length};
ghost use Rattle.forest.specs.Forest.{forest};
ghost use Rattle.errors.specs.Errors.{kept, stored, Stores};
ghost use Rattle.validate.specs.Module.{validate_module};
ghost use Rattle.validate.specs.Job.{listed, pass_errors, module_of, errors_after};
ghost use Rattle.table.specs.Check.{most_bytes};

use dialect::Dialect;
use errors::Listing;
use table::Refusal;

// The place of a statement.
#[derive(Clone, Copy)]
pub struct Standing {
    pub top_level: bool,
    pub inside_for: bool,
    pub inside_def: bool,
}

// What the walk does at a statement.
#[derive(Clone, Copy)]
pub enum Arm {
    Def, // a def: its own errors, then its body
    Load, // a load: its own errors, and nothing below
    Told(u32), // one error, and nothing below
    Below(Standing), // the statements below, in that place
}

// A mark in a parameter list that a dialect may not permit.
#[derive(Clone, Copy)]
pub enum Mark {
    Star, // the bare `*`
    Slash,
}

// The module job. A list that is too short for all errors gets the first that fit whole; this is not a refusal.
pub fn module(
    table: &[u8],
    names: &[u8],
    dialect: &[u8],
    errors: &mut [u32],
) -> Result<u32, Refusal>
    ensures result_value { listed result ≡ module_of table.now names.now dialect.now }
    ensures errors_after { errors.new ≡
        errors_after table.now names.now dialect.now errors.old }
{
    let d = table::enter_dialect(table, names, dialect)?;
    Ok(pass(Listing::Module, table, names, d, errors))
}

// The module pass alone, for callers that have checked 1 to 5: returns the number of errors that the form of the list
// keeps. It accepts any bytes, and reads at most as many as a table has.
pub fn pass(listing: Listing, table: &[u8], names: &[u8], d: Dialect, errors: &mut [u32]) -> u32
    ensures value { result ≡ length (kept listing (pass_errors d names.now table.now)) }
    ensures errors_after { errors.new ≡
        stored listing (kept listing (pass_errors d names.now table.now)) errors.old }
{
    let total = validate_module(listing, d, names, table::within(table), errors);
    total as u32
}

// The statements, then the expressions. These get the words that the statements leave free.
fn validate_module(
    listing: Listing,
    d: Dialect,
    names: &[u8],
    table: &[u8],
    errors: &mut [u32],
) -> usize
    requires { length table.now ≤ most_bytes }
    ensures { Stores listing (validate_module d names.now (forest 0 table.now))
        errors.old result errors.new }
{
    let top = Standing {
        top_level: true,
        inside_for: false,
        inside_def: false,
    };
    let first = statements::visit_stmt(listing, d, names, table, 0, top, errors);
    let at = errors::free(listing, errors.len(), first);
    let rest = expressions::visit_roots(listing, d, names, table, 0, &mut errors[at..]);
    first + rest
}
