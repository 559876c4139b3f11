// Call arguments: positional, then named, then at most one star, then at most one `**`, names distinct.
//
// Ported from src/syntax/call.rs of starlark_syntax 0.14.2, and changed: the arguments are records of a node table, the
// set of names is a search.
// Copyright 2018 The Starlark in Rust Authors. Copyright (c) Facebook, Inc. and its affiliates.
// Licensed under Apache-2.0.
#![tactic(auto)]

ghost use Rattle.std.specs.Prelude.{◌≡◌, ◌<◌, ◌≤◌, length, take};
ghost use Rattle.forest.specs.Forest.{node_of, forest, tree_of};
ghost use Rattle.forest.specs.Marks.{Known};
ghost use Rattle.table.specs.Answer.{checked};
ghost use Rattle.table.specs.Check.{Headed, Within, headed_of};
ghost use Rattle.arguments.specs.Written.{kind_at, arguments_in};
ghost use Rattle.arguments.specs.Call.{past_positional, past_named, in_kwargs, first_same, new_name};
ghost use Rattle.arguments.specs.Call.{positional_rule, args_rule, kwargs_rule, named_rule, rule as rule_of};
ghost use Rattle.arguments.specs.Call.{next_stage, count as count_of, advance as advance_of, unpack as unpack_of};
ghost use Rattle.arguments.specs.Reading.{SmallCheck, Earlier, Meets};
ghost use Rattle.arguments.specs.Job.{name_stop, name_span, check_answer, outcome_answer, call_answer, called, call_of};

use forest::{Nodes, RECORD, marks};
use soundness::kinds;
use table::{Entries, Refusal, Span, Wanted, named, numbers};

// The stage of unpack: how far it is in the arguments, in this order.
#[derive(Clone, Copy)]
pub enum ArgsStage {
    Positional,
    Named,
    Args,
    Kwargs,
}

// An argument's kind.
#[derive(Clone, Copy)]
pub enum Kind {
    Positional,
    Named,
    Args,
    KwArgs,
}

// A list of arguments in numbers: how many are positional and named, and the places of the star and the `**`.
#[derive(Clone, Copy)]
pub struct CallArgs {
    pub num_pos: u32,
    pub num_named: u32,
    pub star: Option<u32>,
    pub star_star: Option<u32>,
}

// All that unpack keeps from one argument to the next.
#[derive(Clone, Copy)]
pub struct Walk {
    pub stage: ArgsStage,
    pub counts: CallArgs,
}

// The result of checking one argument: fine, the number of a refusal at it, or 22 at its name with the node of the
// earlier argument.
#[derive(Clone, Copy)]
pub enum Check {
    Fine,
    Broken(u32),
    Repeated(usize),
}

// The call job: 1 to 4, 6, then 20 to 24; or the arguments in numbers.
pub fn call(table: &[u8], names: &[u8], node: usize) -> Result<CallArgs, Refusal>
    ensures { called result ≡ call_of table.now names.now node }
{
    table::enter(table, names, node, Wanted::Call)?;
    arguments(table::stretch(table, node), names, node)
}

// The first call of a stretch, for callers that have checked the table: 20 to 24, or the arguments in numbers. Its
// first record has the index `node`. Takes any bytes; a stretch that cannot be a part of a table is not read.
pub fn judge(names: &[u8], t: &[u8], node: u32) -> Result<CallArgs, Refusal>
    ensures { called result ≡ call_answer names.now (tree_of node (headed_of node t.now)) }
{
    if !table::is_headed(t, node) {
        return Ok(CallArgs {
            num_pos: 0,
            num_named: 0,
            star: None,
            star_star: None,
        });
    }
    arguments(t, names, node as usize)
}

// The arguments of the first call of a stretch: what follows its callee.
fn arguments(t: &[u8], names: &[u8], node: usize) -> Result<CallArgs, Refusal>
    requires { Headed node t.now }
    ensures { called result ≡ call_answer names.now (tree_of node t.now) }
{
    let e = forest::span(t);
    let kids = &t[RECORD..e];
    let c = forest::span(kids);
    unpack(&kids[c..], names, node + 1 + c / RECORD)
}

// CallArgsUnpack::unpack of a list of arguments, the first of which is the node `first`. The number of marks depends
// on the length of the list.
fn unpack(args: &[u8], names: &[u8], first: usize) -> Result<CallArgs, Refusal>
    requires { Within first args.now }
    ensures { called result ≡
        outcome_answer (unpack_of (arguments_in names.now (forest first args.now))) }
{
    if marks::LONG <= args.len() {
        return with_many(args, names, first);
    }
    if marks::SHORT <= args.len() {
        return with_some(args, names, first);
    }
    let mut none = [0u8; 1];
    in_turn(args, names, first, &mut none[0..0])
}

// The same with MANY marks, and with SOME.
fn with_many(args: &[u8], names: &[u8], first: usize) -> Result<CallArgs, Refusal>
    requires { Within first args.now }
    ensures { called result ≡
        outcome_answer (unpack_of (arguments_in names.now (forest first args.now))) }
{
    let mut noted = [0u8; marks::MANY];
    in_turn(args, names, first, &mut noted)
}

fn with_some(args: &[u8], names: &[u8], first: usize) -> Result<CallArgs, Refusal>
    requires { Within first args.now }
    ensures { called result ≡
        outcome_answer (unpack_of (arguments_in names.now (forest first args.now))) }
{
    let mut noted = [0u8; marks::SOME];
    in_turn(args, names, first, &mut noted)
}

// The arguments in turn. Notes their names in the marks.
fn in_turn(args: &[u8], names: &[u8], first: usize, noted: &mut [u8]) -> Result<CallArgs, Refusal>
    requires { Within first args.now }
    ensures { called result ≡
        outcome_answer (unpack_of (arguments_in names.now (forest first args.now))) }
{
    let mut w = Walk {
        stage: ArgsStage::Positional,
        counts: CallArgs {
            num_pos: 0,
            num_named: 0,
            star: None,
            star_star: None,
        },
    };
    for (n, (at, left)) in (Nodes {
        at: first,
        left: args,
    })
    .enumerate()
    {
        let found = repeated(names, args, first, n, left, noted);
        let stage = w.stage;
        let kind = kind_of(left);
        refused(check_argument(stage, found, kind), at as u32, left)?;
        w = advance(w, n as u32, kind);
    }
    let counts = w.counts;
    Ok(counts)
}

// A broken argument is refused with its span; a repeated name with the span of the name and the earlier argument.
fn refused(c: Check, at: u32, t: &[u8]) -> Result<(), Refusal>
    requires { SmallCheck c }
    ensures { checked result ≡ check_answer c (node_of at t.now) }
{
    match c {
        Check::Fine => Ok(()),
        Check::Broken(number) => Err(table::refused_at(number, at, t)),
        Check::Repeated(i) => {
            let earlier = i as u32;
            Err(table::refused_in(numbers::REPEATED_NAMED, at, name_span(t), Some(earlier)))
        }
    }
}

// Where a name's span ends: at its position plus its length.
fn name_stop(t: &[u8]) -> u32
    ensures { result ≡ name_stop (node_of 0 t.now) }
{
    let begin = forest::source(t);
    let len = forest::name_len(t) as u32;
    if 4294967295 - len < begin {
        return 4294967295;
    }
    begin + len
}

// The span of the name of the first argument of a stretch; the source file is the argument's.
fn name_span(t: &[u8]) -> Span
    ensures { result ≡ name_span (node_of 0 t.now) }
{
    Span {
        begin: forest::source(t),
        end: name_stop(t),
        file: forest::file(t) as u32,
    }
}

// The kind of the first argument of a stretch.
fn kind_of(t: &[u8]) -> Kind
    ensures { result ≡ kind_at (node_of 0 t.now).kind }
{
    match forest::kind(t) {
        kinds::POSITIONAL => Kind::Positional,
        kinds::NAMED => Kind::Named,
        kinds::ARGS_ARG => Kind::Args,
        _ => Kind::KwArgs,
    }
}

// stage != Positional
fn past_positional(stage: ArgsStage) -> bool
    ensures { result ≡ past_positional stage }
{
    match stage {
        ArgsStage::Positional => false,
        ArgsStage::Named => true,
        ArgsStage::Args => true,
        ArgsStage::Kwargs => true,
    }
}

// stage > Named
fn past_named(stage: ArgsStage) -> bool
    ensures { result ≡ past_named stage }
{
    match stage {
        ArgsStage::Positional => false,
        ArgsStage::Named => false,
        ArgsStage::Args => true,
        ArgsStage::Kwargs => true,
    }
}

// stage == Kwargs
fn in_kwargs(stage: ArgsStage) -> bool
    ensures { result ≡ in_kwargs stage }
{
    match stage {
        ArgsStage::Positional => false,
        ArgsStage::Named => false,
        ArgsStage::Args => false,
        ArgsStage::Kwargs => true,
    }
}

// The node of the first of n arguments that is named and has this name; `first` is the node of the first of them.
fn earlier(names: &[u8], name: &[u8], args: &[u8], first: usize, n: usize) -> Option<usize>
    requires { Within first args.now × (n ≤ length (arguments_in names.now (forest first args.now))) }
    ensures { Earlier name.now
        (take n (arguments_in names.now (forest first args.now))) result }
{
    let found = named::first_named(Entries::Arguments, names, name, args, n);
    match found {
        Some(i) => Some(first + i),
        None => None,
    }
}

// The first of the n arguments before it that has the name of the first argument of `left`. Notes that name; where the
// marks show that it is new, nothing is searched.
fn repeated(
    names: &[u8],
    args: &[u8],
    first: usize,
    n: usize,
    left: &[u8],
    noted: &mut [u8],
) -> Option<usize>
    requires { Within first args.now ×
        (n ≤ length (arguments_in names.now (forest first args.now))) ×
        Known first_same noted.old (take n (arguments_in names.now (forest first args.now))) }
    ensures { Meets names.now
        (take n (arguments_in names.now (forest first args.now))) left.now
        noted.new result }
{
    if forest::kind(left) != kinds::NAMED {
        return None;
    }
    let name = forest::names::name(names, left);
    if !marks::note(noted, name) {
        return None;
    }
    earlier(names, name, args, first, n)
}

// 20 (positional after another kind).
fn positional_rule(stage: ArgsStage) -> Check
    ensures { result ≡ positional_rule stage }
{
    if past_positional(stage) {
        return Check::Broken(numbers::POSITIONAL_AFTER_NON_POSITIONAL);
    }
    Check::Fine
}

// 22 (a repeated name), from the result of the search among earlier names.
fn new_name(found: Option<usize>) -> Check
    ensures { result ≡ new_name found }
{
    match found {
        Some(i) => Check::Repeated(i),
        None => Check::Fine,
    }
}

// 21 (named after a star or `**`), then 22.
fn named_rule(stage: ArgsStage, found: Option<usize>) -> Check
    ensures { result ≡ named_rule stage found }
{
    if past_named(stage) {
        return Check::Broken(numbers::NAMED_AFTER_STAR);
    }
    new_name(found)
}

// 23 (a second star, or a star after `**`).
fn args_rule(stage: ArgsStage) -> Check
    ensures { result ≡ args_rule stage }
{
    if past_named(stage) {
        return Check::Broken(numbers::SECOND_STAR);
    }
    Check::Fine
}

// 24 (a second `**`).
fn kwargs_rule(stage: ArgsStage) -> Check
    ensures { result ≡ kwargs_rule stage }
{
    if in_kwargs(stage) {
        return Check::Broken(numbers::SECOND_KWARGS);
    }
    Check::Fine
}

// The rule of an argument's kind, from the result of the search among earlier names.
fn check_argument(stage: ArgsStage, found: Option<usize>, kind: Kind) -> Check
    ensures { result ≡ rule_of stage found kind }
{
    match kind {
        Kind::Positional => positional_rule(stage),
        Kind::Named => named_rule(stage, found),
        Kind::Args => args_rule(stage),
        Kind::KwArgs => kwargs_rule(stage),
    }
}

fn next_stage(stage: ArgsStage, kind: Kind) -> ArgsStage
    ensures { result ≡ next_stage stage kind }
{
    match kind {
        Kind::Positional => stage,
        Kind::Named => ArgsStage::Named,
        Kind::Args => ArgsStage::Args,
        Kind::KwArgs => ArgsStage::Kwargs,
    }
}

// The counts after an argument of a kind, at this place among the arguments.
fn count(c: CallArgs, place: u32, kind: Kind) -> CallArgs
    requires { (c.num_pos < 4294967295) × (c.num_named < 4294967295) }
    ensures { result ≡ count_of c place kind }
{
    let num_pos = c.num_pos;
    let num_named = c.num_named;
    let star = c.star;
    let star_star = c.star_star;
    match kind {
        Kind::Positional => CallArgs {
            num_pos: num_pos + 1,
            num_named,
            star,
            star_star,
        },
        Kind::Named => CallArgs {
            num_pos,
            num_named: num_named + 1,
            star,
            star_star,
        },
        Kind::Args => CallArgs {
            num_pos,
            num_named,
            star: Some(place),
            star_star,
        },
        Kind::KwArgs => CallArgs {
            num_pos,
            num_named,
            star,
            star_star: Some(place),
        },
    }
}

// The state after an argument of a kind, at this place among the arguments.
fn advance(w: Walk, place: u32, kind: Kind) -> Walk
    requires { (w.counts.num_pos < 4294967295) × (w.counts.num_named < 4294967295) }
    ensures { result ≡ advance_of w place kind }
{
    let stage = w.stage;
    let counts = w.counts;
    Walk {
        stage: next_stage(stage, kind),
        counts: count(counts, place, kind),
    }
}
