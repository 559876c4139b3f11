// Stores errors in a lent list of words. A check is lent only the words that are still free; it counts all its errors,
// and stores the first that fit whole. The form of the list says how many words an error has, and which errors are left
// out.
#![tactic(auto)]

ghost use Rattle.std.specs.Prelude.{◌≡◌, ◌*◌, min};
ghost use Rattle.forest.specs.Forest.{node_of};
ghost use Rattle.errors.specs.Errors.{err_at, only, unless, is_list_error, width, Stores};
ghost use Rattle.errors.specs.declared.Listing.TheVariants.{Module, Own, Audit, Numbers};

use table::{Span, numbers};

// Number of words of an error of the module pass: its number, source file, begin and end.
pub const WIDTH: usize = 4;

// Number of words of an error with its node, which comes last.
pub const WIDTH_WITH_NODE: usize = WIDTH + 1;

// An error: its number, the index of its record, and its place in the script.
#[derive(Clone, Copy)]
pub struct Finding {
    pub number: u32,
    pub node: u32,
    pub span: Span,
}

// The form of a list of errors.
#[derive(Clone, Copy)]
pub enum Listing {
    Module, // of the module pass: WIDTH words an error
    Own, // of the module pass in the audit: with the node; errors of parameter lists, 10 to 19, are left out
    Audit, // of the audit: with the node
    Numbers, // of the module pass, for callers that count errors: the number alone, one word an error
}

// Stores one error if there is room for it, and counts it in any case, if the form keeps it.
pub fn push(listing: Listing, e: Finding, errors: &mut [u32]) -> usize
    ensures { Stores listing (only e) errors.old result errors.new }
{
    match listing {
        Listing::Module => push_short(e, errors),
        Listing::Own => push_own(e, errors),
        Listing::Audit => push_long(e, errors),
        Listing::Numbers => push_number(e, errors),
    }
}

// Stores an error without its node.
fn push_short(e: Finding, errors: &mut [u32]) -> usize
    ensures { Stores Module (only e) errors.old result errors.new }
{
    let span = e.span;
    if WIDTH <= errors.len() {
        errors[0] = e.number;
        errors[1] = span.file;
        errors[2] = span.begin;
        errors[3] = span.end;
    }
    1
}

// Stores an error with its node.
fn push_long(e: Finding, errors: &mut [u32]) -> usize
    ensures { Stores Audit (only e) errors.old result errors.new }
{
    let place = e.span;
    if WIDTH_WITH_NODE <= errors.len() {
        errors[0] = e.number;
        errors[1] = place.file;
        errors[2] = place.begin;
        errors[3] = place.end;
        errors[4] = e.node;
    }
    1
}

// Stores the number of an error.
fn push_number(e: Finding, errors: &mut [u32]) -> usize
    ensures { Stores Numbers (only e) errors.old result errors.new }
{
    if 1 <= errors.len() {
        errors[0] = e.number;
    }
    1
}

// Stores an error with its node, unless it is an error of a parameter list.
fn push_own(e: Finding, errors: &mut [u32]) -> usize
    ensures { Stores Own (only e) errors.old result errors.new }
{
    if !is_list_error(e.number) {
        return push_long(e, errors);
    }
    0
}

// Whether a number is that of an error of parameter lists, 10 to 19.
fn is_list_error(number: u32) -> bool
    ensures { result ≡ is_list_error number }
{
    (numbers::SLASH_FIRST <= number) & (number <= numbers::TOO_MANY_PARAMETERS)
}

// The error with a number at the first record of t, whose index is at.
fn error_at(number: u32, t: &[u8], at: u32) -> Finding
    ensures { result ≡ err_at number (node_of at t.now) }
{
    Finding {
        number: number,
        node: at,
        span: table::span_of(t),
    }
}

// Stores an error at the first record of t, whose index is at.
pub fn push_at(listing: Listing, number: u32, t: &[u8], at: u32, errors: &mut [u32]) -> usize
    ensures { Stores listing (only (err_at number (node_of at t.now))) errors.old result
        errors.new }
{
    push(listing, error_at(number, t, at), errors)
}

// Stores an error at the first record of t, unless something is permitted.
pub fn push_unless(
    listing: Listing,
    permitted: bool,
    number: u32,
    t: &[u8],
    at: u32,
    errors: &mut [u32],
) -> usize
    ensures { Stores listing (unless permitted number (node_of at t.now)) errors.old result
        errors.new }
{
    if permitted {
        return 0;
    }
    push_at(listing, number, t, at, errors)
}

// The index of the first free word after count errors in a list of len words; len if there is none. Walks ask for it at
// every node, mostly before the first error.
pub fn free(listing: Listing, len: usize, count: usize) -> usize
    ensures { result ≡ min (width listing * count) len }
{
    if count == 0 {
        return 0usize;
    }
    match listing {
        Listing::Module => free_short(len, count),
        Listing::Own => free_long(len, count),
        Listing::Audit => free_long(len, count),
        Listing::Numbers => free_numbers(len, count),
    }
}

// The same for errors without their node, for errors with it, and for numbers.
fn free_short(len: usize, count: usize) -> usize
    ensures { result ≡ min (width Module * count) len }
{
    if count <= len / WIDTH {
        return WIDTH * count;
    }
    len
}

fn free_long(len: usize, count: usize) -> usize
    ensures { result ≡ min (width Audit * count) len }
{
    if count <= len / WIDTH_WITH_NODE {
        return WIDTH_WITH_NODE * count;
    }
    len
}

fn free_numbers(len: usize, count: usize) -> usize
    ensures { result ≡ min (width Numbers * count) len }
{
    if count <= len {
        return count;
    }
    len
}
