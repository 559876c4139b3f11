// The check of a node table (1 to 4), the checks shared by all jobs on a node (6) or in a dialect (5), the stretch of a
// node, and the type of refusals.
#![tactic(auto)]

mod depth;
pub mod named;
pub mod numbers;

ghost use Rattle.std.specs.Prelude.{◌≡◌, ◌∷◌, ◌++◌, take};
ghost use Rattle.forest.specs.Forest.{node_of, forest};
ghost use Rattle.table.specs.Depth.{first_deep};
ghost use Rattle.soundness.specs.Kinds.{class_of};
ghost use Rattle.table.specs.Answer.{refused, refused_at, number_of, node_in, extent_in, refusal, checked, span_at};
ghost use Rattle.table.specs.Answer.{span_values, earlier_in, earlier_values};
ghost use Rattle.table.specs.Check.{length_sound, check_of, given, given_of, wants, node_fits, stretch_of, entry_check};
ghost use Rattle.table.specs.Check.{most_bytes, is_headed, ruled, rules_of};

use dialect::{Dialect, Edition};
use forest::RECORD;
use soundness::{classes, kinds};

// A part of a script: from `begin` to before `end`, in the source file of this number.
#[derive(Clone, Copy)]
pub struct Span {
    pub begin: u32,
    pub end: u32,
    pub file: u32,
}

// The limits of a table: nodes, bytes (24 a node) and name bytes.
pub const MOST_NODES: usize = 2100;

pub const MOST_BYTES: usize = RECORD * MOST_NODES;

pub const MOST_NAMES: usize = 8064;

// Why a job refuses: a number, and what it carries: nothing, the node, or the node with its span and, for a repeated
// name, the earlier node.
#[derive(Clone, Copy)]
pub enum Refusal {
    Bare(u32),
    Placed {
        number: u32,
        node: u32,
    },
    Spanned {
        number: u32,
        node: u32,
        span: Span,
        earlier: Option<u32>,
    },
}

// The kinds of node that a job accepts.
#[derive(Clone, Copy)]
pub enum Wanted {
    Parameters,
    Call,
    Assignment,
    Expression,
}

// The entries of a list.
#[derive(Clone, Copy)]
pub enum Entries {
    Parameters,
    Arguments,
}

// Whether a table has 1 to 2,100 whole records.
fn length_sound(n: usize) -> bool
    ensures { result ≡ length_sound n }
{
    (RECORD <= n) & ((n <= MOST_BYTES) & (n % RECORD == 0))
}

// The check of a table: 1, 2, 3 and 4 in this order.
pub fn check(table: &[u8], names: &[u8]) -> Result<(), Refusal>
    ensures { checked result ≡ check_of table.now names.now }
{
    if !length_sound(table.len()) {
        return Err(Refusal::Bare(numbers::TABLE_LENGTH));
    }
    if MOST_NAMES < names.len() {
        return Err(Refusal::Bare(numbers::NAME_BYTES));
    }
    if let Some(i) = soundness::first_unsound(table, names) {
        return Err(Refusal::Placed {
            number: numbers::UNSOUND_RECORD,
            node: i as u32,
        });
    }
    if let Some(i) = depth::first_deep(table) {
        return Err(Refusal::Placed {
            number: numbers::TOO_DEEP,
            node: i as u32,
        });
    }
    Ok(())
}

// The first node that is too deep among children of the root: t is their stretch.
pub fn deep_under_root(t: &[u8]) -> Option<usize>
    ensures { result ≡ first_deep 1 (forest 0 t.now) }
{
    depth::deep_from(t, 0, 1)
}

// The class of the first record of a stretch, a number of `soundness::classes`; 0 if its kind is none.
pub fn class(t: &[u8]) -> u8
    ensures { result ≡ class_of (node_of 0 t.now).kind }
{
    soundness::class(forest::kind(t))
}

// A refusal's number.
pub fn number(why: Refusal) -> u32
    ensures { result ≡ number_of why }
{
    match why {
        Refusal::Bare(number) => number,
        Refusal::Placed { number, node } => number,
        Refusal::Spanned {
            number,
            node,
            span,
            earlier,
        } => number,
    }
}

// The node that a refusal carries.
pub fn node_of(why: Refusal) -> Option<u32>
    ensures { result ≡ node_in why }
{
    match why {
        Refusal::Bare(number) => None,
        Refusal::Placed { number, node } => Some(node),
        Refusal::Spanned {
            number,
            node,
            span,
            earlier,
        } => Some(node),
    }
}

// The span that a refusal carries.
pub fn extent_of(why: Refusal) -> Option<Span>
    ensures { result ≡ extent_in why }
{
    match why {
        Refusal::Bare(number) => None,
        Refusal::Placed { number, node } => None,
        Refusal::Spanned {
            number,
            node,
            span,
            earlier,
        } => Some(span),
    }
}

// The earlier node that a refusal carries.
pub fn earlier_of(why: Refusal) -> Option<u32>
    ensures { result ≡ earlier_in why }
{
    match why {
        Refusal::Bare(number) => None,
        Refusal::Placed { number, node } => None,
        Refusal::Spanned {
            number,
            node,
            span,
            earlier,
        } => earlier,
    }
}

// The span of the first record of a stretch.
pub fn span_of(t: &[u8]) -> Span
    ensures { result ≡ span_at (node_of 0 t.now) }
{
    Span {
        begin: forest::begin(t),
        end: forest::stop(t),
        file: forest::file(t) as u32,
    }
}

// A refusal at a node, with a span, and with an earlier node if there is one.
pub fn refused_in(number: u32, node: u32, span: Span, earlier: Option<u32>) -> Refusal
    ensures { refusal result ≡ refused number (node ∷ span_values span ++ earlier_values earlier) }
{
    Refusal::Spanned {
        number: number,
        node: node,
        span: span,
        earlier: earlier,
    }
}

// A refusal at the first record of a stretch, with its span.
pub fn refused_at(number: u32, node: u32, t: &[u8]) -> Refusal
    ensures { refusal result ≡ refused_at number (node_of node t.now) }
{
    refused_in(number, node, span_of(t), None)
}

// Whether a job accepts a record of this kind.
fn wanted_kind(wanted: Wanted, kind: u8) -> bool
    ensures { result ≡ wants wanted kind }
{
    match wanted {
        Wanted::Parameters => (kind == kinds::DEF) | (kind == kinds::LAMBDA),
        Wanted::Call => kind == kinds::CALL,
        Wanted::Assignment => (kind == kinds::ASSIGN) | (kind == kinds::ASSIGN_MODIFY),
        Wanted::Expression => soundness::class(kind) == classes::EXPRESSION,
    }
}

// Whether the node of a job is within the table and of a kind that the job accepts. If not, the job gives 6.
pub fn node_fits(table: &[u8], node: usize, wanted: Wanted) -> bool
    ensures { result ≡ node_fits table.now node wanted }
{
    if table.len() / RECORD <= node {
        return false;
    }
    let a = RECORD * node;
    wanted_kind(wanted, forest::kind(&table[a..]))
}

// A node's subtree, as a stretch of the table.
pub fn stretch(table: &[u8], node: usize) -> &[u8]
    ensures { result.now ≡ stretch_of table.now node }
{
    if table.len() / RECORD <= node {
        return &table[0..0];
    }
    let a = RECORD * node;
    let size = forest::size(&table[a..]) as usize;
    let e = RECORD * (node + size);
    if table.len() < e {
        return &table[a..];
    }
    &table[a..e]
}

// The bytes, cut after 2,100 records, the most that a table has.
pub fn within(t: &[u8]) -> &[u8]
    ensures { result.now ≡ take most_bytes t.now }
{
    if t.len() <= MOST_BYTES {
        return t;
    }
    &t[0..MOST_BYTES]
}

// Whether a stretch begins with a record and, with its first record at this index, lies within the largest table.
pub fn is_headed(t: &[u8], node: u32) -> bool
    ensures { result ≡ is_headed node t.now }
{
    if t.len() <= MOST_BYTES {
        let before = RECORD * (node as usize);
        return (before + t.len() <= MOST_BYTES) & (RECORD <= t.len());
    }
    false
}

// The checks with which a job on a node begins: 1 to 4, then 6. The node's subtree is then `stretch`.
pub fn enter(table: &[u8], names: &[u8], node: usize, wanted: Wanted) -> Result<(), Refusal>
    ensures { checked result ≡ entry_check wanted table.now names.now node }
{
    check(table, names)?;
    if !node_fits(table, node, wanted) {
        return Err(Refusal::Bare(numbers::WRONG_NODE));
    }
    Ok(())
}

// The checks with which a job in a dialect begins: 1 to 4, then 5.
pub fn enter_dialect(table: &[u8], names: &[u8], bytes: &[u8]) -> Result<Dialect, Refusal>
    ensures { given result ≡ given_of table.now names.now bytes.now }
{
    check(table, names)?;
    dialect::from_bytes(bytes).ok_or(Refusal::Bare(numbers::BAD_DIALECT))
}

// The checks with which a job that reads types begins: 1 to 4, 5 for the dialect bytes, then 5 for the edition.
pub fn enter_rules(
    table: &[u8],
    names: &[u8],
    bytes: &[u8],
    read: Option<Edition>,
) -> Result<(Dialect, Edition), Refusal>
    ensures { ruled result ≡ rules_of table.now names.now bytes.now read }
{
    let d = enter_dialect(table, names, bytes)?;
    let e = read.ok_or(Refusal::Bare(numbers::BAD_DIALECT))?;
    Ok((d, e))
}
