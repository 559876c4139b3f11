// The audit: every job on every node that it fits, in a table that is checked once. First come the errors of the module
// pass without those of parameter lists, then the refusals of the jobs, record by record. All are counted; those that
// fit are stored in a lent list of words.
#![tactic(auto)]

mod places;
mod records;
mod walk;

ghost use Rattle.std.specs.Prelude.{◌≡◌, length};
ghost use Rattle.errors.specs.Errors.{stored};
ghost use Rattle.errors.specs.declared.Listing.TheVariants.{Audit};
ghost use Rattle.validate.specs.Job.{listed};
ghost use Rattle.audit.specs.Job.{audit_errors, audit_of, audit_after};

use dialect::{Dialect, Edition};
use errors::Listing;
use table::Refusal;

// The role of a record, which its parent gives it.
#[derive(Clone, Copy)]
pub enum Role {
    AsTarget,
    AsType,
    Plain,
}

// Which of some siblings have a role.
#[derive(Clone, Copy)]
pub enum Roles {
    Nowhere,
    TargetFirst,
    TypeFirst,
    TypeSecond,
    ReturnType, // the one that is an expression
}

// The audit in an edition, which is given by its number. A list that is too short for all errors gets the first that
// fit whole; this is not a refusal.
pub fn audit(
    table: &[u8],
    names: &[u8],
    dialect: &[u8],
    edition: u32,
    errors: &mut [u32],
) -> Result<u32, Refusal>
    ensures result_value { listed result ≡ audit_of table.now names.now dialect.now edition }
    ensures errors_after { errors.new ≡
        audit_after table.now names.now dialect.now edition errors.old }
{
    let (d, e) = table::enter_rules(table, names, dialect, dialect::edition_of(edition))?;
    Ok(pass(table, names, d, e, errors))
}

// The audit alone, for callers that have checked 1 to 5: returns the number of errors. It accepts any bytes, and reads
// at most as many as a table has.
pub fn pass(table: &[u8], names: &[u8], d: Dialect, edition: Edition, errors: &mut [u32]) -> u32
    ensures value { result ≡ length (audit_errors d edition names.now table.now) }
    ensures errors_after { errors.new ≡
        stored Audit (audit_errors d edition names.now table.now) errors.old }
{
    let first = validate::pass(Listing::Own, table, names, d, errors) as usize;
    let free = errors::free(Listing::Audit, errors.len(), first);
    let t = table::within(table);
    let rest = walk::check_each(d, edition, names, Roles::Nowhere, t, 0, &mut errors[free..]);
    (first + rest) as u32
}
