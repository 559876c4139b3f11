// The refusals of the jobs at one record: the job of its kind, then the job of its role. Each job is a call of its own
// crate.
ghost use Rattle.std.specs.Prelude.{◌≡◌, ◌<◌, ◌^◌};
ghost use Rattle.forest.specs.Forest.{node_of, tree_of};
ghost use Rattle.table.specs.Answer.{checked, number_of, carried};
ghost use Rattle.table.specs.Check.{Headed};
ghost use Rattle.deflist.specs.Written.{written};
ghost use Rattle.deflist.specs.Limited.{limited};
ghost use Rattle.deflist.specs.Told.{told};
ghost use Rattle.arguments.specs.Job.{called};
ghost use Rattle.targets.specs.Jobs.{targeted};
ghost use Rattle.types.specs.Jobs.{shaped};
ghost use Rattle.errors.specs.declared.Listing.TheVariants.{Audit};
ghost use Rattle.validate.specs.Inner.{StoresFew};
ghost use Rattle.validate.specs.Params.{unpack_error};
ghost use Rattle.audit.specs.Roles.{placed_as};
ghost use Rattle.audit.specs.Refusals.{refused_err, answer_errors, kind_errors, role_errors, refused_there};

use crate::Role;
use arguments::CallArgs;
use deflist::Fault;
use dialect::{Dialect, Edition};
use errors::{Finding, Listing};
use soundness::kinds;
use table::{Refusal, Span};

// A refusal as an error.
fn error_of(why: Refusal) -> Finding
    ensures { result ≡ refused_err (number_of why) (carried why) }
{
    match why {
        Refusal::Bare(number) => Finding {
            number: number,
            node: 0,
            span: Span {
                begin: 0,
                end: 0,
                file: 0,
            },
        },
        Refusal::Placed { number, node } => Finding {
            number: number,
            node: node,
            span: Span {
                begin: 0,
                end: 0,
                file: 0,
            },
        },
        Refusal::Spanned {
            number,
            node,
            span,
            earlier,
        } => Finding {
            number: number,
            node: node,
            span: span,
        },
    }
}

// Stores a refusal, if there is one and it fits, and counts it in any case.
fn push_refusal(found: Result<(), Refusal>, errors: &mut [u32]) -> usize
    ensures { StoresFew Audit 1 (answer_errors (checked found)) errors.old result errors.new }
{
    match found {
        Ok(()) => 0,
        Err(why) => errors::push(Listing::Audit, error_of(why), errors),
    }
}

// The refusal, if there is one, in the answer about a call, a target or an assignment, and a type.
fn of_call(answer: Result<CallArgs, Refusal>) -> Result<(), Refusal>
    ensures { answer_errors (checked result) ≡ answer_errors (called answer) }
{
    answer?;
    Ok(())
}

fn of_target(answer: Result<u32, Refusal>) -> Result<(), Refusal>
    ensures { answer_errors (checked result) ≡ answer_errors (targeted answer) }
{
    answer?;
    Ok(())
}

fn of_type(answer: Result<(), Refusal>) -> Result<(), Refusal>
    ensures { answer_errors (checked result) ≡ answer_errors (shaped answer) }
{
    match answer {
        Ok(()) => Ok(()),
        Err(why) => Err(why),
    }
}

// The error of a parameter list; the earlier node is not reported.
fn of_fault(f: Fault) -> Result<(), Refusal>
    requires { f.node < 2 ^ 32 }
    ensures { answer_errors (checked result) ≡ unpack_error (Err f) }
{
    let span = f.span;
    let node = f.node;
    Err(Refusal::Spanned {
        number: f.number,
        node: node as u32,
        span: span,
        earlier: None,
    })
}

fn of_list(names: &[u8], t: &[u8], at: u32) -> Result<(), Refusal>
    requires { Headed at t.now }
    ensures { answer_errors (checked result) ≡
        unpack_error (told (limited (node_of at t.now) (written names.now at t.now))) }
{
    let judged = deflist::judge(names, t, at);
    match judged {
        Ok(_) => Ok(()),
        Err(f) => of_fault(f),
    }
}

// The job of the kind of the first record of t.
fn by_kind(names: &[u8], t: &[u8], at: u32) -> Result<(), Refusal>
    requires { Headed at t.now }
    ensures { answer_errors (checked result) ≡ kind_errors names.now (tree_of at t.now) }
{
    match forest::kind(t) {
        kinds::DEF => of_list(names, t, at),
        kinds::LAMBDA => of_list(names, t, at),
        kinds::CALL => of_call(arguments::judge(names, t, at)),
        kinds::ASSIGN => of_target(targets::judge_assignment(t, at)),
        kinds::ASSIGN_MODIFY => of_target(targets::judge_assignment(t, at)),
        _ => Ok(()),
    }
}

// The job of its role.
fn by_role(
    d: Dialect,
    edition: Edition,
    names: &[u8],
    role: Role,
    t: &[u8],
    at: u32,
) -> Result<(), Refusal>
    requires { Headed at t.now }
    ensures { answer_errors (checked result) ≡
        role_errors d edition names.now role (tree_of at t.now) }
{
    match role {
        Role::AsTarget => of_target(targets::judge_target(t, at)),
        Role::AsType => of_type(types::judge_type(names, d, edition, t, at)),
        Role::Plain => Ok(()),
    }
}

// Both jobs, in this order.
pub(crate) fn check_there(
    d: Dialect,
    edition: Edition,
    names: &[u8],
    role: Role,
    t: &[u8],
    at: u32,
    errors: &mut [u32],
) -> usize
    requires { Headed at t.now }
    ensures { StoresFew Audit 2
        (refused_there d edition names.now (placed_as role (tree_of at t.now)))
        errors.old result
        errors.new }
{
    let first = push_refusal(by_kind(names, t, at), errors);
    let free = errors::free(Listing::Audit, errors.len(), first);
    let rest = push_refusal(by_role(d, edition, names, role, t, at), &mut errors[free..]);
    first + rest
}
