// The walk of the audit: every record in table order, with its role. Siblings are visited in a loop, and children by
// recursion.
ghost use Rattle.std.specs.Prelude.{◌≡◌, ◌*◌};
ghost use Rattle.forest.specs.Forest.{span_of, tree_of, forest};
ghost use Rattle.table.specs.Check.{Headed, Within, most_nodes};
ghost use Rattle.errors.specs.Errors.{Stores};
ghost use Rattle.errors.specs.declared.Listing.TheVariants.{Audit};
ghost use Rattle.validate.specs.Inner.{StoresFew};
ghost use Rattle.audit.specs.Roles.{placed_tree, placed};
ghost use Rattle.audit.specs.Refusals.{refusals};

use crate::{Role, Roles, places, records};
use dialect::{Dialect, Edition};
use errors::Listing;
use forest::RECORD;

// The first record of t, in its role, and then all records below it. Its tree has e bytes.
#[cycle(check_each_check_record)]
fn check_record(
    d: Dialect,
    edition: Edition,
    names: &[u8],
    role: Role,
    t: &[u8],
    e: usize,
    at: usize,
    errors: &mut [u32],
) -> usize
    requires headed { Headed at t.now }
    requires e_value { e ≡ span_of t.now }
    ensures { Stores Audit
        (refusals d edition names.now (placed_tree role (tree_of at t.now))) errors.old result
        errors.new }
{
    let own = records::check_there(d, edition, names, role, t, at as u32, errors);
    if e <= RECORD {
        return own;
    }
    let free = errors::free(Listing::Audit, errors.len(), own);
    let roles = places::roles_of(t);
    let below = check_each(
        d,
        edition,
        names,
        roles,
        &t[RECORD..e],
        at + 1,
        &mut errors[free..],
    );
    own + below
}

// The sibling records in t, in turn; the first has the index at.
#[cycle(check_each_check_record)]
pub(crate) fn check_each(
    d: Dialect,
    edition: Edition,
    names: &[u8],
    first: Roles,
    t: &[u8],
    at: usize,
    errors: &mut [u32],
) -> usize
    requires { Within at t.now }
    ensures { StoresFew Audit (2 * most_nodes)
        (refusals d edition names.now (placed first (forest at t.now))) errors.old result
        errors.new }
{
    let mut left = t;
    let mut place = at;
    let mut roles = first;
    let mut total = 0;
    // no `for` over Nodes: the wrong answer last_record_skipped is about where the walk ends
    while RECORD <= left.len() {
        let free = errors::free(Listing::Audit, errors.len(), total);
        let e = forest::span(left);
        let role = places::role_of(roles, left);
        total += check_record(d, edition, names, role, left, e, place, &mut errors[free..]);
        left = &left[e..];
        place += e / RECORD;
        roles = places::roles_after(roles);
    }
    total
}
