// Which records are a target or a type by their place.
ghost use Rattle.std.specs.Prelude.{◌≡◌};
ghost use Rattle.forest.specs.Forest.{node_of};
ghost use Rattle.audit.specs.Roles.{if_typed, roles_of, role_of, roles_after};
ghost use Rattle.audit.specs.declared.Roles.TheVariants.{ReturnType};

use crate::{Role, Roles};
use soundness::{classes, kinds};

// The roles if the record has a type, else none.
fn if_typed(typed: bool, roles: Roles) -> Roles
    ensures { result ≡ if_typed typed roles }
{
    if typed {
        return roles;
    }
    Roles::Nowhere
}

// Which children of the first record of t have a role.
pub(crate) fn roles_of(t: &[u8]) -> Roles
    ensures { result ≡ roles_of (node_of 0 t.now).kind (node_of 0 t.now).detail }
{
    let detail = forest::detail(t);
    match forest::kind(t) {
        kinds::FOR => Roles::TargetFirst,
        kinds::DEF => if_typed(detail == 1, Roles::ReturnType),
        kinds::ASSIGN => if_typed(detail == 1, Roles::TypeSecond),
        kinds::ASSIGN_MODIFY => if_typed(detail == 1, Roles::TypeSecond),
        kinds::NORMAL => if_typed((detail == 1) | (detail == 3), Roles::TypeFirst),
        kinds::ARGS_PARAM => if_typed(detail == 1, Roles::TypeFirst),
        kinds::KW_ARGS_PARAM => if_typed(detail == 1, Roles::TypeFirst),
        _ => Roles::Nowhere,
    }
}

// The role of a child of a Def that has a return type: the expression is the type.
fn if_expression(t: &[u8]) -> Role
    ensures { result ≡ role_of ReturnType (node_of 0 t.now).kind }
{
    if table::class(t) == classes::EXPRESSION {
        return Role::AsType;
    }
    Role::Plain
}

// The role of the next child, which is at the start of t.
pub(crate) fn role_of(roles: Roles, t: &[u8]) -> Role
    ensures { result ≡ role_of roles (node_of 0 t.now).kind }
{
    match roles {
        Roles::Nowhere => Role::Plain,
        Roles::TargetFirst => Role::AsTarget,
        Roles::TypeFirst => Role::AsType,
        Roles::TypeSecond => Role::Plain,
        Roles::ReturnType => if_expression(t),
    }
}

// The roles of the children after it.
pub(crate) fn roles_after(roles: Roles) -> Roles
    ensures { result ≡ roles_after roles }
{
    match roles {
        Roles::Nowhere => Roles::Nowhere,
        Roles::TargetFirst => Roles::Nowhere,
        Roles::TypeFirst => Roles::Nowhere,
        Roles::TypeSecond => Roles::TypeFirst,
        Roles::ReturnType => Roles::ReturnType,
    }
}
