// The first parameter of a stretch.
ghost use Rattle.std.specs.Prelude.{◌≡◌};
ghost use Rattle.deflist.specs.Written.{has_default};
ghost use Rattle.deflist.specs.Unpack.{is_slash};
ghost use Rattle.deflist.specs.Reading.{is_listed, kind_here};

use crate::Kind;
use forest::RECORD;
use soundness::{classes, kinds};

// Whether a stretch begins with a parameter.
pub fn listed(t: &[u8]) -> bool
    ensures { result ≡ is_listed t.now }
{
    (RECORD <= t.len()) & (table::class(t) == classes::PARAMETER)
}

fn has_default(detail: u8) -> bool
    ensures { result ≡ has_default detail }
{
    (detail == 2) | (detail == 3)
}

// The kind of the first parameter of a stretch.
pub fn kind_of(t: &[u8]) -> Kind
    ensures { result ≡ kind_here t.now }
{
    let kind = forest::kind(t);
    if kind == kinds::NORMAL {
        return Kind::Normal(has_default(forest::detail(t)));
    }
    if kind == kinds::NO_ARGS {
        return Kind::NoArgs;
    }
    if kind == kinds::SLASH {
        return Kind::Slash;
    }
    if kind == kinds::ARGS_PARAM {
        return Kind::Args;
    }
    Kind::KwArgs
}

// Whether a parameter is `/`.
pub fn is_slash(kind: Kind) -> bool
    ensures { result ≡ is_slash kind }
{
    match kind {
        Kind::Normal(_) => false,
        Kind::NoArgs => false,
        Kind::Slash => true,
        Kind::Args => false,
        Kind::KwArgs => false,
    }
}
