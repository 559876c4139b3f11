// The checks before the binding: 1 to 4, 6 and 7, then the def's own 10 to 19, then the call's own 20 to 24.
ghost use Rattle.std.specs.Prelude.{◌≡◌};
ghost use Rattle.table.specs.Answer.{checked};
ghost use Rattle.bind.specs.Job.{entry_of, words_of};
ghost use Rattle.bind.specs.Reading.{continued, IfKept};
ghost use Rattle.bind.specs.Reading.{both as both_of, OwnRules};

use crate::entries;
use arguments::CallArgs;
use parameters::Counted;
use table::{MOST_NODES, Refusal, Wanted, numbers};

// 1 to 4, 6 and 7.
fn enter(table: &[u8], names: &[u8], call: usize, def: usize, room: usize) -> Result<(), Refusal>
    ensures { checked result ≡ entry_of table.now names.now call def room }
{
    table::enter(table, names, call, Wanted::Call)?;
    if !crate::is_def(table, def) {
        return Err(Refusal::Bare(numbers::WRONG_NODE));
    }
    if room < entries::parameter_count(table, def) + entries::argument_count(table, call) {
        return Err(Refusal::Bare(numbers::SHORT_BUFFER));
    }
    Ok(())
}

// The counts of a def's list, unless the list or the call is refused.
fn both(
    unpacked: Result<Counted, Refusal>,
    called: Result<CallArgs, Refusal>,
) -> Result<Counted, Refusal>
    ensures { result ≡ both_of unpacked called }
{
    let counted = unpacked?;
    called?;
    Ok(counted)
}

// The def's own 10 to 19, then the call's own 20 to 24.
fn own_rules(table: &[u8], names: &[u8], call: usize, def: usize) -> Result<Counted, Refusal>
    ensures { OwnRules table.now names.now call def result }
{
    let mut space = [0u8; MOST_NODES];
    let modes: &mut [u8] = &mut space;
    let unpacked = parameters::params(table, names, def, &mut modes[0..MOST_NODES]);
    both(unpacked, arguments::call(table, names, call))
}

// What comes before the binding: 1 to 4, 6, 7, then the def's own 10 to 19, then the call's own 20 to 24.
pub(crate) fn rules(
    table: &[u8],
    names: &[u8],
    call: usize,
    def: usize,
    room: usize,
) -> Result<Counted, Refusal>
    ensures def_value { continued result table.now names.now call def ≡
        words_of table.now names.now call def room }
    ensures if_kept { IfKept result table.now names.now call def room }
{
    enter(table, names, call, def, room)?;
    own_rules(table, names, call, def)
}
