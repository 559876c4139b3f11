// Adding to a counter, limited to 64 bits.
ghost use Rattle.std.specs.Prelude.{◌≡◌, ◌<◌};
ghost use Rattle.figures.specs.Adding.{held as held_of, added};
ghost use Rattle.figures.specs.Walking.{only};

use crate::FIGURES;

// A sum limited to 64 bits. No report that starts from zeros reaches the limit.
fn held(x: u64, y: u64) -> u64
    ensures { result ≡ held_of x y }
{
    let room = 0xFFFF_FFFF_FFFF_FFFF - x;
    if room < y {
        return 0xFFFF_FFFF_FFFF_FFFF;
    }
    x + y
}

// Adds to the counter at a place.
pub(crate) fn add(figures: &mut [u64; FIGURES], place: usize, more: u64)
    requires { place < 32 }
    ensures { figures.new ≡ added figures.old (only place more) }
{
    figures[place] = held(figures[place], more);
}
