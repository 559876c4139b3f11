// The errors of the module pass by number.
ghost use Rattle.std.specs.Prelude.{◌≡◌, [], ◌∷◌, ◌≤◌, length};
ghost use Rattle.table.specs.Check.{most_bytes};
ghost use Rattle.validate.specs.Job.{pass_errors};
ghost use Rattle.figures.specs.Adding.{added};
ghost use Rattle.figures.specs.Counting.{numbers_of};
ghost use Rattle.figures.specs.Walking.{error_figures};

use crate::{ERRORS, FIGURES, sums};
use dialect::Dialect;
use errors::Listing;
use table::{MOST_NODES, numbers};

// A table has at most two errors for each node.
const MOST_ERRORS: usize = 2 * MOST_NODES;

// The number of error numbers of parameter lists, 10 to 19; those of the module, 50 to 61, follow them.
const LIST_NUMBERS: usize = 10;

// Adds the errors of a table in a dialect: gets the numbers of all errors, then counts each.
pub(crate) fn add_errors(table: &[u8], names: &[u8], d: Dialect, figures: &mut [u64; FIGURES])
    requires { length table.now ≤ most_bytes }
    ensures { figures.new ≡ added figures.old
        (error_figures (numbers_of (pass_errors d names.now table.now))) }
{
    let mut found = [0u32; MOST_ERRORS];
    let total = validate::pass(Listing::Numbers, table, names, d, &mut found);
    add_numbers(&found[0..total as usize], figures);
}

// Adds some error numbers. The loop is over their places, as the wrong answer first_error_not_counted begins at the
// second place.
fn add_numbers(found: &[u32], figures: &mut [u64; FIGURES])
    ensures { figures.new ≡ added figures.old (error_figures found.now) }
{
    for i in 0..found.len() {
        add_number(found[i], figures);
    }
}

// Adds one error number. A number without a counter changes nothing.
fn add_number(number: u32, figures: &mut [u64; FIGURES])
    ensures { figures.new ≡ added figures.old (error_figures (number ∷ [])) }
{
    if (numbers::SLASH_FIRST <= number) & (number <= numbers::TOO_MANY_PARAMETERS) {
        let place = (number - numbers::SLASH_FIRST) as usize;
        sums::add(figures, ERRORS + place, 1);
        return;
    }
    if (numbers::STAR_NOT_PERMITTED <= number) & (number <= numbers::LAMBDA_NOT_PERMITTED) {
        let place = (number - numbers::STAR_NOT_PERMITTED) as usize;
        sums::add(figures, ERRORS + LIST_NUMBERS + place, 1);
    }
}
