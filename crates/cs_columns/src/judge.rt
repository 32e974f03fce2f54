// Numbers 1 to 5 of two matrices, and number 7 of a result.
ghost use Rattle.std.specs.Prelude.{◌≡◌};
ghost use Rattle.lists.specs.Calls.{lowest};
ghost use Rattle.lists.specs.Refusals.{numbered};
ghost use Rattle.cs_matrix.specs.Lent.{matrix_of};
ghost use Rattle.cs_columns.specs.Columns.{judged_two, short_for};

use cs_matrix::check::check;
use cs_matrix::matrix::{MAX_ENTRIES, Matrix};
use cs_matrix::room::too_short;
use lists::refusal::{Refusal, lower};

// What refuses one of two matrices first: of 1 to 5, 2 also where their dimensions differ.
pub fn check_two(a: Matrix<'_>, b: Matrix<'_>, differ: bool) -> Result<(), Refusal>
    ensures { numbered result ≡ lowest (judged_two (matrix_of a.entry) (matrix_of b.entry) differ) }
{
    let first = check(a);
    let second = check(b);
    let refused = lower(first, second);
    if differ {
        return lower(refused, Err(Refusal::Disagree));
    }
    refused
}

// The entries are over 4,194,304, or an output is shorter than they need.
#[tactic(auto, unfolding(crate::specs::Columns::short_for))]
pub fn no_room(ncols: usize, entries: usize, plen: usize, ilen: usize, vlen: usize) -> bool
    ensures { result ≡ short_for ncols entries plen ilen vlen }
{
    entries > MAX_ENTRIES || too_short(ncols, entries, plen, ilen, vlen)
}
