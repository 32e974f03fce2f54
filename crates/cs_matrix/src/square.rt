// What the calls on a pattern that has to be square begin with: numbers 1 to 6, and the scratch cleared.
ghost use Rattle.std.specs.Prelude.{cond, [], ◌∷◌, ◌++◌, ◌≡◌, eqb};
ghost use Rattle.lists.specs.Calls.{lowest, narrow, scratch, wiped};
ghost use Rattle.lists.specs.Refusals.{numbered};
ghost use Rattle.cs_matrix.specs.Lent.{pattern_of};
ghost use Rattle.cs_matrix.specs.Matrix.{needed, judged_square};

use crate::check::check_pattern;
use crate::matrix::Pattern;
use lists::clear::{clear_scratch, too_narrow};
use lists::refusal::{Refusal, lower};

// What refuses a pattern that has to be square first, or nothing for a valid one.
pub fn check_square(a: Pattern<'_>) -> Result<(), Refusal>
    ensures { numbered result ≡ lowest (judged_square (pattern_of a.entry)) }
{
    let refused = check_pattern(a);
    if a.nrows != a.ncols {
        return lower(refused, Err(Refusal::Disagree));
    }
    refused
}

// Numbers 1 to 6; where none applies the scratch is cleared.
pub fn prepare(
    a: Pattern<'_>,
    w1: &mut [u32],
    w2: &mut [u32],
    w3: &mut [u32],
    x: &mut [f64],
) -> Result<(), Refusal>
    ensures { let a = pattern_of a.entry in
        let old = scratch w1.old w2.old w3.old x.old in
        (numbered result ≡ lowest (judged_square a ++ ((6, narrow (needed a) old) ∷ [])))
        × (scratch w1.new w2.new w3.new x.new ≡ cond (eqb (numbered result) 0) (wiped (needed a) old) old) }
{
    check_square(a)?;
    let need = a.nrows.max(a.ncols) + 1;
    if too_narrow(need, w1, w2, w3, x) {
        return Err(Refusal::NoScratch);
    }
    clear_scratch(need, w1, w2, w3, x);
    Ok(())
}
