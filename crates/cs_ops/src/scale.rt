// Scaling, in place.
ghost use Rattle.std.specs.Prelude.{◌≡◌};
ghost use Rattle.lists.specs.Calls.{lowest, outputs};
ghost use Rattle.lists.specs.Refusals.{numbered};
ghost use Rattle.cs_matrix.specs.Matrix.{matrix, judged};
ghost use Rattle.cs_ops.specs.Scale.{scaled};

use cs_matrix::check::check;
use cs_matrix::matrix::{Matrix, Pattern};
use lists::refusal::Refusal;

// Each of l times s.
pub fn times(s: f64, l: &mut [f64])
    ensures { l.new ≡ scaled s l.old }
{
    for x in l.iter_mut() {
        *x *= s;
    }
}

// Each of the values v of a matrix times s; a is the matrix without them.
pub fn scale(a: Pattern<'_>, v: &mut [f64], s: f64) -> Result<(), Refusal>
    ensures { let a = matrix a.entry.nrows a.entry.ncols a.entry.p.now a.entry.i.now v.old in
        (numbered result ≡ lowest (judged a)) × (v.new ≡ outputs (numbered result) (scaled s v.old) v.old) }
{
    check(Matrix { pattern: a, v })?;
    times(s, v);
    Ok(())
}
