// A job that is assembled and analysed: factored, then solved.
ghost use Rattle.std.specs.Prelude.{◌≡◌};
ghost use Rattle.cs_matrix.specs.Lent.{matrix_of};
ghost use Rattle.cs_pattern.specs.Lent.{analysis_of};
ghost use Rattle.job_file.specs.Told.{byte};
ghost use Rattle.job.specs.Run.{answered, run as run_of};
ghost use Rattle.job.specs.Steps.{Prepared};

use crate::factor::factor;
use crate::solve::solve;
use cs_matrix::matrix::{Matrix, Pattern};
use cs_pattern::compare::Analysis;
use cs_solve::Solved;
use job_file::read::Engine;
use lists::numbers::wide;

// The right side b becomes the solution.
pub fn run(engine: Engine, a: Matrix<'_>, given: Analysis<'_>, b: &mut [f64]) -> Solved
    requires { Prepared (matrix_of a) (analysis_of given) }
    ensures { let s = run_of (byte engine) (matrix_of a.entry) b.old in
        (result ≡ answered s) × (result.number ≡ 0 → b.new ≡ s.x) }
{
    let mut lx: [f64; 2048] = [0.0; 2048];
    let f = factor(engine, a, given, &mut lx);
    if f.number != 0 {
        return Solved {
            number: f.number,
            column: f.column,
        };
    }
    let n = a.pattern.ncols;
    let Analysis { lp, li, .. } = given;
    let entries = wide(lp[n]);
    let pattern = Pattern {
        nrows: n,
        ncols: n,
        p: &lp[..=n],
        i: &li[..entries],
    };
    let l = Matrix {
        pattern,
        v: &lx[..entries],
    };
    solve(l, b)
}
