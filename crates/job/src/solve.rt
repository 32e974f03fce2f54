// The solves one behind the other, in place.
ghost use Rattle.std.specs.Prelude.{◌≡◌};
ghost use Rattle.cs_matrix.specs.Lent.{matrix_of};
ghost use Rattle.job.specs.Run.{answered, solved};

use cs_matrix::matrix::Matrix;
use cs_solve::Solved;
use cs_solve::solve::solve_lower_triangular;
use cs_solve::tr_solve::tr_solve_lower_triangular;

// Forward, then transposed.
pub fn solve(a: Matrix<'_>, b: &mut [f64]) -> Solved
    ensures { let s = solved (matrix_of a.entry) b.old in
        (result ≡ answered s) × (result.number ≡ 0 → b.new ≡ s.x) }
{
    let r = solve_lower_triangular(a, b);
    if r.number != 0 {
        return r;
    }
    tr_solve_lower_triangular(a, b)
}
