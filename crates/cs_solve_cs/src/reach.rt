// The reached set, as marks: one rising pass over them gives the least set, in order, and looks at its diagonals.
ghost use Rattle.std.specs.Prelude.{◌≡◌, length, replicate};
ghost use Rattle.lists.specs.Choices.{first_or, keep};
ghost use Rattle.cs_matrix.specs.Lent.{matrix_of};
ghost use Rattle.cs_solve.specs.Diagonal.{lacking};
ghost use Rattle.cs_solve.specs.Judge.{Names};
ghost use Rattle.cs_solve_cs.specs.Reach.{reached};
ghost use Rattle.cs_solve_cs.specs.Steps.{mark_all, marks};

use cs_matrix::columns::column;
use cs_matrix::valid::ValidMatrix;
use cs_solve::diagonal::value_at;
use lists::numbers::wide;

// Marks each of the rows that is not below `from`.
fn mark(from: usize, rows: &[u32], w: &mut [u32])
    ensures { w.new ≡ mark_all from rows.now w.old }
{
    for &row in rows {
        let r = wide(row);
        if from <= r && r < w.len() {
            w[r] = 1;
        }
    }
}

// How many columns are reached, and the lowest of them whose diagonal is absent or zero.
#[derive(Clone, Copy)]
pub struct Swept {
    pub count: usize,
    pub lacking: Option<usize>,
}

// Marks what the right side's rows reach, counts it, and looks at its diagonals.
pub fn reach(a: ValidMatrix<'_>, bi: &[u32], w: &mut [u32]) -> Swept
    requires { w.old ≡ replicate a.matrix.pattern.ncols 0 }
    ensures { let a = matrix_of a.entry.matrix in
        let l = reached a.pattern bi.now in
        let bad = keep (lacking a) l in
        (marks a.pattern.ncols w.new ≡ l) × (result.count ≡ length l) × Names a.pattern.ncols bad (first_or 0 bad) result.lacking }
{
    mark(0, bi, w);
    let mut count = 0;
    let mut lacking = None;
    for j in 0..a.matrix.pattern.ncols {
        if w[j] != 0 {
            count += 1;
            let col = column(a, j);
            if lacking.is_none() && value_at(j, col.rows, col.vals) == 0.0 {
                lacking = Some(j);
            }
            mark(j + 1, col.rows, w);
        }
    }
    Swept { count, lacking }
}
