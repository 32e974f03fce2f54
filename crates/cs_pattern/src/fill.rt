// What an analysis starts from: the tree and the counts.
ghost use Rattle.std.specs.Prelude.{◌≤◌, length};
ghost use Rattle.cs_matrix.specs.Matrix.{ValidPattern};
ghost use Rattle.cs_pattern.specs.Columns.{columns};
ghost use Rattle.cs_pattern.specs.Lent.{square_of};
ghost use Rattle.cs_pattern.specs.Steps.{Outlined};

use crate::count::count_rows;
use crate::tree::elimination_tree;
use cs_matrix::matrix::Pattern;
use lists::clear::fill;

// The tree in w1 and, where w3 holds zeros, the number of entries of each column of L there, with w2 for the marks. The answer is how
// many entries there are, or none where there are more than a matrix may have.
pub fn outline(a: Pattern<'_>, w1: &mut [u32], w2: &mut [u32], w3: &mut [u32]) -> Option<usize>
    requires { ValidPattern (square_of a) × (a.ncols ≤ length w1.old) × (a.ncols ≤ length w2.old) × (a.ncols ≤ length w3.old) }
    ensures { let cols = columns (square_of a.entry) in
        Outlined cols a.entry.ncols result w1.old w1.new w2.old w2.new w3.old w3.new }
{
    let n = a.ncols;
    elimination_tree(a, &mut w1[0..n], &mut w2[0..n]);
    fill(0, n, w2);
    count_rows(a, &w1[0..n], &mut w2[0..n], w3)
}
