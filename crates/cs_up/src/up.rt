// The up factoring: each column gives a row of L, whose values stand behind those that their columns have already.
ghost use Rattle.std.specs.Prelude.{◌≡◌, ◌+◌, get_or, set, MatchResult};
ghost use mathlib.Core.List.{flatten};
ghost use Rattle.lists.specs.Calls.{none, cleared, scratch, lent, leaves};
ghost use Rattle.root.specs.Root.{root_of};
ghost use Rattle.cs_matrix.specs.Lent.{matrix_of};
ghost use Rattle.cs_matrix.specs.Matrix.{needed};
ghost use Rattle.cs_tree.specs.Pattern.{upper, entries};
ghost use Rattle.cs_pattern.specs.Columns.{columns};
ghost use Rattle.cs_pattern.specs.Lent.{analysis_of};
ghost use Rattle.cs_cholesky.specs.Factor.{answer as answer_of, factored, written};
ghost use Rattle.cs_cholesky.specs.Lent.{square_of};
ghost use Rattle.cs_up.specs.Steps.{Closes, Ready, Turns, Gone, Fills};
ghost use Rattle.cs_up.specs.Up.{up as upOf, number};

use crate::row::rows_at;
use crate::start::{column, start};
use cs_cholesky::Factored;
use cs_cholesky::judge::judge;
use cs_matrix::matrix::{Matrix, Pattern};
use cs_pattern::compare::Analysis;
use lists::clear::{clear_scratch, fill};
use lists::numbers::wide;
use root::root;

// Column k down to its pivot, which is the answer.
fn turn(
    k: usize,
    a: Matrix<'_>,
    given: Analysis<'_>,
    lx: &mut [f64],
    next: &mut [u32],
    x: &mut [f64],
) -> f64
    requires { Turns k (square_of a) (analysis_of given) lx.old next.old x.old }
    ensures { Gone k (square_of a.entry) (analysis_of given.entry) lx.old next.old x.old lx.new next.new x.new result }
{
    let Matrix { pattern, v } = a;
    let Pattern { p, i, .. } = pattern;
    let Analysis { up, ui, lp, li, .. } = given;
    let first = start(k, column(k, p, i), column(k, p, v), x);
    rows_at(k, column(k, up, ui), lp, li, lx, next, x, first)
}

// The diagonal of column k.
fn close(k: usize, pivot: f64, lp: &[u32], lx: &mut [f64], next: &mut [u32])
    requires { Closes k lp.now lx.old next.old }
    ensures { (lx.new ≡ set lx.old (get_or lp.now k 0) (root_of pivot))
        × (next.new ≡ set next.old k (get_or lp.now k 0 + 1)) }
{
    let s = lp[k];
    lx[wide(s)] = root(pivot);
    next[k] = s + 1;
}

// All columns, until a pivot stops them: the answer is then that of the call.
fn factor(
    a: Matrix<'_>,
    given: Analysis<'_>,
    lx: &mut [f64],
    next: &mut [u32],
    x: &mut [f64],
) -> Result<(), Factored>
    requires { Ready (square_of a) (analysis_of given) lx.old next.old x.old }
    ensures { let f = upOf (square_of a.entry) in
        MatchResult result
        (λ _. (f.answer ≡ factored 0 0 none) × (lx.new ≡ flatten f.columns))
        (λ stopped. (stopped ≡ f.answer) × (stopped.number ≡ 11)) }
{
    for k in 0..a.pattern.ncols {
        let pivot = turn(k, a, given, lx, next, x);
        if !(pivot > 0.0) {
            return Err(Factored::stopped(k as u32, pivot));
        }
        close(k, pivot, given.lp, lx, next);
    }
    Ok(())
}

// L's values in lx, by 11 zeros; the first n places of next and x are used.
fn work(
    a: Matrix<'_>,
    given: Analysis<'_>,
    lx: &mut [f64],
    next: &mut [u32],
    x: &mut [f64],
) -> Factored
    requires { Fills (square_of a) (analysis_of given) lx.old next.old x.old }
    ensures { let n = a.entry.pattern.ncols in
        let a = square_of a.entry in
        (result ≡ (upOf a).answer) × (lx.new ≡ written (entries (upper (columns a.pattern))) (upOf a) lx.old)
        × (cleared 0 (n + 1) next.new ≡ cleared 0 (n + 1) next.old) × (cleared none (n + 1) x.new ≡ cleared none (n + 1) x.old) }
{
    let n = a.pattern.ncols;
    let t = wide(given.lp[n]);
    if let Err(stopped) = factor(a, given, &mut lx[0..t], &mut next[0..n], &mut x[0..n]) {
        fill(0.0, t, lx);
        return stopped;
    }
    Factored::DONE
}

// The up factoring of a matrix by a lent analysis: L's values in lx.
pub fn decompose_up_looking(
    a: Matrix<'_>,
    given: Analysis<'_>,
    lx: &mut [f64],
    w1: &mut [u32],
    w2: &mut [u32],
    w3: &mut [u32],
    x: &mut [f64],
) -> Factored
    ensures { let a = matrix_of a.entry in
        let given = analysis_of given.entry in
        let old = lent lx.old (scratch w1.old w2.old w3.old x.old) in
        let new = lent lx.new (scratch w1.new w2.new w3.new x.new) in
        let t = entries (upper (columns a.pattern)) in
        (result ≡ answer_of (number a given old) (upOf a)) × (new ≡ leaves result.number (needed a.pattern) (written t (upOf a) old.out) old) }
{
    if let Err(refusal) = judge(a, lx.len(), given, w1, w2, w3, x) {
        return Factored::refused(refusal);
    }
    let answer = work(a, given, lx, w1, x);
    clear_scratch(a.pattern.ncols + 1, w1, w2, w3, x);
    answer
}
