// The left factoring: the columns of L in turn, each from the stored part at and below its diagonal and from columns before it.
ghost use Rattle.std.specs.Prelude.{◌≡◌, ◌+◌, length, get_or, set, take, drop, MatchResult};
ghost use Rattle.std.specs.Float.{nan};
ghost use mathlib.Core.List.{flatten};
ghost use Rattle.lists.specs.Calls.{none, lent, scratch, leaves};
ghost use Rattle.lists.specs.Folds.{along, over};
ghost use Rattle.lists.specs.Parts.{placed};
ghost use Rattle.cs_matrix.specs.Lent.{matrix_of};
ghost use Rattle.cs_matrix.specs.Matrix.{column, needed};
ghost use Rattle.cs_tree.specs.Pattern.{upper, entries};
ghost use Rattle.cs_pattern.specs.Columns.{columns};
ghost use Rattle.cs_pattern.specs.Lent.{analysis_of};
ghost use Rattle.cs_cholesky.specs.Factor.{answer, factored, written};
ghost use Rattle.cs_left.specs.Left.{put_at, quotients, left, number};
ghost use Rattle.cs_cholesky.specs.Lent.{square_of};
ghost use Rattle.cs_left.specs.Steps.{add_held, advance, zero_at, Gathers, Finishes, Asked};

use crate::column::{add_columns, column, divide, load};
use crate::stray::strays;
use cs_cholesky::Factored;
use cs_cholesky::judge::judge;
use cs_matrix::matrix::{Matrix, Pattern};
use cs_pattern::compare::Analysis;
use lists::clear::{clear_scratch, fill};
use lists::numbers::wide;
use lists::refusal::Refusal;
use root::root;

// x gathers column k; the answer is the pivot, x(k).
fn gather(
    k: usize,
    a: Matrix<'_>,
    given: Analysis<'_>,
    lx: &[f64],
    next: &mut [u32],
    x: &mut [f64],
) -> f64
    requires { Gathers k (square_of a) (analysis_of given) lx.now next.old (length x.old) }
    ensures { let a = square_of a.entry in
        let p = a.pattern.p in
        let given = analysis_of given.entry in
        let us = column given.up k given.ui in
        (result ≡ get_or x.new k nan)
        × (x.new ≡ add_held k given.lp given.li lx.now us (over (put_at k) (column p k a.pattern.i) (column p k a.v) x.old))
        × (next.new ≡ along (advance k) us next.old) }
{
    let Matrix { pattern, v } = a;
    let Pattern { p, i, .. } = pattern;
    let Analysis { up, ui, lp, li, .. } = given;
    load(k, column(k, p, i), column(k, p, v), x);
    add_columns(k, column(k, up, ui), lp, li, lx, next, x);
    x[k]
}

// L's column k, where d is the root of the pivot.
fn finish(k: usize, d: f64, given: Analysis<'_>, lx: &mut [f64], next: &mut [u32], x: &mut [f64])
    requires { Finishes k given.lp.now given.li.now lx.old next.old (length x.old) }
    ensures { let given = analysis_of given.entry in
        let s = get_or given.lp k 0 in
        let rows = column given.lp k given.li in
        (lx.new ≡ placed s (get_or given.lp (k + 1) 0) lx.old (quotients d rows x.old))
        × (x.new ≡ along zero_at rows x.old)
        × (next.new ≡ set next.old k (s + 1)) }
{
    let Analysis { lp, li, .. } = given;
    let s = wide(lp[k]);
    let e = wide(lp[k + 1]);
    divide(d, &li[s..e], &mut lx[s..e], x);
    next[k] = lp[k] + 1;
}

// All columns, until a pivot is not above zero, or is NaN: the answer is then that of the call.
fn factor(
    a: Matrix<'_>,
    given: Analysis<'_>,
    lx: &mut [f64],
    next: &mut [u32],
    x: &mut [f64],
) -> Result<(), Factored>
    requires { Asked (square_of a) (analysis_of given) (length lx.old) next.old x.old }
    ensures { let a = square_of a.entry in
        let t = entries (upper (columns a.pattern)) in
        MatchResult result
        (λ _. ((left a).answer ≡ factored 0 0 none) × (take t lx.new ≡ flatten (left a).columns))
        (λ stopped. (stopped ≡ (left a).answer) × (stopped.number ≡ 11))
        × (drop t lx.new ≡ drop t lx.old) }
{
    for k in 0..a.pattern.ncols {
        let pivot = gather(k, a, given, lx, next, x);
        if !(pivot > 0.0) {
            return Err(Factored::stopped(k as u32, pivot));
        }
        finish(k, root(pivot), given, lx, next, x);
    }
    Ok(())
}

// The same, and by 11 zeros for all of L's values.
fn work(
    a: Matrix<'_>,
    given: Analysis<'_>,
    lx: &mut [f64],
    next: &mut [u32],
    x: &mut [f64],
) -> Factored
    requires { Asked (square_of a) (analysis_of given) (length lx.old) next.old x.old }
    ensures { let a = square_of a.entry in
        (result ≡ (left a).answer) × (lx.new ≡ written (entries (upper (columns a.pattern))) (left a) lx.old) }
{
    if let Err(stopped) = factor(a, given, lx, next, x) {
        fill(0.0, wide(given.up[a.pattern.ncols]), lx);
        return stopped;
    }
    Factored::DONE
}

// Factors a matrix by its lent analysis: L's values are written to lx.
pub fn decompose_left_looking(
    a: Matrix<'_>,
    given: Analysis<'_>,
    lx: &mut [f64],
    w1: &mut [u32],
    w2: &mut [u32],
    w3: &mut [u32],
    x: &mut [f64],
) -> Factored
    ensures { let a = matrix_of a.entry in
        let given = analysis_of given.entry in
        let t = entries (upper (columns a.pattern)) in
        let old = lent lx.old (scratch w1.old w2.old w3.old x.old) in
        let new = lent lx.new (scratch w1.new w2.new w3.new x.new) in
        (result ≡ answer (number a given old) (left a))
        × (new ≡ leaves result.number (needed a.pattern) (written t (left a) lx.old) old) }
{
    if let Err(refusal) = judge(a, lx.len(), given, w1, w2, w3, x) {
        return Factored::refused(refusal);
    }
    if strays(a.pattern, given, w2) {
        return Factored::refused(Refusal::Misplaced);
    }
    let n = a.pattern.ncols;
    let answer = work(a, given, lx, &mut w1[0..n], &mut x[0..n]);
    clear_scratch(n + 1, w1, w2, w3, x);
    answer
}
