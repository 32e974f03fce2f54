// One column of the product, worked out in x: once to count what remains of it, once to write that. A column whose span is short
// against its work is added up without marks, and its span read as a whole.
ghost use Rattle.std.specs.Prelude.{map, ◌≡◌, ◌+◌, length, get_or, replicate};
ghost use Rattle.std.specs.Float.{nan};
ghost use Rattle.lists.specs.Calls.{none};
ghost use Rattle.lists.specs.Choices.{chosen};
ghost use Rattle.cs_matrix.specs.Lent.{matrix_of};
ghost use Rattle.cs_columns.specs.Columns.{laid};
ghost use Rattle.cs_product.specs.Product.{remains};
ghost use Rattle.cs_product.specs.Steps.{column_of, Fresh, Starting, Column, Dense};

use crate::accumulate::accumulate;
use crate::gather::{count_remaining, gather};
use crate::plain::accumulate_plain;
use crate::sorting::sort;
use crate::span::{Span, span_of};
use crate::sweep::sweep;
use cs_matrix::valid::ValidMatrix;

// How many rows of the column remain.
pub fn count_column(
    a: ValidMatrix<'_>,
    stamp: u32,
    rows: &[u32],
    vals: &[f64],
    mark: &mut [u32],
    met: &mut [u32],
    x: &mut [f64],
) -> usize
    requires { Starting (matrix_of a.matrix) stamp rows.now vals.now mark.old met.old x.old }
    ensures { let w = column_of (matrix_of a.entry.matrix) rows.now vals.now in
        (result ≡ length (chosen a.entry.matrix.pattern.nrows (remains w))) × Fresh a.entry.matrix.pattern.nrows (stamp + 1) mark.new met.new x.new }
{
    let many = accumulate(a, stamp, rows, vals, mark, met, x);
    count_remaining(&met[0..many], x)
}

// What remains of the column, by the rows that were met, put in order.
fn write_listed(
    a: ValidMatrix<'_>,
    stamp: u32,
    rows: &[u32],
    vals: &[f64],
    start: usize,
    mark: &mut [u32],
    met: &mut [u32],
    spare: &mut [u32],
    x: &mut [f64],
    oi: &mut [u32],
    ov: &mut [f64],
) -> usize
    requires { Column (matrix_of a.matrix) stamp rows.now vals.now start mark.old met.old spare.old x.old oi.old ov.old }
    ensures { let w = column_of (matrix_of a.entry.matrix) rows.now vals.now in
        let l = chosen a.entry.matrix.pattern.nrows (remains w) in
        (result ≡ start + length l) × (oi.new ≡ laid start oi.old l) × (ov.new ≡ laid start ov.old (map (λ j. get_or w j nan) l)) ×
        Fresh a.entry.matrix.pattern.nrows (stamp + 1) mark.new met.new x.new }
{
    let many = accumulate(a, stamp, rows, vals, mark, met, x);
    sort(&mut met[0..many], spare);
    gather(start, &met[0..many], x, oi, ov)
}

// What remains of the column, by its span.
fn write_dense(
    a: ValidMatrix<'_>,
    rows: &[u32],
    vals: &[f64],
    span: Span,
    start: usize,
    x: &mut [f64],
    oi: &mut [u32],
    ov: &mut [f64],
) -> usize
    requires { Dense (matrix_of a.matrix) rows.now vals.now span.lo span.hi start x.old oi.old ov.old }
    ensures { let w = column_of (matrix_of a.entry.matrix) rows.now vals.now in
        let l = chosen a.entry.matrix.pattern.nrows (remains w) in
        (result ≡ start + length l) × (oi.new ≡ laid start oi.old l) × (ov.new ≡ laid start ov.old (map (λ j. get_or w j nan) l)) ×
        (x.new ≡ replicate a.entry.matrix.pattern.nrows none) }
{
    accumulate_plain(a, rows, vals, x);
    sweep(span.lo, span.hi, start, x, oi, ov)
}

// The rows of the column that remain and their values, written from `start` on. The answer is the place behind them.
pub fn write_column(
    a: ValidMatrix<'_>,
    stamp: u32,
    rows: &[u32],
    vals: &[f64],
    start: usize,
    mark: &mut [u32],
    met: &mut [u32],
    spare: &mut [u32],
    x: &mut [f64],
    oi: &mut [u32],
    ov: &mut [f64],
) -> usize
    requires { Column (matrix_of a.matrix) stamp rows.now vals.now start mark.old met.old spare.old x.old oi.old ov.old }
    ensures { let w = column_of (matrix_of a.entry.matrix) rows.now vals.now in
        let l = chosen a.entry.matrix.pattern.nrows (remains w) in
        (result ≡ start + length l) × (oi.new ≡ laid start oi.old l) × (ov.new ≡ laid start ov.old (map (λ j. get_or w j nan) l)) ×
        Fresh a.entry.matrix.pattern.nrows (stamp + 1) mark.new met.new x.new }
{
    let span = span_of(a.matrix.pattern, rows);
    if span.hi - span.lo <= 2 * span.work {
        return write_dense(a, rows, vals, span, start, x, oi, ov);
    }
    write_listed(a, stamp, rows, vals, start, mark, met, spare, x, oi, ov)
}
