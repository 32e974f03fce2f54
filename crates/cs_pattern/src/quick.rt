// Whether slices hold the tree and U, told without working a column out: each way up the tree is read from its far end down to
// its stored row.
ghost use Rattle.std.specs.Prelude.{◌≡◌, ℕ, suc, ◌+◌, ◌^◌, ◌<◌, ◌≤◌, true, List, [], length, slice_index, IfSome, IsSome};
ghost use Rattle.lists.specs.Keeping.{Kept, Zeros};
ghost use Rattle.lists.specs.Order.{rises};
ghost use Rattle.cs_matrix.specs.Matrix.{ValidPattern};
ghost use Rattle.cs_tree.specs.Backward.{Stops, Read, Holds};
ghost use Rattle.cs_tree.specs.Ending.{Unlisted, Ending};
ghost use Rattle.cs_tree.specs.Pattern.{path, paths};
ghost use Rattle.cs_tree.specs.Steps.{Walks, Marks, Given};
ghost use Rattle.cs_pattern.specs.Columns.{columns};
ghost use Rattle.cs_pattern.specs.Lent.{square_of};
ghost use Rattle.cs_pattern.specs.Steps.{Known};

use crate::compare::Analysis;
use crate::rows::rows;
use crate::tree::elimination_tree;
use cs_matrix::matrix::{MAX_ENTRIES, Pattern};
use lists::clear::fill;
use lists::numbers::wide;
use lists::order::starts_with;

// A way up the tree goes no further than c: its parent is past k or listed.
fn stops(k: u32, c: u32, par: &[u32], mark: &[u32]) -> bool
    requires { Walks k par.now mark.now }
    ensures { (result ≡ true → Stops k par.now mark.now c)
        × ((older : List ℕ) → Marks k mark.now older → c ≤ k → path (suc k) par.now k (slice_index par.now c) older ≡ [] → result ≡ true) }
{
    if c > k {
        return false;
    }
    let above = par[wide(c)];
    above > k || mark[wide(above)] == k + 1
}

// Reads the way from a row that is not listed, where held ends with it, and marks it. The answer is where it starts, or none where
// held ends with something else.
fn descend(k: u32, row: u32, par: &[u32], mark: &mut [u32], held: &[u32]) -> Option<usize>
    requires { Walks k par.now mark.old × (length held.now < 2 ^ 32) × Unlisted k mark.old row }
    ensures { IfSome result (λ t. (t ≤ length held.now)
        × ((older : List ℕ) → Marks k mark.old older → Read k par.now row older held.now t mark.new))
        × ((older : List ℕ) → Marks k mark.old older → (m : ℕ) → Ending k par.now row older held.now m → IsSome result) }
{
    let &last = held.last()?;
    if !stops(k, last, par, mark) {
        return None;
    }
    let mut above = par[wide(last)];
    for t in (0..held.len()).rev() {
        let b = held[t];
        let j = wide(b);
        if b > k || par[j] != above || mark[j] == k + 1 {
            return None;
        }
        mark[j] = k + 1;
        if b == row {
            return Some(t);
        }
        above = b;
    }
    None
}

// The same for any row of column k: one that is listed already has no way of its own.
fn read_row(k: u32, row: u32, par: &[u32], mark: &mut [u32], held: &[u32]) -> Option<usize>
    requires { Walks k par.now mark.old × (length held.now < 2 ^ 32) × (row ≤ k) }
    ensures { IfSome result (λ t. (t ≤ length held.now)
        × ((older : List ℕ) → Marks k mark.old older → Read k par.now row older held.now t mark.new))
        × ((older : List ℕ) → Marks k mark.old older → (m : ℕ) → Ending k par.now row older held.now m → IsSome result) }
{
    if mark[wide(row)] == k + 1 {
        return Some(held.len());
    }
    descend(k, row, par, mark, held)
}

// Column k of U is what is held. The rows rise, so that the first past k ends them.
fn read_column(k: u32, rows: &[u32], par: &[u32], mark: &mut [u32], held: &[u32]) -> bool
    requires { Walks k par.now mark.old × Marks k mark.old [] × (length held.now < 2 ^ 32) × (rises rows.now ≡ true) }
    ensures { (result ≡ true → (held.now ≡ paths par.now k rows.now []) × Marks k mark.new held.now)
        × (held.now ≡ paths par.now k rows.now [] → result ≡ true) }
{
    let mut top = held.len();
    for &row in rows {
        if row > k {
            break;
        }
        let Some(next) = read_row(k, row, par, mark, &held[0..top]) else {
            return false;
        };
        top = next;
    }
    top == 0
}

// U is what up and ui hold.
fn read_columns(a: Pattern<'_>, par: &[u32], mark: &mut [u32], up: &[u32], ui: &[u32]) -> bool
    requires { let cols = columns (square_of a) in
        ValidPattern (square_of a) × Given cols par.now × (length mark.old ≡ a.ncols) × Zeros mark.old × (a.ncols < length up.now) }
    ensures { let cols = columns (square_of a.entry) in
        (result ≡ true → Holds cols up.now ui.now) × (Holds cols up.now ui.now → result ≡ true) }
{
    if up[0] != 0 {
        return false;
    }
    for k in 0..a.ncols {
        let b = wide(up[k]);
        let f = wide(up[k + 1]);
        let Some(held) = ui.get(b..f) else {
            return false;
        };
        if !read_column(k as u32, rows(a, k), par, mark, held) {
            return false;
        }
    }
    true
}

// The tree and U are those held, and U has no more entries than a matrix may have.
pub fn read_upper(a: Pattern<'_>, given: Analysis<'_>, w1: &mut [u32], w2: &mut [u32]) -> bool
    requires { ValidPattern (square_of a) × (a.ncols ≤ length w1.old) × (a.ncols ≤ length w2.old) }
    ensures { let known = Known (columns (square_of a.entry)) given.entry.tree.now given.entry.up.now given.entry.ui.now in
        (result ≡ true → known) × (known → result ≡ true)
        × Kept 0 a.entry.ncols w1.old w1.new × Kept 0 a.entry.ncols w2.old w2.new }
{
    let n = a.ncols;
    let Analysis { tree, up, ui, .. } = given;
    if up.len() <= n || wide(up[n]) > MAX_ENTRIES {
        return false;
    }
    elimination_tree(a, &mut w1[0..n], &mut w2[0..n]);
    if !starts_with(&w1[0..n], tree) {
        return false;
    }
    fill(0, n, w2);
    read_columns(a, &w1[0..n], &mut w2[0..n], up, ui)
}
