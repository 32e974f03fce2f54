// The check of a pattern, of a matrix and of a vector: numbers 1 to 5. Each step looks at all that it judges and tells at the
// end: a loop with no early way out is one that the compiler can make wide. So rows that do not rise are counted over the
// whole list, and those at the start of a column apart.
ghost use Rattle.std.specs.Prelude.{◌≡◌, ◌+◌, ◌≤◌, length};
ghost use Rattle.lists.specs.Calls.{lowest};
ghost use Rattle.cs_matrix.specs.Falls.{fallen, start_falls, starts_fallen, Parted};
ghost use Rattle.cs_matrix.specs.Lent.{pattern_of, matrix_of, vector_of};
ghost use Rattle.cs_matrix.specs.Matrix.{pointers, columns_rise, judged_pattern, judged, judged_vector};
ghost use Rattle.lists.specs.Refusals.{numbered};

use crate::matrix::{MAX_DIMENSION, MAX_ENTRIES, Matrix, Pattern, Vector};
use lists::numbers::wide;
use lists::order::all_below;
use lists::refusal::{Refusal, lower};

// The first pointer is 0, the last is n, and none falls.
fn pointers_hold(p: &[u32], n: usize) -> bool
    requires { 1 ≤ length p.now }
    ensures { result ≡ pointers p.now n }
{
    if p[0] != 0 {
        return false;
    }
    let last = p.len() - 1;
    if wide(p[last]) != n {
        return false;
    }
    let mut falls: u32 = 0;
    for k in 0..last {
        if p[k + 1] < p[k] {
            falls = 1;
        }
    }
    falls == 0
}

// How many rows are not above the one before.
fn falls(rows: &[u32]) -> u32
    requires { length rows.now ≤ 4194304 }
    ensures { result ≡ fallen rows.now }
{
    let mut n: u32 = 0;
    for k in 1..rows.len() {
        if rows[k] <= rows[k - 1] {
            n += 1;
        }
    }
    n
}

// The column from a to e has entries, and its first row is not above the one before.
fn start_falls(i: &[u32], a: usize, e: usize) -> bool
    requires { e ≤ length i.now }
    ensures { result ≡ start_falls i.now a e }
{
    if a == 0 || e <= a {
        return false;
    }
    i[a] <= i[a - 1]
}

// In how many columns.
fn starts_fallen(ncols: usize, p: &[u32], i: &[u32]) -> u32
    requires { Parted ncols p.now i.now }
    ensures { result ≡ starts_fallen ncols p.now i.now }
{
    let mut n: u32 = 0;
    for j in 0..ncols {
        if start_falls(i, wide(p[j]), wide(p[j + 1])) {
            n += 1;
        }
    }
    n
}

// Within each column the rows rise: all that do not rise stand at the start of a column.
fn columns_rise(a: Pattern<'_>) -> bool
    requires { Parted a.ncols a.p.now a.i.now }
    ensures { result ≡ columns_rise (pattern_of a.entry) }
{
    falls(a.i) == starts_fallen(a.ncols, a.p, a.i)
}

// What refuses a pattern first, or nothing for a valid one.
pub fn check_pattern(a: Pattern<'_>) -> Result<(), Refusal>
    ensures { numbered result ≡ lowest (judged_pattern (pattern_of a.entry)) }
{
    let Pattern { nrows, ncols, p, i } = a;
    if nrows > MAX_DIMENSION || ncols > MAX_DIMENSION || i.len() > MAX_ENTRIES {
        return Err(Refusal::TooLarge);
    }
    if p.len() != ncols + 1 {
        return Err(Refusal::Disagree);
    }
    if !pointers_hold(p, i.len()) {
        return Err(Refusal::BadPointers);
    }
    if !all_below(i, nrows as u32) {
        return Err(Refusal::OutOfRange);
    }
    if !columns_rise(a) {
        return Err(Refusal::NotRising);
    }
    Ok(())
}

// The same of a matrix.
pub fn check(a: Matrix<'_>) -> Result<(), Refusal>
    ensures { numbered result ≡ lowest (judged (matrix_of a.entry)) }
{
    let Matrix { pattern, v } = a;
    let refused = check_pattern(pattern);
    if pattern.i.len() != v.len() {
        return lower(refused, Err(Refusal::Disagree));
    }
    refused
}

// The same of a vector.
pub fn check_vector(b: Vector<'_>) -> Result<(), Refusal>
    ensures { numbered result ≡ lowest (judged_vector (vector_of b.entry)) }
{
    let Vector { n, i, v } = b;
    if n > MAX_DIMENSION || i.len() > MAX_ENTRIES {
        return Err(Refusal::TooLarge);
    }
    if v.len() != i.len() {
        return Err(Refusal::Disagree);
    }
    if !all_below(i, n as u32) {
        return Err(Refusal::OutOfRange);
    }
    if falls(i) != 0 {
        return Err(Refusal::NotRising);
    }
    Ok(())
}
