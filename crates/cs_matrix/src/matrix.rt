// What is lent as a matrix: dimensions, pointers and rows, and a value for each row.

// The most rows or columns, and the most entries.
pub const MAX_DIMENSION: usize = 65535;

pub const MAX_ENTRIES: usize = 4194304;

// Dimensions, pointers and rows.
#[derive(Clone, Copy)]
pub struct Pattern<'a> {
    pub nrows: usize,
    pub ncols: usize,
    pub p: &'a [u32],
    pub i: &'a [u32],
}

// A pattern, and a value for each of its rows.
#[derive(Clone, Copy)]
pub struct Matrix<'a> {
    pub pattern: Pattern<'a>,
    pub v: &'a [f64],
}

// Rows with a value for each, below the dimension n.
#[derive(Clone, Copy)]
pub struct Vector<'a> {
    pub n: usize,
    pub i: &'a [u32],
    pub v: &'a [f64],
}
