// Triplets that come in order, by column and within a column with rows rising: no place is given twice, rows and values stand
// as the matrix has them, and only the pointers have to be found.
ghost use Rattle.std.specs.Prelude.{◌≡◌, true};
ghost use Rattle.cs_matrix.specs.Matrix.{stored, written};
ghost use Rattle.cs_conversion.specs.Lent.{triplets_of};
ghost use Rattle.cs_conversion.specs.Sorting.{Sound, Room};
ghost use Rattle.cs_conversion.specs.InOrder.{Coded, Ordered, as_given};

use crate::assembly::Triplets;
use crate::pointers::pointers;
use lists::sides::copy;

// True only where the triplets come in order. Column and row are compared as one number; there is no early exit and `bad` is as wide
// as what is compared, so that several are compared at a time.
pub fn in_order(rows: &[u32], cols: &[u32]) -> bool
    requires { Coded rows.now cols.now }
    ensures { result ≡ true → Ordered rows.now cols.now }
{
    let mut bad: u32 = 0;
    for k in 1..rows.len() {
        let last = cols[k - 1] * 65536 + rows[k - 1];
        if cols[k] * 65536 + rows[k] <= last {
            bad = 1;
        }
    }
    bad == 0
}

// Pointers into p, and rows and values as they are given into i and v.
pub fn as_given(t: Triplets<'_>, p: &mut [u32], i: &mut [u32], v: &mut [f64])
    requires { let t = triplets_of t in Sound t × Ordered t.i t.j × Room t (stored p.old i.old v.old) }
    ensures { let t = triplets_of t.entry in
        stored p.new i.new v.new ≡ written (as_given t) (stored p.old i.old v.old) }
{
    pointers(t.ncols, t.icols, p);
    copy(t.irows, i);
    copy(t.vals, v);
}
