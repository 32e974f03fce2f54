// A sound record laid into the arrays.
ghost use Rattle.job_file.specs.Told.{told};
ghost use Rattle.std.specs.Prelude.{◌≡◌};
ghost use Rattle.job_file.specs.Faults.{fault};
ghost use Rattle.job_file.specs.Arrays.{arrays};
ghost use Rattle.job_file.specs.Keeping.{held_by, Fits, Kept};

use crate::read::{Head, Stage};
use crate::record::Found;
use float_bits::of_bits;
use lists::clear::fill;
use lists::numbers::wide;

pub(crate) fn keep(
    r: Found,
    h: Head,
    rows: &mut [u32],
    columns: &mut [u32],
    values: &mut [f64],
    right: &mut [f64],
) -> Head
    requires { let old = arrays rows.old columns.old values.old right.old in Fits h old × (fault (held_by h old) (told r) ≡ 0) }
    ensures { let old = arrays rows.old columns.old values.old right.old in
        let new = arrays rows.new columns.new values.new right.new in
        Kept h old (told r) result new }
{
    match r {
        Found::Size { n, count } => {
            fill(0.0, wide(n), right);
            Head {
                stage: Stage::Sized,
                n,
                count,
                ..h
            }
        }
        Found::Entry { row, column, bits } => {
            let e = wide(h.entries);
            rows[e] = row;
            columns[e] = column;
            values[e] = of_bits(bits);
            Head {
                entries: h.entries + 1,
                ..h
            }
        }
        Found::Right { row, bits } => {
            let i = wide(row);
            right[i] = of_bits(bits);
            Head { next: row + 1, ..h }
        }
        Found::Go { engine } => Head {
            stage: Stage::Ended(engine),
            ..h
        },
    }
}
