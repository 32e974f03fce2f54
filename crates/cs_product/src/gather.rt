// The rows that were met, taken out of x: those where x is not zero remain, and x is all +0.0 again.
ghost use Rattle.std.specs.Prelude.{map, ◌≡◌, ◌+◌, length, get_or, replicate};
ghost use Rattle.std.specs.Float.{nan};
ghost use Rattle.lists.specs.Calls.{none};
ghost use Rattle.lists.specs.Choices.{keep};
ghost use Rattle.cs_columns.specs.Columns.{laid};
ghost use Rattle.cs_product.specs.Product.{remains};
ghost use Rattle.cs_product.specs.Steps.{Drain, Taking};

use lists::numbers::wide;

// How many remain.
pub fn count_remaining(rows: &[u32], x: &mut [f64]) -> usize
    requires { Drain (length x.old) rows.now x.old }
    ensures { (result ≡ length (keep (remains x.old) rows.now)) × (x.new ≡ replicate (length x.old) none) }
{
    let mut count = 0;
    for &row in rows {
        let r = wide(row);
        if x[r] != 0.0 {
            count += 1;
        }
        x[r] = 0.0;
    }
    count
}

// Those that remain with their values, written from `start` on. The answer is the place behind them.
pub fn gather(start: usize, rows: &[u32], x: &mut [f64], oi: &mut [u32], ov: &mut [f64]) -> usize
    requires { Taking (length x.old) start rows.now x.old oi.old ov.old }
    ensures { let w = x.old in let l = keep (remains w) rows.now in
        (result ≡ start + length l) × (oi.new ≡ laid start oi.old l) × (ov.new ≡ laid start ov.old (map (λ j. get_or w j nan) l)) ×
        (x.new ≡ replicate (length x.old) none) }
{
    let mut at = start;
    for &row in rows {
        let r = wide(row);
        if x[r] != 0.0 {
            oi[at] = row;
            ov[at] = x[r];
            at += 1;
        }
        x[r] = 0.0;
    }
    at
}
