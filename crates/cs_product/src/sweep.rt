// A stretch of x, taken out of it in order: where x is not zero the row remains, and x is all +0.0 again.
ghost use Rattle.std.specs.Prelude.{map, ◌≡◌, ◌+◌, length, get_or, replicate};
ghost use Rattle.std.specs.Float.{nan};
ghost use Rattle.lists.specs.Calls.{none};
ghost use Rattle.lists.specs.Choices.{chosen};
ghost use Rattle.cs_columns.specs.Columns.{laid};
ghost use Rattle.cs_product.specs.Product.{remains};
ghost use Rattle.cs_product.specs.Steps.{Swept};

// The rows from lo on and below hi that remain and their values, written from `start` on. The answer is the place behind them.
pub fn sweep(
    lo: usize,
    hi: usize,
    start: usize,
    x: &mut [f64],
    oi: &mut [u32],
    ov: &mut [f64],
) -> usize
    requires { Swept (length x.old) lo hi start x.old oi.old ov.old }
    ensures { let w = x.old in let l = chosen (length w) (remains w) in
        (result ≡ start + length l) × (oi.new ≡ laid start oi.old l) × (ov.new ≡ laid start ov.old (map (λ j. get_or w j nan) l)) ×
        (x.new ≡ replicate (length x.old) none) }
{
    let mut at = start;
    for r in lo..hi {
        if x[r] != 0.0 {
            oi[at] = r as u32;
            ov[at] = x[r];
            at += 1;
        }
        x[r] = 0.0;
    }
    at
}
