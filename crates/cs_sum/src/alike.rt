// Two columns that have the same rows: how that is told, and their sum.
ghost use Rattle.std.specs.Prelude.{◌≡◌, length, get_or};
ghost use Rattle.std.specs.Float.{nan, binary64};
ghost use Rattle.std.specs.Float.Ieee.{add, mul};
ghost use Rattle.lists.specs.Tables.{table};
ghost use Rattle.cs_sum.specs.Steps.{same_rows, Places};
ghost use Rattle.cs_sum.specs.Sum.{one};

use lists::order::starts_with;

// The two columns have the same rows.
#[tactic(auto, unfolding(crate::specs::Steps::same_rows))]
pub fn same_rows(a: &[u32], b: &[u32]) -> bool
    ensures { result ≡ same_rows a.now b.now }
{
    a.len() == b.len() && starts_with(a, b)
}

// The rows, and the sums of two columns' values at them.
pub fn add_values(rows: &[u32], av: &[f64], bv: &[f64], oi: &mut [u32], ov: &mut [f64])
    requires { Places rows.now av.now bv.now oi.old ov.old }
    ensures { (oi.new ≡ rows.now)
        × (ov.new ≡ table (length rows.now) (λ k. add binary64 (mul binary64 (get_or av.now k nan) one) (mul binary64 (get_or bv.now k nan) one))) }
{
    for k in 0..rows.len() {
        oi[k] = rows[k];
        ov[k] = av[k] * 1.0 + bv[k] * 1.0;
    }
}
