// Tests on lists of numbers, which look at every element. There is no early exit and what tells is as wide as what is compared, so that
// several are looked at at a time: with a bool a check of 250,000 rows took 40 percent longer.
ghost use Rattle.std.specs.Prelude.{◌≡◌};
ghost use Rattle.lists.specs.Order.{all_below, starts_with};

// Every one is below n.
pub fn all_below(l: &[u32], n: u32) -> bool
    ensures { result ≡ all_below l.now n }
{
    let mut bad: u32 = 0;
    for &x in l {
        if x >= n {
            bad = 1;
        }
    }
    bad == 0
}

// The slice b starts with what a holds.
pub fn starts_with(a: &[u32], b: &[u32]) -> bool
    ensures { result ≡ starts_with a.now b.now }
{
    if b.len() < a.len() {
        return false;
    }
    let mut apart: u32 = 0;
    for q in 0..a.len() {
        if a[q] != b[q] {
            apart = 1;
        }
    }
    apart == 0
}
