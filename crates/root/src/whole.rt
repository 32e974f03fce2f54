// The rounded root of a whole number: the upper digits, which are the whole root of a, and behind them as many again by one
// division. Its contract speaks of the definition alone, so another way to find the same number can take this one's place.
ghost use Rattle.std.specs.Prelude.{◌≡◌, ◌+◌, ◌*◌, ◌^◌, ◌≤◌};
ghost use Rattle.root.specs.Root.{Largest, rounded};

use crate::near::near_root;

// The rounded root of a * 2^52 from the whole root s of a. With q the digits that the division gives and u what it leaves, the
// square of root = s * 2^26 + q is u - q * q below a * 2^52. Where u is less than q * q root is one too many, and what it rounds
// to all the same.
fn finish(a: u64, s: u64) -> u64
    requires { (2 ^ 52 ≤ a) × (a + 2 ≤ 2 ^ 54) × Largest a s }
    ensures { result ≡ rounded (a * 2 ^ 52) }
{
    let n = (a - s * s) * 0x200_0000;
    let q = n / s;
    let u = (n % s) * 0x800_0000;
    let root = s * 0x400_0000 + q;
    if u <= root + q * q { root } else { root + 1 }
}

// The rounded root of a * 2^52.
pub fn rounded_root(a: u64) -> u64
    requires { (2 ^ 52 ≤ a) × (a + 2 ≤ 2 ^ 54) }
    ensures { result ≡ rounded (a * 2 ^ 52) }
{
    finish(a, near_root(a))
}
