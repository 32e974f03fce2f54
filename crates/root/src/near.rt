// The whole root of a number by a guess in f64, which is tested. Nothing is known of the guess, and nothing has to be: where it is
// not right the root is found digit by digit.
ghost use Rattle.std.specs.Prelude.{◌+◌, ◌^◌, ◌≤◌, ◌<◌};
ghost use Rattle.root.specs.Root.{Largest};

use crate::digits::whole_root;
use float_bits::{bits_of, of_bits};

// A guess at the whole root of a. x is a / 2^52, or a little less, from 1 to 4; h is near 1 / sqrt(x), its exponent being
// halved, y is nearer by one step, and t is near sqrt(x) by another: its upper digits are those of the root.
fn guess(a: u64) -> u64
    requires { a + 2 ≤ 2 ^ 54 }
    ensures { result < 2 ^ 27 }
{
    let odd = a / 0x20_0000_0000_0000;
    let b = (a >> odd) + (odd + 1022) * 0x10_0000_0000_0000;
    let x = of_bits(b);
    let h = of_bits(0x5FE6_EB50_C7B5_37A9 - b / 2);
    let z = x * h * h;
    let y = h * (1.8763237230655179 - z * (1.2515505543029826 - 0.3752276839370265 * z));
    let s = x * y;
    let mut t = s + (x - s * s) * (y * 0.5);
    if t < 1.0 {
        t = 1.0;
    }
    bits_of(t) % 0x10_0000_0000_0000 / 0x400_0000 + 0x400_0000
}

// One more where that is not too many.
fn closer(a: u64, s: u64) -> u64
    requires { s < 2 ^ 27 }
    ensures { result ≤ 2 ^ 27 }
{
    if (s + 1) * (s + 1) <= a { s + 1 } else { s }
}

// The whole root of a.
pub fn near_root(a: u64) -> u64
    requires { a + 2 ≤ 2 ^ 54 }
    ensures { Largest a result }
{
    let s = closer(a, guess(a));
    if s * s <= a && a < (s + 1) * (s + 1) {
        return s;
    }
    whole_root(a)
}
