// The root of a positive finite number, by its bits.
ghost use Rattle.std.specs.Prelude.{◌≡◌, ◌-◌, ◌*◌, ◌^◌, ◌<◌, ◌≤◌};
ghost use Rattle.std.specs.Float.{binary64};
ghost use Rattle.std.specs.Float.Ieee.{to_bits};
ghost use Rattle.root.specs.Root.{positive_root, root_bits};

use crate::whole::rounded_root;

// The root of u * 2^(x - 1) smallest values, u being a significand and x an exponent's field that
// counts. Leading zeros give the shift that takes u's top bit to place 52, and lower the exponent:
// i is the place of the value's top bit, 1126 above the exponent of its significand.
fn scaled_root(u: u64, x: u64) -> u64
    requires { (0 < u) × (u < 2 ^ 53) × (1 ≤ x) × (x ≤ 2046) }
    ensures { result ≡ to_bits binary64 (positive_root (u * 2 ^ (x - 1))) }
{
    let z = u64::from(u.leading_zeros());
    let m = u << (z - 11);
    let i = x + 62 - z;
    let a = rounded_root(m << (i % 2));
    (i / 2 + 485) * 0x10_0000_0000_0000 + a
}

pub fn positive_root(b: u64) -> u64
    requires { (0 < b) × (b < 0x7FF0_0000_0000_0000) }
    ensures { result ≡ root_bits b }
{
    let field = b / 0x10_0000_0000_0000;
    let digits = b % 0x10_0000_0000_0000;
    if field == 0 {
        return scaled_root(digits, 1);
    }
    scaled_root(digits + 0x10_0000_0000_0000, field)
}
