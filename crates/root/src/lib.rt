// The square root of an f64, rounded to nearest, by integer arithmetic: from bits to bits, and of an f64.
#![tactic(auto)]

mod digits;
mod near;
mod positive;
mod whole;

ghost use Rattle.std.specs.Prelude.{◌≡◌};
ghost use Rattle.std.specs.Float.{binary64};
ghost use Rattle.std.specs.Float.Ieee.{of_bits};
ghost use Rattle.root.specs.Root.{root_of, root_bits};
ghost use Rattle.root.specs.Nearest.{Nearest, Patterns};

use float_bits::{bits_of, of_bits};

const NAN: u64 = 0x7FF8_0000_0000_0000;

// The bits of the root of the number with the bits b.
pub fn root_bits(b: u64) -> u64
    ensures { (result ≡ root_bits b) × Patterns b result × Nearest (of_bits binary64 b) (of_bits binary64 result) }
{
    match b {
        0 | 0x8000_0000_0000_0000 | 0x7FF0_0000_0000_0000 => b,
        1..=0x7FEF_FFFF_FFFF_FFFF => positive::positive_root(b),
        _ => NAN,
    }
}

// The square root of x.
pub fn root(x: f64) -> f64
    ensures { (result ≡ root_of x) × Nearest x result }
{
    of_bits(root_bits(bits_of(x)))
}
