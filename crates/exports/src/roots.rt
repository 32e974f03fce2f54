// The square root.
ghost use Rattle.std.specs.Prelude.{◌≡◌};
ghost use Rattle.std.specs.Float.{binary64};
ghost use Rattle.std.specs.Float.Ieee.{of_bits};
ghost use Rattle.root.specs.Root.{root_of, root_bits};
ghost use Rattle.root.specs.Nearest.{Nearest, Patterns};

// The bits of the root of the number with the bits b.
#[unsafe(no_mangle)]
pub extern "C" fn siwkatenor_root_bits(b: u64) -> u64
    ensures { (result ≡ root_bits b) × Patterns b result × Nearest (of_bits binary64 b) (of_bits binary64 result) }
{
    root::root_bits(b)
}

// The square root of x.
#[unsafe(no_mangle)]
pub extern "C" fn siwkatenor_root(x: f64) -> f64
    ensures { (result ≡ root_of x) × Nearest x result }
{
    root::root(x)
}
