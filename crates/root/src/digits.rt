// The whole root of a number, digit by digit.
ghost use Rattle.std.specs.Prelude.{◌+◌, ◌^◌, ◌≤◌};
ghost use Rattle.root.specs.Root.{Largest};

// Two binary digits of a come down in each turn: rem and root stay below 2^30.
pub fn whole_root(a: u64) -> u64
    requires { a + 2 ≤ 2 ^ 54 }
    ensures { Largest a result }
{
    let mut left = a;
    let mut rem: u64 = 0;
    let mut root: u64 = 0;
    for _ in 0..27u32 {
        rem = rem * 4 + left / 0x10_0000_0000_0000;
        left = (left % 0x10_0000_0000_0000) * 4;
        let trial = root * 4 + 1;
        if trial <= rem {
            rem -= trial;
            root = root * 2 + 1;
        } else {
            root = root * 2;
        }
    }
    root
}
