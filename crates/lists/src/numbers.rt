// Small functions on numbers.
ghost use Rattle.std.specs.Prelude.{◌≡◌, ◌^◌, ◌<◌, min, max};
ghost use Rattle.lists.specs.Calls.{lower as lower_of};

// A u32 as an index. That it is below 2^32 is said for the caller's arithmetic.
pub fn wide(x: u32) -> usize
    ensures { (result ≡ x) × (result < 2 ^ 32) }
{
    x as usize
}

// The larger of the two, as std's `max`.
pub fn larger(a: usize, b: usize) -> usize
    ensures { result ≡ max a b }
{
    if a < b { b } else { a }
}

// The smaller of the two, as std's `min`.
pub fn smaller(a: usize, b: usize) -> usize
    ensures { result ≡ min a b }
{
    if b < a { b } else { a }
}

// The lower of two answers as C has them, any two numbers, of which 0 says that none applies. `refusal::lower` is the same of answers.
pub fn lower(a: u32, b: u32) -> u32
    ensures { result ≡ lower_of a b }
{
    if a == 0 {
        return b;
    }
    if b == 0 {
        return a;
    }
    if a < b { a } else { b }
}
