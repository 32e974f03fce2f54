// One value in the front of a slice, and zeros in the needed part of the scratch slices.
ghost use Rattle.std.specs.Prelude.{◌≡◌};
ghost use Rattle.lists.specs.Calls.{cleared, scratch, wiped, narrow};

// x in the first n places, or in all where there are fewer.
pub fn fill<T: Copy>(x: T, n: usize, out: &mut [T])
    ensures { out.new ≡ cleared x n out.old }
{
    for k in 0..n.min(out.len()) {
        out[k] = x;
    }
}

// Zeros in the first n places of each scratch slice. The four are parameters here and in each call that takes them, and so are outputs: of
// a struct of `&mut` every contract would have to say, field by field, that it still holds the slices that it was made of.
pub fn clear_scratch(n: usize, w1: &mut [u32], w2: &mut [u32], w3: &mut [u32], x: &mut [f64])
    ensures { scratch w1.new w2.new w3.new x.new
        ≡ wiped n (scratch w1.old w2.old w3.old x.old) }
{
    fill(0, n, w1);
    fill(0, n, w2);
    fill(0, n, w3);
    fill(0.0, n, x);
}

// Number 6: a scratch slice has fewer than the n elements needed.
#[tactic(auto, unfolding(crate::specs::Calls::narrow))]
pub fn too_narrow(n: usize, w1: &[u32], w2: &[u32], w3: &[u32], x: &[f64]) -> bool
    ensures { result ≡ narrow n (scratch w1.now w2.now w3.now x.now) }
{
    w1.len() < n || w2.len() < n || w3.len() < n || x.len() < n
}
