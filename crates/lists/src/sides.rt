// Two slices side by side, the first element with the first, as far as both go, so that several are done at a time. By loops: a copy of std's
// would make the archive for C need memmove.
ghost use Rattle.std.specs.Prelude.{◌≡◌};
ghost use Rattle.std.specs.Float.{binary64};
ghost use Rattle.std.specs.Float.Ieee.{add, mul};
ghost use Rattle.lists.specs.Runs.{zipped};

// The elements of one slice, in the front of the other.
pub fn copy<T: Copy>(from: &[T], out: &mut [T])
    ensures { out.new ≡ zipped (λ _ v. v) out.old from.now }
{
    let n = from.len().min(out.len());
    for k in 0..n {
        out[k] = from[k];
    }
}

// To each element its value times f is added. The solves and the up factoring subtract, in loops of their own: of a step that is handed in,
// a function has to ask what it answers, and a public function asks nothing.
pub fn add_times(vals: &[f64], f: f64, x: &mut [f64])
    ensures { x.new ≡ zipped (λ a v. add binary64 a (mul binary64 v f)) x.old vals.now }
{
    for q in 0..vals.len().min(x.len()) {
        x[q] = x[q] + vals[q] * f;
    }
}
