// A job's entries and right side to its solution.
ghost use Rattle.std.specs.Prelude.{◌≡◌};
ghost use Rattle.cs_conversion.specs.Lent.{triplets_of};
ghost use Rattle.job_file.specs.Told.{byte};
ghost use Rattle.job.specs.Run.{answered, worked};

use crate::run::run;
use cs_conversion::assembly::Triplets;
use cs_matrix::matrix::{Matrix, Pattern};
use cs_pattern::compare::Analysis;
use cs_solve::Solved;
use job_file::read::Engine;
use job_prepare::prepare::prepare;
use lists::numbers::wide;

// Prepared, then run: the right side b becomes the solution. Arrays of the program's maxima, as there is no heap.
pub fn work(engine: Engine, t: Triplets<'_>, b: &mut [f64]) -> Solved
    ensures { let s = worked (byte engine) (triplets_of t.entry) b.old in
        (result ≡ answered s) × (result.number ≡ 0 → b.new ≡ s.x) }
{
    let mut p: [u32; 257] = [0; 257];
    let mut i: [u32; 2048] = [0; 2048];
    let mut v: [f64; 2048] = [0.0; 2048];
    let mut tree: [u32; 256] = [0; 256];
    let mut up: [u32; 257] = [0; 257];
    let mut ui: [u32; 2048] = [0; 2048];
    let mut lp: [u32; 257] = [0; 257];
    let mut li: [u32; 2048] = [0; 2048];
    if let Err(refusal) = prepare(
        t, &mut p, &mut i, &mut v, &mut tree, &mut up, &mut ui, &mut lp, &mut li,
    ) {
        return Solved::refused(refusal);
    }
    let Triplets { nrows, ncols, .. } = t;
    let entries = wide(p[ncols]);
    let pattern = Pattern {
        nrows,
        ncols,
        p: &p[..=ncols],
        i: &i[..entries],
    };
    let a = Matrix {
        pattern,
        v: &v[..entries],
    };
    let given = Analysis {
        tree: &tree,
        up: &up,
        ui: &ui,
        lp: &lp,
        li: &li,
    };
    run(engine, a, given, b)
}
