// The matrix of a job's entries, and its analysis, in arrays of the program's maxima.
ghost use Rattle.std.specs.Prelude.{◌≡◌, ◌≤◌, ◌<◌, length, get_or};
ghost use Rattle.lists.specs.Calls.{outputs};
ghost use Rattle.lists.specs.Refusals.{numbered};
ghost use Rattle.cs_matrix.specs.Lent.{pattern_of as patternOf};
ghost use Rattle.cs_matrix.specs.Matrix.{stored, written};
ghost use Rattle.cs_tree.specs.Pattern.{analysis, analysed};
ghost use Rattle.cs_conversion.specs.Assembly.{assembled, Assembled};
ghost use Rattle.cs_conversion.specs.Lent.{triplets_of};
ghost use Rattle.cs_pattern.specs.Analyse.{written as writtenAnalysis};
ghost use Rattle.cs_pattern.specs.Columns.{columns};
ghost use Rattle.job_prepare.specs.Prepare.{assembly, analysis_of, number, Outputs, leaves};

use cs_conversion::assembly::{Triplets, from_triplet};
use cs_matrix::matrix::Pattern;
use lists::numbers::wide;
use lists::refusal::Refusal;

fn assemble(t: Triplets<'_>, p: &mut [u32], i: &mut [u32], v: &mut [f64]) -> Result<(), Refusal>
    requires { (length p.old ≡ 257) × (length i.old ≡ 2048) × (length v.old ≡ 2048) }
    ensures { let t = triplets_of t.entry in
        let old = stored p.old i.old v.old in
        let new = stored p.new i.new v.new in
        (numbered result ≡ assembly t) × (new ≡ outputs (numbered result) (written (assembled t) old) old)
        × (numbered result ≡ 0 → Assembled t) }
{
    let mut w1: [u32; 2562] = [0; 2562];
    let mut w2: [u32; 2562] = [0; 2562];
    let mut w3: [u32; 2562] = [0; 2562];
    let mut x: [f64; 2562] = [0.0; 2562];
    from_triplet(t, p, i, v, &mut w1, &mut w2, &mut w3, &mut x)
}

fn analyse(
    a: Pattern<'_>,
    tree: &mut [u32; 256],
    up: &mut [u32; 257],
    ui: &mut [u32; 2048],
    lp: &mut [u32; 257],
    li: &mut [u32; 2048],
) -> Result<(), Refusal>
    ensures { let a = patternOf a.entry in
        let old = analysis tree.old up.old ui.old lp.old li.old in
        let new = analysis tree.new up.new ui.new lp.new li.new in
        (numbered result ≡ analysis_of a) × (new ≡ outputs (numbered result) (writtenAnalysis (analysed (columns a)) old) old) }
{
    let mut w1: [u32; 2562] = [0; 2562];
    let mut w2: [u32; 2562] = [0; 2562];
    let mut w3: [u32; 2562] = [0; 2562];
    let mut x: [f64; 2562] = [0.0; 2562];
    cs_pattern::analyse::analyse(a, tree, up, ui, lp, li, &mut w1, &mut w2, &mut w3, &mut x)
}

// The matrix of the triplets in p, i and v, its analysis in tree, up, ui, lp and li.
pub fn prepare(
    t: Triplets<'_>,
    p: &mut [u32; 257],
    i: &mut [u32; 2048],
    v: &mut [f64; 2048],
    tree: &mut [u32; 256],
    up: &mut [u32; 257],
    ui: &mut [u32; 2048],
    lp: &mut [u32; 257],
    li: &mut [u32; 2048],
) -> Result<(), Refusal>
    ensures { (let t = triplets_of t.entry in
        let old : Outputs = record {
          matrix = stored p.old i.old v.old;
          analysis = analysis tree.old up.old ui.old lp.old li.old;
        } in
        let new : Outputs = record {
          matrix = stored p.new i.new v.new;
          analysis = analysis tree.new up.new ui.new lp.new li.new;
        } in
        (numbered result ≡ number t) × (new ≡ leaves t old) × (numbered result ≡ 0 → Assembled t)) }
{
    assemble(t, p, i, v)?;
    let Triplets { nrows, ncols, .. } = t;
    let i = &i[..wide(p[ncols])];
    let p = &p[..=ncols];
    let a = Pattern { nrows, ncols, p, i };
    analyse(a, tree, up, ui, lp, li)
}
