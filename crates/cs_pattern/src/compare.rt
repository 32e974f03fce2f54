// The comparison of a lent analysis with the one worked out afresh: only the tree is worked out, U and L are read. Where the tree or
// U differs U's entries are counted, since 7 comes before 8.
ghost use Rattle.std.specs.Prelude.{◌≡◌, ◌+◌, ◌≤◌, not, ◌&&◌, [], ◌∷◌, length, nat_lt};
ghost use mathlib.Core.List.{flatten};
ghost use Rattle.lists.specs.Calls.{lowest, scratch, worked};
ghost use Rattle.lists.specs.Keeping.{Kept};
ghost use Rattle.lists.specs.Refusals.{numbered};
ghost use Rattle.lists.specs.Order.{starts_with};
ghost use Rattle.cs_matrix.specs.Lent.{pattern_of};
ghost use Rattle.cs_matrix.specs.Matrix.{needed, ValidPattern};
ghost use Rattle.cs_tree.specs.Pattern.{analysed, transposed, starts};
ghost use Rattle.cs_tree.specs.Steps.{Whole};
ghost use Rattle.cs_pattern.specs.Columns.{columns};
ghost use Rattle.cs_pattern.specs.Lent.{analysis_of, square_of};
ghost use Rattle.cs_pattern.specs.Compare.{same as sameAs, tight, number};

use crate::fill::outline;
use crate::look::look;
use crate::quick::read_upper;
use cs_matrix::matrix::Pattern;
use cs_matrix::square::prepare;
use lists::clear::clear_scratch;
use lists::numbers::wide;
use lists::refusal::Refusal;

// A lent analysis: the tree, U and L.
#[derive(Clone, Copy)]
pub struct Analysis<'a> {
    pub tree: &'a [u32],
    pub up: &'a [u32],
    pub ui: &'a [u32],
    pub lp: &'a [u32],
    pub li: &'a [u32],
}

// 7 or 8, or nothing, where U is known to be held, with t entries.
fn judge_lower(
    n: usize,
    t: usize,
    room: usize,
    given: Analysis<'_>,
    w3: &mut [u32],
) -> Result<(), Refusal>
    requires { Whole n t given.up.now given.ui.now × (n ≤ length w3.old) }
    ensures { let given = analysis_of given.entry in
        ((w : Whole n t given.up given.ui)
        → numbered result ≡ lowest ((7, nat_lt room t) ∷ (
          8,
          not (starts_with (starts 0 (transposed w.us)) given.lp && starts_with (flatten (transposed w.us)) given.li),
        ) ∷ []))
        × Kept 0 n w3.old w3.new }
{
    if room < t {
        return Err(Refusal::NoRoom);
    }
    if !look(n, t, given, w3) {
        return Err(Refusal::WrongAnalysis);
    }
    Ok(())
}

// 7 or 8, or nothing.
fn decide(
    a: Pattern<'_>,
    room: usize,
    given: Analysis<'_>,
    w1: &mut [u32],
    w2: &mut [u32],
    w3: &mut [u32],
) -> Result<(), Refusal>
    requires { let n = a.ncols in
        ValidPattern (square_of a) × (n + 1 ≤ length w1.old) × (n + 1 ≤ length w2.old) × (n + 1 ≤ length w3.old) }
    ensures { let f = analysed (columns (square_of a.entry)) in
        let given = analysis_of given.entry in
        let n = a.entry.ncols in
        (numbered result ≡ lowest ((7, tight room f) ∷ (8, not (sameAs f given)) ∷ []))
        × Kept 0 (n + 1) w1.old w1.new × Kept 0 (n + 1) w2.old w2.new × Kept 0 (n + 1) w3.old w3.new }
{
    if read_upper(a, given, w1, w2) {
        let n = a.ncols;
        return judge_lower(n, wide(given.up[n]), room, given, w3);
    }
    let Some(t) = outline(a, w1, w2, w3) else {
        return Err(Refusal::NoRoom);
    };
    if room < t {
        return Err(Refusal::NoRoom);
    }
    Err(Refusal::WrongAnalysis)
}

// What refuses a lent analysis of a pattern first, or nothing, where L's values have the length room.
pub fn compare(
    a: Pattern<'_>,
    room: usize,
    given: Analysis<'_>,
    w1: &mut [u32],
    w2: &mut [u32],
    w3: &mut [u32],
    x: &mut [f64],
) -> Result<(), Refusal>
    ensures { let a = pattern_of a.entry in
        let given = analysis_of given.entry in
        let old = scratch w1.old w2.old w3.old x.old in
        let new = scratch w1.new w2.new w3.new x.new in
        (numbered result ≡ number a room given old) × (new ≡ worked (numbered result) (needed a) old) }
{
    prepare(a, w1, w2, w3, x)?;
    let answer = decide(a, room, given, w1, w2, w3);
    clear_scratch(a.ncols + 1, w1, w2, w3, x);
    answer
}
