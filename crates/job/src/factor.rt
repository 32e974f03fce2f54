// The factoring by the engine that GO names, with scratch of its own.
ghost use Rattle.std.specs.Prelude.{◌≡◌};
ghost use Rattle.lists.specs.Calls.{lent, outputs};
ghost use Rattle.cs_matrix.specs.Lent.{matrix_of};
ghost use Rattle.cs_tree.specs.Pattern.{upper, entries};
ghost use Rattle.cs_pattern.specs.Columns.{columns};
ghost use Rattle.cs_pattern.specs.Lent.{analysis_of};
ghost use Rattle.cs_cholesky.specs.Factor.{answer, written};
ghost use Rattle.job_file.specs.Told.{byte};
ghost use Rattle.job_prepare.specs.Prepare.{scratch_room};
ghost use Rattle.job.specs.Run.{factoring, factor_number};

use cs_cholesky::Factored;
use cs_left::left::decompose_left_looking;
use cs_matrix::matrix::Matrix;
use cs_pattern::compare::Analysis;
use cs_up::up::decompose_up_looking;
use job_file::read::Engine;

// L's values in lx.
pub fn factor(engine: Engine, a: Matrix<'_>, given: Analysis<'_>, lx: &mut [f64]) -> Factored
    ensures { let a = matrix_of a.entry in
        let given = analysis_of given.entry in
        let old = lx.old in
        let e = byte engine in
        (result ≡ answer (factor_number e a given (lent old scratch_room)) (factoring e a))
        × (lx.new ≡ outputs result.number (written (entries (upper (columns a.pattern))) (factoring e a) old) old) }
{
    let mut w1: [u32; 2562] = [0; 2562];
    let mut w2: [u32; 2562] = [0; 2562];
    let mut w3: [u32; 2562] = [0; 2562];
    let mut x: [f64; 2562] = [0.0; 2562];
    match engine {
        Engine::Left => decompose_left_looking(a, given, lx, &mut w1, &mut w2, &mut w3, &mut x),
        Engine::Up => decompose_up_looking(a, given, lx, &mut w1, &mut w2, &mut w3, &mut x),
    }
}
