// Axpy with a sparse x on a dense y: α x + β y.
ghost use Rattle.std.specs.Prelude.{◌≡◌};
ghost use Rattle.lists.specs.Calls.{outputs};
ghost use Rattle.lists.specs.Refusals.{numbered};
ghost use Rattle.cs_matrix.specs.Lent.{vector_of};
ghost use Rattle.cs_ops.specs.Axpy.{assigned, added, axpy as axpyOf, axpy_number, Fitting};

use crate::scale::times;
use cs_matrix::check::check_vector;
use cs_matrix::matrix::Vector;
use lists::numbers::wide;
use lists::refusal::{Refusal, lower};

// y(i) = α times x's value, at x's rows.
fn assign(alpha: f64, x: Vector<'_>, y: &mut [f64])
    requires { Fitting (vector_of x) y.old }
    ensures { y.new ≡ assigned alpha (vector_of x.entry) y.old }
{
    for (&row, &val) in x.i.iter().zip(x.v) {
        let at = wide(row);
        y[at] = alpha * val;
    }
}

// All of y times β, then α times x's value added at x's rows.
fn accumulate(alpha: f64, x: Vector<'_>, beta: f64, y: &mut [f64])
    requires { Fitting (vector_of x) y.old }
    ensures { y.new ≡ added alpha (vector_of x.entry) beta y.old }
{
    times(beta, y);
    for (&row, &val) in x.i.iter().zip(x.v) {
        let at = wide(row);
        y[at] += alpha * val;
    }
}

// y becomes α times x and β times y.
pub fn axpy_cs(alpha: f64, x: Vector<'_>, beta: f64, y: &mut [f64]) -> Result<(), Refusal>
    ensures { let x = vector_of x.entry in
        (numbered result ≡ axpy_number x y.old) × (y.new ≡ outputs (numbered result) (axpyOf alpha x beta y.old) y.old) }
{
    let refused = check_vector(x);
    if y.len() != x.n {
        return lower(refused, Err(Refusal::Disagree));
    }
    refused?;
    if beta == 0.0 {
        assign(alpha, x, y);
    } else {
        accumulate(alpha, x, beta, y);
    }
    Ok(())
}
