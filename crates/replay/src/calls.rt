// The calls by their numbers, each on the slices of a case.
use crate::case::{Case, Head};
use cs_cholesky::Factored;
use cs_conversion::assembly::{Triplets, from_triplet};
use cs_left::left::decompose_left_looking;
use cs_matrix::check::{check, check_pattern, check_vector};
use cs_matrix::matrix::{Matrix, Pattern, Vector};
use cs_ops::axpy::axpy_cs;
use cs_ops::scale::scale;
use cs_pattern::analyse::analyse;
use cs_pattern::compare::{Analysis, compare};
use cs_product::product::product;
use cs_solve::Solved;
use cs_solve::solve::solve_lower_triangular;
use cs_solve::tr_solve::tr_solve_lower_triangular;
use cs_solve_cs::solve_cs::solve_lower_triangular_cs;
use cs_sum::sum::sum;
use cs_transpose::transpose::transpose;
use cs_up::up::decompose_up_looking;
use cs_walk::column_entries::next_entry;
use lists::refusal::{Refusal, number};
use lists::sums::cumsum;
use std::io;
use std::io::Read;

// What any call answers, as a case is written: its number, and the column and the pivot of those that have one.
#[derive(Clone, Copy)]
pub struct Answer {
    pub number: u32,
    pub column: u32,
    pub pivot: f64,
}

const DONE: Answer = Answer {
    number: 0,
    column: 0,
    pivot: 0.0,
};

fn only(answer: Result<(), Refusal>) -> Answer {
    Answer {
        number: number(answer),
        ..DONE
    }
}

fn solved(s: Solved) -> Answer {
    Answer {
        number: s.number,
        column: s.column,
        ..DONE
    }
}

fn factored(f: Factored) -> Answer {
    Answer {
        number: f.number,
        column: f.column,
        pivot: f.pivot,
    }
}

fn pattern<'a>(nrows: usize, ncols: usize, p: &'a [u32], i: &'a [u32]) -> Pattern<'a> {
    Pattern { nrows, ncols, p, i }
}

fn matrix<'a>(nrows: usize, ncols: usize, p: &'a [u32], i: &'a [u32], v: &'a [f64]) -> Matrix<'a> {
    Matrix {
        pattern: pattern(nrows, ncols, p, i),
        v,
    }
}

// An element that is not there is 0.
fn value(slice: &[f64], k: usize) -> f64 {
    if k < slice.len() { slice[k] } else { 0.0 }
}

// One step of a walk from a position; where it stands then and how many are left are put into out. The end has no row: 4,294,967,295.
fn walk(curr: usize, i: &[u32], v: &[f64], out: &mut [u32]) -> Answer {
    let step = next_entry(curr, i, v);
    for (word, n) in out.iter_mut().zip([step.curr, step.left]) {
        *word = (n % 4294967296) as u32;
    }
    let (column, pivot) = step.entry.unwrap_or((u32::MAX, 0.0));
    Answer {
        number: number(step.answer),
        column,
        pivot,
    }
}

// Calls without scratch; the walker puts where it stands into s0.
fn plain(h: &Head, case: &mut Case) -> Answer {
    let Case {
        s0,
        s1,
        v,
        b,
        x,
        ..
    } = case;
    let n = h.n;
    match h.call {
        0 => Answer {
            pivot: root::root(value(x, 0)),
            ..DONE
        },
        1 => only(check(matrix(h.m, n, s0, s1, v))),
        2 => only(check_pattern(pattern(h.m, n, s0, s1))),
        3 => only(check_vector(Vector { n, i: s1, v })),
        4 => only(scale(pattern(h.m, n, s0, s1), v, value(x, 0))),
        5 => only(axpy_cs(value(x, 0), Vector { n, i: s1, v }, value(x, 1), b)),
        6 => solved(solve_lower_triangular(matrix(h.m, n, s0, s1, v), b)),
        7 => solved(tr_solve_lower_triangular(matrix(h.m, n, s0, s1, v), b)),
        8 => Answer {
            column: cumsum(s0, s1),
            ..DONE
        },
        _ => walk(n, s1, v, s0),
    }
}

// Calls that write a matrix or a vector.
fn built(h: &Head, case: &mut Case) -> Answer {
    let Case {
        s0,
        s1,
        s2,
        s3,
        s4,
        s5,
        w1,
        w2,
        w3,
        v,
        b,
        o,
        x,
        ..
    } = case;
    let (s0, s1, v, s2, b) = (&s0[..], &s1[..], &v[..], &s2[..], &b[..]);
    let a = matrix(h.m, h.n, s0, s1, v);
    let other = matrix(h.d, h.e, s2, s3, b);
    match h.call {
        10 => only(transpose(a, s4, s5, o, w1, w2, w3, x)),
        11 => {
            let t = Triplets {
                nrows: h.m,
                ncols: h.n,
                irows: s0,
                icols: s1,
                vals: v,
            };
            only(from_triplet(t, s4, s5, o, w1, w2, w3, x))
        }
        13 => only(product(a, other, s4, s5, o, w1, w2, w3, x)),
        14 => only(sum(a, other, s4, s5, o)),
        _ => solved(solve_lower_triangular_cs(a, s2, b, s5, o, w1, w2, w3, x)),
    }
}

// Calls with an analysis.
fn analysed(h: &Head, case: &mut Case) -> Answer {
    let Case {
        s0,
        s1,
        s2,
        s3,
        s4,
        s5,
        s6,
        w1,
        w2,
        w3,
        v,
        o,
        x,
        ..
    } = case;
    let a = matrix(h.m, h.n, s0, s1, v);
    if h.call == 16 {
        return only(analyse(a.pattern, s2, s3, s4, s5, s6, w1, w2, w3, x));
    }
    let given = Analysis {
        tree: s2,
        up: s3,
        ui: s4,
        lp: s5,
        li: s6,
    };
    match h.call {
        17 => only(compare(a.pattern, h.d, given, w1, w2, w3, x)),
        18 => factored(decompose_left_looking(a, given, o, w1, w2, w3, x)),
        _ => factored(decompose_up_looking(a, given, o, w1, w2, w3, x)),
    }
}

// One case: its call is made, and the answer and the slices are written; whether there was one.
fn turn<R: Read>(rt: &impl Print, input: &mut R, case: &mut Case) -> io::Result<bool> {
    let Some(head) = Head::read(input)? else {
        return Ok(false);
    };
    case.read(input, &head)?;
    let answer = match head.call {
        0..=9 => plain(&head, case),
        10..=15 => built(&head, case),
        _ => analysed(&head, case),
    };
    case.write(rt, answer.number, answer.column, answer.pivot)?;
    Ok(true)
}

// A proved loop has to end, and nothing says that the input does: the turns are counted, up to a number that no run reaches.
pub fn replay<R: Read>(rt: &impl Print, input: &mut R) -> io::Result<()> {
    let mut case = Case::new();
    for _ in 0..u64::MAX {
        if !turn(rt, input, &mut case)? {
            break;
        }
    }
    Ok(())
}
