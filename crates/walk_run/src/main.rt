// Walks columns by `next_entry`, which makes a walker at each step. For each walk a line with the number of its parts, then a
// line for each call: the number, the row and the value's bits or `end`, the position behind, and how many entries are left.
// A write that fails ends the program with its error.
#![tactic(auto)]

use cs_walk::column_entries::{check_parts, next_entry};
use float_bits::bits_of;
use lists::numbers::wide;
use lists::refusal;
use std::io;

fn text(rt: &impl Print, s: &str) -> io::Result<()> {
    print!(rt; "{s}")
}

fn number(rt: &impl Print, n: usize) -> io::Result<()> {
    print!(rt; " {n}")
}

fn value(rt: &impl Print, x: f64) -> io::Result<()> {
    let bits = bits_of(x);
    print!(rt; " {bits:016x}")
}

fn show(rt: &impl Print, entry: Option<(u32, f64)>) -> io::Result<()> {
    let Some((row, x)) = entry else {
        return text(rt, " end");
    };
    number(rt, wide(row))?;
    value(rt, x)
}

// One call from a position: what it tells, and the position behind.
fn call(rt: &impl Print, curr: usize, i: &[u32], v: &[f64]) -> io::Result<usize> {
    let s = next_entry(curr, i, v);
    number(rt, wide(refusal::number(s.answer)))?;
    show(rt, s.entry)?;
    number(rt, s.curr)?;
    number(rt, s.left)?;
    text(rt, "\n")?;
    Ok(s.curr)
}

// So many calls, the first from a position, each other from where the one before it stopped.
fn walk(
    rt: &impl Print,
    name: &str,
    from: usize,
    i: &[u32],
    v: &[f64],
    calls: usize,
) -> io::Result<()> {
    text(rt, name)?;
    number(rt, wide(refusal::number(check_parts(i, v))))?;
    text(rt, "\n")?;
    let mut curr = from;
    for _ in 0..calls {
        curr = call(rt, curr, i, v)?;
    }
    Ok(())
}

// A column as the part between its two pointers, with two calls more than it has entries.
fn column(rt: &impl Print, name: &str, a: usize, e: usize, i: &[u32], v: &[f64]) -> io::Result<()> {
    if a > e || e > i.len() || e > v.len() {
        return Ok(());
    }
    walk(rt, name, 0, &i[a..e], &v[a..e], e - a + 2)
}

// The columns of document 01's matrix Q.
fn columns(rt: &impl Print) -> io::Result<()> {
    let i = [0, 2, 3, 1, 3, 0, 2, 0, 1, 3];
    let v = [4.0, 2.0, 2.0, 9.0, 3.0, 2.0, 5.0, 2.0, 3.0, 6.25];
    column(rt, "Q, column 0", 0, 3, &i, &v)?;
    column(rt, "Q, column 1", 3, 5, &i, &v)?;
    column(rt, "Q, column 2", 5, 7, &i, &v)?;
    column(rt, "Q, column 3", 7, 10, &i, &v)
}

// No entry, one entry, and values that compare equal or with none.
fn small(rt: &impl Print) -> io::Result<()> {
    walk(rt, "empty", 0, &[], &[], 2)?;
    walk(rt, "single", 0, &[7], &[0.5], 3)?;
    walk(rt, "zeros", 0, &[0, 65534], &[-0.0, 0.0], 3)?;
    walk(rt, "not a number", 0, &[u32::MAX], &[f64::NAN], 2)
}

// From a position inside, at the end, past it, and as far past as can be.
fn positions(rt: &impl Print) -> io::Result<()> {
    walk(rt, "from 1", 1, &[5, 6, 7], &[1.0, 2.0, 3.0], 4)?;
    walk(rt, "from 3", 3, &[5, 6, 7], &[1.0, 2.0, 3.0], 2)?;
    walk(rt, "from 4", 4, &[5, 6, 7], &[1.0, 2.0, 3.0], 2)?;
    walk(
        rt,
        "from the last",
        usize::MAX,
        &[5, 6, 7],
        &[1.0, 2.0, 3.0],
        2,
    )
}

// Parts of unequal length: only the end.
fn unequal(rt: &impl Print) -> io::Result<()> {
    walk(rt, "a row more", 0, &[1, 2], &[1.0], 2)?;
    walk(rt, "a value more", 0, &[1], &[1.0, 2.0], 2)?;
    walk(rt, "no value", 0, &[1], &[], 2)?;
    walk(rt, "no row", 0, &[], &[1.0], 2)
}

fn main(rt: HostRuntime) -> io::Result<()> {
    columns(&rt)?;
    small(&rt)?;
    positions(&rt)?;
    unequal(&rt)
}
