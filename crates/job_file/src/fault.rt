// What refuses a record where it stands, one record kind a function.
ghost use Rattle.std.specs.Prelude.{◌≡◌, ◌==◌, ◌&&◌, [], ℕ, ◌≤◌, eqb, length};
ghost use Rattle.std.specs.List.{list_any, zip};
ghost use Rattle.job_file.specs.Records.{SZ, EN, RH, GO};
ghost use Rattle.lists.specs.Refusals.{numbered};
ghost use Rattle.job_file.specs.Faults.{fault as faultOf};
ghost use Rattle.job_file.specs.Arrays.{arrays};
ghost use Rattle.job_file.specs.Told.{byte, place_of, told};
ghost use Rattle.job_file.specs.Keeping.{held_by, Judged};

use crate::read::{Engine, Head, Stage};
use crate::record::Found;
use lists::numbers::wide;
use lists::refusal::Refusal;

fn size_fault(h: Head, n: u32, count: u32) -> Result<(), Refusal>
    ensures { Judged h (SZ n count) (numbered result) }
{
    if h.stage != Stage::Start {
        return Err(Refusal::Malformed);
    }
    if n > 256 || count > 2048 {
        return Err(Refusal::TooLarge);
    }
    Ok(())
}

// One of the places is (row, column).
fn is_given(row: u32, column: u32, rows: &[u32], columns: &[u32]) -> bool
    ensures { result ≡ list_any (λ p. (p.0 == row) && (p.1 == column)) (zip rows.now columns.now) }
{
    rows.iter()
        .zip(columns)
        .any(|(&x, &y)| x == row && y == column)
}

fn entry_fault(h: Head, row: u32, column: u32, rows: &[u32], columns: &[u32]) -> Result<(), Refusal>
    requires { (h.entries ≤ length rows.now) × (h.entries ≤ length columns.now) }
    ensures { (bits : ℕ) → numbered result ≡ faultOf (held_by h (arrays rows.now columns.now [] [])) (EN row column bits) }
{
    if h.stage != Stage::Sized || h.entries == h.count {
        return Err(Refusal::Malformed);
    }
    if row >= h.n || column >= h.n {
        return Err(Refusal::OutOfRange);
    }
    let given = wide(h.entries);
    if is_given(row, column, &rows[..given], &columns[..given]) {
        return Err(Refusal::Misplaced);
    }
    Ok(())
}

// SZ and every entry have come, and GO has not: the turn of RH and of GO.
fn is_filled(h: Head) -> bool
    ensures { result ≡ (eqb (place_of h.stage) 1 && eqb h.entries h.count) }
{
    h.stage == Stage::Sized && h.entries == h.count
}

fn right_fault(h: Head, row: u32) -> Result<(), Refusal>
    ensures { (bits : ℕ) → Judged h (RH row bits) (numbered result) }
{
    if !is_filled(h) {
        return Err(Refusal::Malformed);
    }
    if row >= h.n {
        return Err(Refusal::OutOfRange);
    }
    if row < h.next {
        return Err(Refusal::NotRising);
    }
    Ok(())
}

fn go_fault(h: Head, engine: Engine) -> Result<(), Refusal>
    ensures { Judged h (GO (byte engine)) (numbered result) }
{
    if !is_filled(h) {
        return Err(Refusal::Malformed);
    }
    Ok(())
}

// What refuses a record where it stands, or nothing.
pub(crate) fn fault(r: Found, h: Head, rows: &[u32], columns: &[u32]) -> Result<(), Refusal>
    requires { (h.entries ≤ length rows.now) × (h.entries ≤ length columns.now) }
    ensures { numbered result ≡ faultOf (held_by h (arrays rows.now columns.now [] [])) (told r) }
{
    match r {
        Found::Size { n, count } => size_fault(h, n, count),
        Found::Entry { row, column, .. } => entry_fault(h, row, column, rows, columns),
        Found::Right { row, .. } => right_fault(h, row),
        Found::Go { engine } => go_fault(h, engine),
    }
}
