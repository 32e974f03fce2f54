// An answer written to a slice, if there is room for all of it.
ghost use Rattle.std.specs.Prelude.{◌≡◌};
ghost use Rattle.job_answer.specs.Lines.{text, lines};
ghost use Rattle.job_answer.specs.Answer.{answer, leaves};

use crate::put::{put_refusal, put_rows};
use lists::refusal::Refusal;

// With number 0 an XV for each of x, else only NO number, column. Any number is taken, also one that no refusal has. Answers how many bytes
// were written.
pub fn write_answer(number: u32, column: u32, x: &[f64], out: &mut [u8]) -> Result<usize, Refusal>
    ensures { let w = text (lines number column x.now) in
        (result ≡ answer w out.old) × (out.new ≡ leaves w out.old) }
{
    if number != 0 {
        if out.len() < 7 {
            return Err(Refusal::NoRoom);
        }
        return Ok(put_refusal(out, u64::from(number), u64::from(column)));
    }
    if out.len() / 14 < x.len() {
        return Err(Refusal::NoRoom);
    }
    Ok(put_rows(out, x))
}
