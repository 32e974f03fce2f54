// Bytes put into a slice, line by line.
ghost use Rattle.std.specs.Prelude.{◌≡◌, ◌+◌, ◌*◌, ◌≤◌, length};
ghost use Rattle.job_answer.specs.Lines.{bytes_of, XV, NO, text, rows};
ghost use Rattle.job_answer.specs.Answer.{Put};

use float_bits::bits_of;
use little::put;

// XV row, value.
fn put_row(out: &mut [u8], at: usize, row: u64, x: f64) -> usize
    requires { at + 14 ≤ length out.old }
    ensures { (result ≡ at + 14) × Put out.old at (bytes_of (XV row x)) result out.new }
{
    put(0x5658, 2, at, out);
    put(row, 4, at + 2, out);
    put(bits_of(x), 8, at + 6, out);
    at + 14
}

// NO number, column.
pub fn put_refusal(out: &mut [u8], number: u64, column: u64) -> usize
    requires { 7 ≤ length out.old }
    ensures { (result ≡ 7) × Put out.old 0 (bytes_of (NO number column)) result out.new }
{
    put(0x4F4E, 2, 0, out);
    put(number, 1, 2, out);
    put(column, 4, 3, out);
    7
}

// An XV for each of x.
pub fn put_rows(out: &mut [u8], x: &[f64]) -> usize
    requires { 14 * length x.now ≤ length out.old }
    ensures { (result ≡ 14 * length x.now) × Put out.old 0 (text (rows 0 x.now)) result out.new }
{
    let mut at = 0;
    for (row, &value) in x.iter().enumerate() {
        at = put_row(out, at, row as u64, value);
    }
    at
}
