// A job file to its answer.
ghost use Rattle.std.specs.Prelude.{◌≡◌, ℕ, ◌≤◌, length, take};
ghost use Rattle.job_answer.specs.Answer.{answer, leaves};
ghost use Rattle.job.specs.Output.{output};

use crate::work::work;
use cs_conversion::assembly::Triplets;
use job_answer::write::write_answer;
use job_file::read::read_job;
use lists::numbers::wide;
use lists::refusal::Refusal;

// The answer of the job file s, in the front of out, and how many bytes it has. It has at most 3,584, and no byte of s behind the
// first 40,479, which are the longest sound file and one record more, has a say in it.
pub fn job(s: &[u8], out: &mut [u8]) -> Result<usize, Refusal>
    ensures { let w = output s.now in
        (result ≡ answer w out.old) × (out.new ≡ leaves w out.old)
        × (length w ≤ 3584) × ((m : ℕ) → 40479 ≤ m → output (take m s.now) ≡ w) }
{
    let mut rows: [u32; 2048] = [0; 2048];
    let mut columns: [u32; 2048] = [0; 2048];
    let mut values: [f64; 2048] = [0.0; 2048];
    let mut right: [f64; 256] = [0.0; 256];
    let sound = match read_job(s, &mut rows, &mut columns, &mut values, &mut right) {
        Ok(sound) => sound,
        Err(fault) => return write_answer(fault.refusal.number(), 0, &[], out),
    };
    let n = wide(sound.n);
    let count = wide(sound.entries);
    let t = Triplets {
        nrows: n,
        ncols: n,
        irows: &rows[..count],
        icols: &columns[..count],
        vals: &values[..count],
    };
    let r = work(sound.engine, t, &mut right[..n]);
    write_answer(r.number, r.column, &right[..n], out)
}
