// The job file read: each record judged where it stands, and then laid into the arrays.
ghost use Rattle.std.specs.Prelude.{◌≡◌, ◌≤◌, [], drop, length, IfOk};
ghost use Rattle.lists.specs.Refusals.{numbered};
ghost use Rattle.job_file.specs.Records.{first};
ghost use Rattle.job_file.specs.Faults.{fault as faultOf};
ghost use Rattle.job_file.specs.Reading.{read_file};
ghost use Rattle.job_file.specs.Arrays.{arrays, laid, said, answered, Within};
ghost use Rattle.job_file.specs.Keeping.{held_by, Room};
ghost use Rattle.job_file.specs.Told.{told};

use crate::fault::fault;
use crate::keep::keep;
use crate::record::{Found, record_at, size_of};
use lists::refusal::Refusal;

// What GO names.
#[derive(Clone, Copy, PartialEq, Eq)]
pub enum Engine {
    Left,
    Up,
}

// How far a file has come.
#[derive(Clone, Copy, PartialEq, Eq)]
pub enum Stage {
    // before SZ
    Start,
    // behind SZ
    Sized,
    // behind GO
    Ended(Engine),
}

// What has been read so far, beside the arrays.
#[derive(Clone, Copy)]
pub struct Head {
    pub stage: Stage,
    pub n: u32,
    pub count: u32,
    // how many EN there were
    pub entries: u32,
    // one more than the row of the last RH
    pub next: u32,
}

// What a sound file says, beside the arrays.
#[derive(Clone, Copy)]
pub struct Sound {
    pub engine: Engine,
    pub n: u32,
    pub count: u32,
    pub entries: u32,
    pub next: u32,
}

// Why a file is refused, and what was read before the faulty record.
#[derive(Clone, Copy)]
pub struct Fault {
    pub refusal: Refusal,
    pub head: Head,
}

// The record at a place, or what refuses it there.
fn record(s: &[u8], at: usize, h: Head, rows: &[u32], columns: &[u32]) -> Result<Found, Refusal>
    requires { (at ≤ length s.now) × (h.entries ≤ length rows.now) × (h.entries ≤ length columns.now) }
    ensures { let r = first (drop at s.now) in
        (numbered result ≡ faultOf (held_by h (arrays rows.now columns.now [] [])) r) × IfOk result (λ x. told x ≡ r) }
{
    let Some(r) = record_at(s, at) else {
        return Err(Refusal::Malformed);
    };
    fault(r, h, rows, columns)?;
    Ok(r)
}

fn records(
    s: &[u8],
    rows: &mut [u32],
    columns: &mut [u32],
    values: &mut [f64],
    right: &mut [f64],
) -> Result<Sound, Fault>
    requires { Room (arrays rows.old columns.old values.old right.old) }
    ensures { let old = arrays rows.old columns.old values.old right.old in
        let new = arrays rows.new columns.new values.new right.new in
        let o = read_file s.now in
        (said result ≡ answered o) × (new ≡ laid o.job old) × Within o.job }
{
    let mut h = Head {
        stage: Stage::Start,
        n: 0,
        count: 0,
        entries: 0,
        next: 0,
    };
    let mut at = 0;
    // each record moves the place by its own size
    while at < s.len() {
        let r = match record(s, at, h, rows, columns) {
            Ok(r) => r,
            Err(refusal) => return Err(Fault { refusal, head: h }),
        };
        h = keep(r, h, rows, columns, values, right);
        at += size_of(r);
    }
    let Stage::Ended(engine) = h.stage else {
        return Err(Fault {
            refusal: Refusal::Malformed,
            head: h,
        });
    };
    Ok(Sound {
        engine,
        n: h.n,
        count: h.count,
        entries: h.entries,
        next: h.next,
    })
}

// The job file s, laid into the front of the arrays: places of the entries, their values, and the dense right side.
pub fn read_job(
    s: &[u8],
    rows: &mut [u32; 2048],
    columns: &mut [u32; 2048],
    values: &mut [f64; 2048],
    right: &mut [f64; 256],
) -> Result<Sound, Fault>
    ensures { let old = arrays rows.old columns.old values.old right.old in
        let new = arrays rows.new columns.new values.new right.new in
        let o = read_file s.now in
        (said result ≡ answered o) × (new ≡ laid o.job old) × Within o.job }
{
    records(s, rows, columns, values, right)
}
