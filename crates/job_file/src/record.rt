// One record of a job file, told by its two-byte mark.
ghost use Rattle.std.specs.Prelude.{◌≡◌, ◌≤◌, true, length, drop, MatchOption};
ghost use Rattle.job_file.specs.Records.{GO as go, first, size};
ghost use Rattle.job_file.specs.Faults.{malformed};
ghost use Rattle.job_file.specs.Told.{byte as byteOf, told};

use crate::read::Engine;
use little::{u8_at, u16_at, u32_at, u64_at};

// The two letters of each mark, the first one low.
const SZ: u32 = 0x5A53;

const EN: u32 = 0x4E45;

const RH: u32 = 0x4852;

const GO: u32 = 0x4F47;

#[derive(Clone, Copy)]
pub enum Found {
    Size { n: u32, count: u32 },
    Entry { row: u32, column: u32, bits: u64 },
    Right { row: u32, bits: u64 },
    Go { engine: Engine },
}

fn engine_of(byte: u32) -> Option<Engine>
    ensures { MatchOption result (malformed (go byte) ≡ true) (λ e. byteOf e ≡ byte) }
{
    match byte {
        1 => Some(Engine::Left),
        2 => Some(Engine::Up),
        _ => None,
    }
}

// The record at a place. There is none where no mark is known, where it is cut short, and where GO names no engine: refused with 12.
pub(crate) fn record_at(s: &[u8], at: usize) -> Option<Found>
    requires { at ≤ length s.now }
    ensures { let r = first (drop at s.now) in MatchOption result (malformed r ≡ true) (λ x. told x ≡ r) }
{
    match (u16_at(s, at), s.len() - at) {
        (SZ, 10..) => Some(Found::Size {
            n: u32_at(s, at + 2),
            count: u32_at(s, at + 6),
        }),
        (EN, 18..) => Some(Found::Entry {
            row: u32_at(s, at + 2),
            column: u32_at(s, at + 6),
            bits: u64_at(s, at + 10),
        }),
        (RH, 14..) => Some(Found::Right {
            row: u32_at(s, at + 2),
            bits: u64_at(s, at + 6),
        }),
        (GO, 3..) => Some(Found::Go {
            engine: engine_of(u8_at(s, at + 2))?,
        }),
        _ => None,
    }
}

// How many bytes a record takes.
pub(crate) fn size_of(r: Found) -> usize
    ensures { result ≡ size (told r) }
{
    match r {
        Found::Size { .. } => 10,
        Found::Entry { .. } => 18,
        Found::Right { .. } => 14,
        Found::Go { .. } => 3,
    }
}
