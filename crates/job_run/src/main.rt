// The job files that its arguments name, each with its answer in hexadecimal: a file a line.
#![tactic(auto)]

ghost use Rattle.std.specs.Prelude.{◌≤◌, length};

use reading::fill;
use std::env::FillError;
use std::fs::File;
use std::io;
use std::io::Read;
use std::rt::{Env, Files};

// A line is written at once: a write for each byte costs more than the job.
fn show(rt: &impl Print, bytes: &[u8]) -> io::Result<()>
    requires { length bytes.now ≤ 3584 }
{
    let mut text = [0u8; 7168];
    let digits = &mut text[..2 * bytes.len()];
    hex::encode_to_slice(bytes, digits).unwrap();
    rt.write_all(digits)?;
    rt.write_all(b"\n")
}

// Answers what a file holds. A read that fails ends it.
fn answer<R: Read>(rt: &impl Print, file: &mut R) -> io::Result<()> {
    let mut input: [u8; 40479] = [0; 40479];
    // room for any answer
    let mut out: [u8; 3584] = [0; 3584];
    let (n, _) = fill(file, &mut input);
    let written = job::job::job(&input[..n], &mut out).unwrap();
    show(rt, &out[..written])
}

// A path is text: bytes that are not name no file.
fn turn<R: Files + Print>(rt: &R, name: &[u8]) -> io::Result<()> {
    rt.write_all(name)?;
    rt.write_all(b": ")?;
    let Ok(path) = str::from_utf8(name) else {
        return rt.write_all(b"no such file\n");
    };
    match File::open(rt, path) {
        Ok(mut file) => answer(rt, &mut file),
        Err(_) => rt.write_all(b"no such file\n"),
    }
}

fn main(rt: HostRuntime) -> io::Result<()> {
    let mut name = [0u8; 4096];
    for i in 1..usize::MAX {
        let n = match rt.arg(i, &mut name) {
            Ok(n) => n,
            Err(FillError::NotPresent) => break,
            Err(FillError::TooLong) => 0,
        };
        turn(&rt, &name[..n])?;
    }
    Ok(())
}
