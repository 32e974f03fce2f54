// The program: a job file on standard input, its answer on standard output. A read that fails ends the input.
#![tactic(auto)]

use reading::fill;
use std::io;

fn main(rt: HostRuntime) -> io::Result<()> {
    // The longest sound file has 40,461 bytes, a record at most 18: no byte behind these has a say (`job`'s contract).
    let mut input: [u8; 40479] = [0; 40479];
    // An XV for each of 256 rows: room for any answer.
    let mut out: [u8; 3584] = [0; 3584];
    let (n, _) = fill(&mut rt.stdin(), &mut input);
    let written = job::job::job(&input[..n], &mut out).unwrap();
    rt.write_all(&out[..written])
}
