// Makes the public calls of the library on recorded cases: reads them from standard input, writes each answer and every lent
// slice as the call left it. oracle/FORM.md has the form of a case.
#![tactic(auto)]

mod calls;
mod case;

use std::io;

fn main(rt: HostRuntime) -> io::Result<()> {
    calls::replay(&rt, &mut rt.stdin())
}
