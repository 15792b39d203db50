// The program `hourbook` on a script of bad input: every limit from both sides, every refusal, and lines that are no call.
// A crate of its own, since a program has one stored input and one stored output.
#![tactic(auto)]

use desk::console::work_input;
use std::io;

fn main(rt: HostRuntime) -> io::Result<()> {
    work_input(&rt)
}
