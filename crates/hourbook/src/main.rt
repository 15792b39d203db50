// Works a script of calls on an hour book from standard input, a line at a time, and prints what each line gets.
#![tactic(auto)]

use desk::console::work_input;
use std::io;

fn main(rt: HostRuntime) -> io::Result<()> {
    work_input(&rt)
}
