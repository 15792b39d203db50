// A session between standard input and standard output.
use crate::replies::Reply;
use crate::sessions::work;
use crate::summaries::Summary;
use crate::weights::Weighing;
use hour::book::Book;
use script::verbs::Verb;
use std::io;
use std::io::{BufRead, BufReader, IsTerminal};

// Works standard input to its end, a line at a time, and prints what each line gets.
pub fn work_input(rt: &HostRuntime) -> io::Result<()> {
    // Someone at a terminal is told what to write.
    if rt.stdin().is_terminal() {
        print_help(rt)?;
    }
    let heap = rt.alloc();
    let mut book = Book::fresh();
    let lines = BufReader::new(heap, rt.stdin())?.split(heap, b'\n');
    for (number, line) in (1u64..).zip(lines) {
        let bytes = line?;
        let text = String::from_utf8_lossy(heap, bytes.as_slice())?;
        print_reply(rt, &mut book, number, text.as_str())?;
    }
    Ok(())
}

fn print_reply(rt: &HostRuntime, book: &mut Book, number: u64, line: &str) -> io::Result<()> {
    let reply = work(book, line);
    match reply {
        Reply::Passed => Ok(()),
        Reply::Weighed(point, constraint) => print!(rt;
            "{}",
            Weighing {
                book,
                point,
                constraint,
            }
        ),
        Reply::Shown => print!(rt; "{}", Summary { book }),
        Reply::Helped => print_help(rt),
        Reply::Answered(_, _) => println!(rt; "{reply}"),
        Reply::Misread(fault) => println!(rt; "line {number}: {fault}"),
    }
}

fn print_help(rt: &HostRuntime) -> io::Result<()> {
    println!(rt; "One call a line, on the book of one operating hour:")?;
    for verb in Verb::all() {
        println!(rt; "  {}", verb.usage())?;
    }
    println!(rt; "Empty lines and lines that begin with # are passed over.")
}
