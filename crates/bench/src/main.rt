// The bench: a script of commands goes in on standard input, a transcript of what took place comes out on standard output.
#![tactic(auto)]

use session::session::Session;
use std::alloc::Global;
use std::io;
use std::io::{BufRead, BufReader, Read, Write};

// A line without the newline that ends it.
fn without_newline(line: &[u8]) -> &[u8] {
    match line {
        [front @ .., b'\n'] => front,
        whole => whole,
    }
}

fn run(
    heap: Global,
    mut input: impl BufRead + Drop,
    mut output: impl Write + Drop,
) -> io::Result<()> {
    let mut session = Session::new();
    let mut line = Vec::new(heap);
    let mut answers = Vec::new(heap);
    // Input may go on for ever, and a loop is proved to end: so it has a count.
    for _ in 0..u64::MAX {
        line.clear();
        if input.read_until(b'\n', &mut line)? == 0 {
            break;
        }
        answers.clear();
        session.respond(heap, without_newline(line.as_slice()), &mut answers)?;
        output.write_all(answers.as_slice())?;
    }
    Ok(())
}

fn main(rt: HostRuntime) -> io::Result<()> {
    run(
        rt.alloc(),
        BufReader::new(rt.alloc(), rt.stdin())?,
        rt.stdout(),
    )
}
