//! The program `bwtree`: `bw_trace::command` over the standard streams. Where standard error is a
//! terminal, it says there how far a run is, what it notes, and that it reads what is typed.
#![tactic(auto)]

mod streams;
mod ticker;

use bw_trace::Progress;
use std::io::IsTerminal;
use std::process::ExitCode;
use std::{env, io, thread};
use ticker::Ending;

/// What is said before rows are read from a terminal.
const HINT: &str = "reading standard input, up to Ctrl-D at the start of a line";

fn main(rt: HostRuntime) -> io::Result<ExitCode> {
    let alloc = rt.alloc();
    let words: Vec<String> = match env::args(&rt) {
        Ok(words) => words.collect(alloc)?,
        Err(error) if error.kind() == io::ErrorKind::OutOfMemory => {
            eprintln!(rt; "bwtree: memory")?;
            return Ok(ExitCode::from(3));
        }
        Err(_) => {
            eprintln!(rt; "error: invalid UTF-8 was detected in one or more arguments")?;
            return Ok(ExitCode::from(2));
        }
    };
    let words: Vec<&str> = words
        .iter()
        .skip(1)
        .map(|word| word.as_str())
        .collect(alloc)?;
    let is_quiet = words.iter().any(|word| *word == "--quiet");
    let is_watched = !is_quiet && rt.stderr().is_terminal();
    let hint = (is_watched && rt.stdin().is_terminal()).then_some(HINT);
    let progress = Progress::new();
    let ending = Ending::new();
    let answer = || {
        let status = streams::answer(
            rt,
            alloc,
            &words,
            (rt.stdin(), hint),
            rt.stdout(),
            rt.stderr(),
            is_watched.then_some(&progress),
        );
        ending.announce(&rt);
        status
    };
    if !is_watched {
        return Ok(ExitCode::from(answer()));
    }
    let (_, status) = thread::join(
        &rt,
        || ticker::tell(&rt, alloc, &progress, &ending, &mut rt.stderr()),
        answer,
    );
    Ok(ExitCode::from(status))
}
