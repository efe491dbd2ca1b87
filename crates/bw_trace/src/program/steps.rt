//! Scripts of steps, and what is said of their lines.

ghost use Rattle.std.specs.Prelude.{IfOk};
ghost use Rattle.bw_scripts.specs.Played.{IsPlayed};

use crate::program::fault::Fault;
use bw_scripts::{Answer, Player, ScriptFault};
use bw_table::Table;
use std::alloc::Global;
use std::io::{BufRead, BufReader, Read, Write};

/// Plays the script, and writes each answer as soon as it is there.
pub(crate) fn write_answers<R: Read + Drop, W: Write>(
    alloc: Global,
    input: R,
    output: &mut W,
) -> Result<(), Fault> {
    let Ok(reader) = BufReader::new(alloc, input) else {
        return Err(Fault::Memory);
    };
    let mut player = Player::new(alloc);
    for line in reader.lines(alloc) {
        let line = player.next_line(line)?;
        if let Some(answer) = player.play(&line)? {
            write_answer(alloc, output, &answer)?;
        }
    }
    Ok(output.flush()?)
}

/// Writes the answer and a line feed at once.
fn write_answer<W: Write>(alloc: Global, output: &mut W, answer: &Answer) -> Result<(), Fault> {
    let line = format!(in alloc; "{answer}\n")?;
    Ok(output.write_all(line.as_bytes())?)
}

/// Plays the first lines of the script, this many of them, notes which of them were refused, and
/// returns the table that they leave.
#[tactic(auto, using(bw_scripts::proofs::Playing::stays_played))]
pub(crate) fn played_table<R: Read + Drop, N: Write>(
    alloc: Global,
    input: R,
    lines: usize,
    notes: &mut N,
) -> Result<Table<Global>, Fault>
    ensures { IfOk result IsPlayed }
{
    let Ok(reader) = BufReader::new(alloc, input) else {
        return Err(Fault::Memory);
    };
    let mut player = Player::new(alloc);
    for line in reader.lines(alloc).take(lines) {
        let line = player.next_line(line)?;
        if let Some(answer) = player.play(&line)? {
            note_refusal(notes, player.lines(), &answer);
        }
    }
    Ok(player.into_table().ok_or(ScriptFault::NoTable)?)
}

/// Notes the answer to the line with this number, if it says that the line changed nothing.
fn note_refusal<N: Write>(notes: &mut N, line: u64, answer: &Answer) {
    match answer {
        Answer::BadConfig(_)
        | Answer::BadEntries
        | Answer::Refused(_)
        | Answer::RefusalForetold(_, _)
        | Answer::OtherForetold(_)
        | Answer::Changed(_) => {
            let _ = writeln!(notes, "line {line}: {answer}");
        }
        _ => {}
    }
}
