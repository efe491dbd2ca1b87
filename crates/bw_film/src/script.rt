//! Films of scripts of steps.

ghost use Rattle.std.specs.Prelude.{◌≡◌, ◌≤◌, Some, IfOk, IfErr, OnOk};
ghost use Rattle.bw_law.specs.Tables.{TableValue};
ghost use Rattle.bw_scripts.specs.Played.{one_more};
ghost use Rattle.bw_scripts.specs.declared.player.TheConstants.{MOST_LINES};
ghost use Rattle.bw_film.specs.Faults.{IsLineFault, IsScriptFault};
ghost use Rattle.bw_film.specs.Filming.{moments_with};

use crate::choice::Choice;
use crate::fault::FilmFault;
use crate::film::Film;
use crate::telling::Telling;
use bw_delta::NoMemory;
use bw_scripts::{Answer, Player, ScriptFault};
use std::alloc::Global;
use std::io;
use std::io::{BufRead, BufReader, Read};

/// Plays the script of a reader, and films each step. A comment is a note on the moment before it.
///
/// # Errors
///
/// Fails with the first line that can't be read, with more than [`MOST_LINES`] lines, if no line
/// made a table, or if the reader or memory fails.
#[tactic(auto, using(crate::proofs::Faulty::line_gives_up))]
pub fn film_script<R: Read + Drop>(
    alloc: Global,
    choice: Choice,
    input: R,
) -> Result<Film, FilmFault>
    ensures choice { IfOk result (λ film. film.choice ≡ choice) }
    ensures moments { IfOk result (λ film. 1 ≤ film.moments) }
    ensures fault { IfErr result IsScriptFault }
{
    let Ok(lines) = BufReader::new(alloc, input) else {
        return Err(FilmFault::Memory);
    };
    let mut player = Player::new(alloc);
    let mut film = Film::new(alloc, choice, Vec::new(alloc));
    for line in lines.lines(alloc) {
        take(alloc, &mut player, &mut film, line)?;
    }
    if film.moments == 0 {
        return Err(FilmFault::Script(ScriptFault::NoTable));
    }
    Ok(film)
}

/// Plays the line, if it was read and isn't one too many, and films what it did.
fn take(
    alloc: Global,
    player: &mut Player,
    film: &mut Film,
    line: io::Result<String>,
) -> Result<(), FilmFault>
    ensures choice { film.new.choice ≡ film.old.choice }
    ensures counted { OnOk result (player.new.lines ≡ one_more player.old.lines) }
    ensures within { OnOk result (player.new.lines ≤ MOST_LINES) }
    ensures fault { IfErr result (IsLineFault (one_more player.old.lines)) }
{
    let line = player.next_line(line)?;
    let answer = player.play(&line)?;
    film_answer(alloc, player, film, &line, answer)?;
    Ok(())
}

/// Films the moment after the line, if the line made the table anew or took a step.
fn film_answer(
    alloc: Global,
    player: &Player,
    film: &mut Film,
    line: &str,
    answer: Option<Answer>,
) -> Result<(), NoMemory>
    ensures choice { film.new.choice ≡ film.old.choice }
    ensures moments { OnOk result ((table : TableValue) → player.now.table ≡ Some table
        → film.new.moments ≡ moments_with answer film.old.moments) }
{
    let Some(table) = player.table() else {
        return Ok(());
    };
    let telling = match answer {
        None => match line.strip_prefix('#') {
            Some(comment) => return film.note(comment.trim()),
            None => return Ok(()),
        },
        Some(Answer::Made) => Telling::Made(table.config()),
        Some(Answer::Accepted(receipt)) => Telling::Step(receipt),
        Some(_) => return Ok(()),
    };
    film.row = format!(in alloc; "line {}: {line}", player.lines())?;
    film.add(alloc, table, telling)
}
