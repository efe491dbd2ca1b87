//! Films of traces.

ghost use Rattle.std.specs.Prelude.{◌≡◌, ◌<◌, ◌+◌, ◌++◌, IfOk, IfErr, OnOk, codes, decimal, length};
ghost use Rattle.bw_film.specs.Faults.{IsFaultAtRow, IsRowFault, IsRowsFault};
ghost use Rattle.std.specs.String.{string_bytes};
ghost use Rattle.bw_film.specs.Filming.{DoesRow, IsFilmOf, IsFilmedUpTo, IsSameChoice, NamesRow};

use crate::camera::{Filmed, Shows};
use crate::choice::Choice;
use crate::crew::{answer, begin, crew_of};
use crate::fault::FilmFault;
use crate::film::Film;
use crate::telling::Telling;
use bw_alone::Alone;
use bw_delta::NoMemory;
use bw_keys::Config;
use bw_procedures::{Reply, Steps, do_act};
use bw_step::Step;
use bw_table::{NewFault, Table};
use bw_texts::{Row, write_trace};
use std::alloc::{AllocError, Global};

/// Does the rows on a new table, one after the other in the order of the trace, and films each step.
/// One worker does them all, whatever number a row has; but if `workers` isn't 0, each frame shows
/// what the rows' own workers below that number do.
///
/// # Errors
///
/// Fails with a bad configuration, with the first row that is given up, or if memory runs out.
#[tactic(auto, using(crate::proofs::Filming::films_begin, crate::proofs::Faulty::rows_give_up))]
pub fn film_rows(
    alloc: Global,
    config: Config,
    choice: Choice,
    workers: u32,
    rows: &[Row],
) -> Result<Film, FilmFault>
    ensures choice { IfOk result (λ film. film.choice ≡ choice) }
    ensures moments { IfOk result (IsFilmOf rows.now) }
    ensures workers { IfOk result (λ film. length film.crew.items ≡ workers) }
    ensures fault { IfErr result (IsRowsFault config rows.now) }
{
    let mut table = match Table::new(alloc, alloc, config) {
        Ok(table) => table,
        Err(NewFault::BadConfig(bad)) => return Err(FilmFault::Config(bad)),
        Err(NewFault::NoMemory) => return Err(FilmFault::Memory),
    };
    let mut film = Film::new(alloc, choice, crew_of(alloc, rows, workers)?);
    film.add(alloc, &table, Telling::Made(config))?;
    let mut filmed = Filmed {
        steps: Alone::new(alloc, alloc, &mut table),
        film,
        has_failed: false,
    };
    for place in 0..rows.len() {
        film_row(alloc, &mut filmed, rows, place)?;
    }
    let Filmed { film, .. } = filmed;
    Ok(film)
}

/// Does the row at the place, and notes what its worker does meanwhile and then.
#[tactic(auto, using(crate::proofs::Faulty::row_gives_up))]
fn film_row<S: Steps<Global, Step<Global>> + Shows + Drop>(
    alloc: Global,
    filmed: &mut Filmed<S>,
    rows: &[Row],
    place: usize,
) -> Result<(), FilmFault>
    requires inside { place < length rows.now }
    requires before { IsFilmedUpTo rows.now place
        filmed.old.film (S.seen filmed.old.steps).trail }
    ensures choice { IsSameChoice filmed.old.film filmed.new.film }
    ensures workers { OnOk result
        (length filmed.new.film.crew.items ≡ length filmed.old.film.crew.items) }
    ensures done { OnOk result (IsFilmedUpTo rows.now (place + 1)
        filmed.new.film (S.seen filmed.new.steps).trail) }
    ensures fault { IfErr result (IsFaultAtRow rows.now place) }
{
    let row = rows[place];
    let film = &mut filmed.film;
    begin(&mut film.crew, rows, place);
    let reply = do_row(alloc, filmed, row, place + 1)?;
    let film = &mut filmed.film;
    answer(&mut film.crew, rows, place, reply);
    Ok(())
}

/// Does the row with this number, counted from 1, and returns the reply.
fn do_row<S: Steps<Global, Step<Global>> + Shows + Drop>(
    alloc: Global,
    filmed: &mut Filmed<S>,
    row: Row,
    number: usize,
) -> Result<Reply, FilmFault>
    ensures choice { IsSameChoice filmed.old.film filmed.new.film }
    ensures done { IfOk result (λ reply. DoesRow row number reply
        filmed.old.film (S.seen filmed.old.steps).trail
        filmed.new.film (S.seen filmed.new.steps).trail) }
    ensures fault { IfErr result (IsRowFault row.worker number) }
{
    filmed.film.row = row_text(alloc, row, number)?;
    match do_act(filmed, alloc, row.act) {
        Err(fault) => Err(FilmFault::Stopped(row.worker as usize, number, fault)),
        Ok(_) if filmed.has_failed => Err(FilmFault::Memory),
        Ok(reply) => Ok(reply),
    }
}

/// Returns the row as a trace has it, after its number.
fn row_text(alloc: Global, row: Row, number: usize) -> Result<String, NoMemory>
    ensures { IfOk result (λ text. NamesRow number (string_bytes text)) }
{
    let Ok(written) = write_trace(Vec::new(alloc), &[row]) else {
        return Err(NoMemory);
    };
    let Ok(text) = String::from_utf8(written) else {
        return Err(NoMemory);
    };
    Ok(row_named(alloc, number, text.trim_end())?)
}

fn row_named(alloc: Global, number: usize, row: &str) -> Result<String, AllocError>
    ensures { IfOk result (λ text. string_bytes text
        ≡ codes "row " ++ decimal number ++ codes ": " ++ row.now) }
{
    format!(in alloc; "row {number}: {row}")
}
