//! Drawings and numbers of a table.

ghost use Rattle.std.specs.Prelude.{◌≡◌, ◌<◌, ◌≤◌, IfOk, false, true};
ghost use Rattle.bw_scripts.specs.Played.{IsPlayed};

use crate::program::fault::Fault;
use crate::program::film_options::{FilmOptions, check_from};
use crate::program::setting::Setting;
use crate::program::show_options::{DrawOptions, ShowOptions};
use crate::program::steps::played_table;
use bw_delta::NoMemory;
use bw_draw::{Drawing, Picture, Stats};
use bw_film::{Choice, Film, film_rows, film_script, page_of};
use bw_keys::Key;
use bw_run::run;
use bw_table::Table;
use bw_texts::read_trace;
use bw_work::Open;
use std::alloc::Global;
use std::io;
use std::io::{Read, Write};
use std::sync::Wait;
use std::thread::Threads;

/// Returns the table that the trace or the script leaves, and notes which lines of the script were
/// refused.
fn table_of<T: Threads + Wait + Sync + Send + Copy, R: Read + Drop, N: Write>(
    rt: T,
    alloc: Global,
    options: ShowOptions,
    input: R,
    notes: &mut N,
) -> Result<Table<Global>, Fault>
    ensures played { options.steps ≡ true → IfOk result IsPlayed }
    ensures done { options.steps ≡ false →
        IfOk result (λ table. table.config ≡ options.setting.config) }
{
    let after = usize::try_from(options.after.unwrap_or(u64::MAX)).unwrap_or(usize::MAX);
    if options.steps {
        return played_table(alloc, input, after, notes);
    }
    let Setting {
        config,
        workers,
        readers,
    } = options.setting;
    let rows = read_trace(alloc, input, workers)?;
    let rows = &rows[..after.min(rows.len())];
    Ok(run(rt, alloc, config, workers, readers, rows, &Open)?.table)
}

/// Writes the drawing of the table that the trace or the script leaves, or of the path to the key
/// in it.
pub(crate) fn draw<T: Threads + Wait + Sync + Send + Copy, R: Read + Drop, W: Write, N: Write>(
    rt: T,
    alloc: Global,
    options: DrawOptions,
    input: R,
    output: &mut W,
    notes: &mut N,
) -> Result<(), Fault> {
    let table = table_of(rt, alloc, options.shown, input, notes)?;
    let drawing = drawing_of(alloc, &table, options.key)?;
    write_shown(output, &drawing.text)
}

fn drawing_of(alloc: Global, table: &Table<Global>, key: Option<Key>) -> Result<Drawing, NoMemory> {
    let picture = Picture::of(alloc, table)?;
    match key {
        None => Drawing::of(alloc, &picture),
        Some(key) => Drawing::near(alloc, &picture, key),
    }
}

/// Writes the page that shows the film of the trace or of the script, unless that ends before the
/// first moment asked for, and notes if it goes on past the last moment that a page shows.
pub(crate) fn write_film<R: Read + Drop, W: Write, N: Write>(
    alloc: Global,
    options: FilmOptions,
    input: R,
    output: &mut W,
    notes: &mut N,
) -> Result<(), Fault> {
    let choice = Choice {
        from: options.from.unwrap_or(0),
        to: options.to.unwrap_or(u64::MAX),
        key: options.key,
    };
    let film = if options.steps {
        film_script(alloc, choice, input)
    } else {
        let Setting {
            config,
            workers,
            ..
        } = options.setting;
        let rows = read_trace(alloc, input, workers)?;
        film_rows(alloc, config, choice, shown_workers(workers), &rows)
    }?;
    check_from(choice.from, film.moments)?;
    write_page(output, &page_of(alloc, &film)?)?;
    note_cut(notes, &film);
    Ok(())
}

/// Notes which moments of how many are shown, if there are more of those asked for.
fn note_cut<N: Write>(notes: &mut N, film: &Film) {
    let (Some(first), Some(last)) = (film.frames.first(), film.frames.last()) else {
        return;
    };
    let (first, last, moments) = (first.moment, last.moment, film.moments);
    let next = last.saturating_add(1);
    if next < moments && last < film.choice.to {
        let _ = writeln!(
            notes,
            "the page shows moments {first} to {last} of {moments}: --from {next} goes on"
        );
    }
}

fn write_page<W: Write>(output: &mut W, page: &[u8]) -> io::Result<()> {
    output.write_all(page)?;
    output.flush()
}

/// Returns how many workers a film shows at work. One alone isn't shown, as each row tells what it
/// does.
fn shown_workers(workers: u32) -> u32
    ensures several { 1 < workers → result ≡ workers }
    ensures alone { workers ≤ 1 → result ≡ 0 }
{
    if workers > 1 { workers } else { 0 }
}

/// Writes the numbers of the table that the trace or the script leaves.
pub(crate) fn tell_stats<
    T: Threads + Wait + Sync + Send + Copy,
    R: Read + Drop,
    W: Write,
    N: Write,
>(
    rt: T,
    alloc: Global,
    options: ShowOptions,
    input: R,
    output: &mut W,
    notes: &mut N,
) -> Result<(), Fault> {
    let stats = Stats::of(alloc, &table_of(rt, alloc, options, input, notes)?)?;
    write_shown(output, &stats.text(alloc)?)
}

/// Writes the text and a line feed.
fn write_shown<W: Write>(output: &mut W, text: &str) -> Result<(), Fault> {
    writeln!(output, "{text}")?;
    output.flush()?;
    Ok(())
}
