//! What the program does, over a reader and two writers.

ghost use Rattle.std.specs.Prelude.{◌≡◌, ◌<◌, ◌≤◌, IfOk, OnOk};
ghost use Rattle.std.specs.List.{AllByRecursion};
ghost use Rattle.std.specs.Option.{ForSome};
ghost use Rattle.std.specs.Io.KnownBytes.{Appends};
ghost use Rattle.bw_trace.specs.Statuses.{run_status, status_of, verdict_status};
ghost use Rattle.bw_trace.specs.Verdicts.{IsVerdictOn, tree_verdict_line, verdict_line};

mod asked;
mod fault;
mod film_options;
mod help;
mod kept;
mod notes;
mod options;
mod parts;
mod report;
mod room;
mod row_sentence;
mod run_options;
mod run_sentence;
mod sentence;
mod setting;
mod show;
mod show_options;
mod steps;

use crate::program::asked::{Asked, file_of};
use crate::program::fault::{AUDIT_NO, BAD_USAGE, DONE, Fault};
use crate::program::film_options::FilmOptions;
use crate::program::kept::{Keeping, Kept, reason_of};
use crate::program::notes::write_notes;
use crate::program::options::{Field, commands, ranged, span_of};
use crate::program::report::write_report;
use crate::program::run_options::RunOptions;
use crate::program::sentence::sentence_of;
use crate::program::setting::Setting;
use crate::program::show::{draw, tell_stats, write_film};
use crate::program::show_options::{DrawOptions, ShowOptions};
use crate::program::steps::write_answers;
use bw_audit::{Verdict, audit};
use bw_keys::MAX_WORKERS;
use bw_run::{Finished, Progress, Reply, Row, RunFault, run_counted, run_forest};
use bw_step::Survey;
use bw_texts::{
    MOST_TRACE_ROWS, Variation, make, make_varied, read_history, read_trace, write_history,
    write_trace,
};
use bw_work::Open;
use clap::ArgMatches;
use std::alloc::Global;
use std::fs::File;
use std::io;
use std::io::{Read, Write};
use std::rt::Files;
use std::sync::Wait;
use std::thread::Threads;

/// The words in place of none.
static USUAL: [&str; 1] = ["run"];

/// Carries out the words, which leave out the program's own name, and returns the exit status. No
/// words stand for `run` alone. Writes results and help to `output`, and fault lines and the usage
/// text to `faults`, where nothing is written if the status is 0. If the words name a file, it is
/// read in place of `input`.
///
/// | Status | Case |
/// |---|---|
/// | 0 | it is done, or help was asked for |
/// | 1 | the input can't be read, or the output written |
/// | 2 | the words are none of the program's, or a value is out of its range |
/// | 3 | a limit was met, memory was refused, or a worker gave up |
/// | 4 | the history, or that of the run, isn't legal |
pub fn command<T: Threads + Wait + Files + Sync + Send + Copy, R: Read + Drop, W: Write, E: Write>(
    rt: T,
    alloc: Global,
    words: &[&str],
    input: R,
    output: &mut W,
    faults: &mut E,
) -> u8
    ensures few { result ≤ 4 }
    ensures silent { result ≡ 0 → faults.new ≡ faults.old }
{
    let progress = Progress::new();
    let mut notes = io::sink();
    let obeyed = obey(rt, alloc, words, input, output, &mut notes, &progress);
    end(output, faults, obeyed)
}

/// Carries out the words as [`command`] does, for somebody who watches the faults, as on a
/// terminal. It counts the rows of a run meanwhile. If all ends well, it notes how many rows have a
/// fault beside their reply, and which lines of a script were refused. After a fault, a sentence
/// says what was found and where, and what may be there.
pub fn command_watched<
    T: Threads + Wait + Files + Sync + Send + Copy,
    R: Read + Drop,
    W: Write,
    E: Write,
>(
    rt: T,
    alloc: Global,
    words: &[&str],
    input: R,
    output: &mut W,
    faults: &mut E,
    progress: &Progress,
) -> u8
    ensures { result ≤ 4 }
{
    let (obeyed, sentence) = obey_watched(rt, alloc, words, input, output, faults, progress);
    let status = end(output, faults, obeyed);
    if let Some(sentence) = sentence {
        let _ = writeln!(faults, "{sentence}");
    }
    status
}

/// Carries out the words. Writes results to `output`, and to `notes` what is noted of them. Also
/// returns the sentence that is said of a fault.
fn obey_watched<T: Threads + Wait + Files + Sync + Send + Copy, R: Read + Drop, W: Write, N: Write>(
    rt: T,
    alloc: Global,
    words: &[&str],
    input: R,
    output: &mut W,
    notes: &mut N,
    progress: &Progress,
) -> (Result<u8, Fault>, Option<String>)
    ensures { IfOk result.0 (λ status. status ≤ 4) }
{
    let matches = match parse(alloc, words) {
        Ok(matches) => matches,
        Err(error) => return (Err(Fault::from(error)), None),
    };
    let mut kept = Kept::new(alloc, true);
    let obeyed = follow(
        rt, alloc, &matches, input, output, notes, progress, &mut kept,
    );
    let sentence = sentence_after(alloc, &matches, &kept, &obeyed);
    (obeyed, sentence)
}

/// Returns the sentence that is said of the fault, if there is one.
fn sentence_after(
    alloc: Global,
    matches: &ArgMatches,
    kept: &Kept,
    obeyed: &Result<u8, Fault>,
) -> Option<String> {
    let (command, options) = matches.subcommand()?;
    let asked = Asked {
        command,
        options,
        kept,
    };
    match obeyed {
        Ok(_) => None,
        Err(fault) => sentence_of(alloc, &asked, fault),
    }
}

/// Prints the fault, or the help. Returns the exit status.
fn end<W: Write, E: Write>(output: &mut W, faults: &mut E, obeyed: Result<u8, Fault>) -> u8
    requires { IfOk obeyed (λ status. status ≤ 4) }
    ensures few { result ≤ 4 }
    ensures silent { result ≡ 0 → faults.new ≡ faults.old }
{
    match obeyed {
        Ok(status) => status,
        Err(Fault::Usage(error)) => tell_usage(output, faults, &error),
        Err(fault) => tell(faults, &fault),
    }
}

/// Carries out the words. Writes results to `output`, and to `notes` what is noted of them.
fn obey<T: Threads + Wait + Files + Sync + Send + Copy, R: Read + Drop, W: Write, N: Write>(
    rt: T,
    alloc: Global,
    words: &[&str],
    input: R,
    output: &mut W,
    notes: &mut N,
    progress: &Progress,
) -> Result<u8, Fault>
    ensures { IfOk result (λ status. status ≤ 4) }
{
    let matches = parse(alloc, words)?;
    let mut kept = Kept::new(alloc, false);
    follow(
        rt, alloc, &matches, input, output, notes, progress, &mut kept,
    )
}

/// Carries out the parsed words, and keeps what is read if that is wanted.
fn follow<T: Threads + Wait + Files + Sync + Send + Copy, R: Read + Drop, W: Write, N: Write>(
    rt: T,
    alloc: Global,
    matches: &ArgMatches,
    input: R,
    output: &mut W,
    notes: &mut N,
    progress: &Progress,
    kept: &mut Kept,
) -> Result<u8, Fault>
    ensures { IfOk result (λ status. status ≤ 4) }
{
    let Some((name, options)) = matches.subcommand() else {
        return do_check(alloc, input, output);
    };
    let Some(path) = file_of(options) else {
        let input = Keeping {
            input,
            kept: &mut *kept,
        };
        return carry_out(rt, alloc, name, options, input, output, notes, progress);
    };
    match File::open(&rt, path) {
        Ok(input) => {
            let input = Keeping {
                input,
                kept: &mut *kept,
            };
            carry_out(rt, alloc, name, options, input, output, notes, progress)
        }
        Err(error) => Err(Fault::Open(path.to_string(alloc)?, reason_of(alloc, &error))),
    }
}

/// Carries out a command that reads this input.
fn carry_out<T: Threads + Wait + Sync + Send + Copy, R: Read + Drop, W: Write, N: Write>(
    rt: T,
    alloc: Global,
    name: &str,
    options: &ArgMatches,
    input: R,
    output: &mut W,
    notes: &mut N,
    progress: &Progress,
) -> Result<u8, Fault>
    ensures { IfOk result (λ status. status ≤ 4) }
{
    match name {
        "run" => {
            let options = RunOptions::of(options)?;
            do_run(rt, alloc, options, input, output, notes, progress)
        }
        "draw" => done(draw(rt, alloc, DrawOptions::of(options)?, input, output, notes)),
        "film" => done(write_film(alloc, FilmOptions::of(options)?, input, output, notes)),
        "stats" => done(tell_stats(rt, alloc, ShowOptions::of(options)?, input, output, notes)),
        "steps" => done(write_answers(alloc, input, output)),
        "make" => done(do_make(alloc, options, output)),
        _ => do_check(alloc, input, output),
    }
}

/// Returns the status of what was done, unless it has a fault.
fn done(was: Result<(), Fault>) -> Result<u8, Fault>
    ensures { IfOk result (λ status. status ≤ 4) }
{
    match was {
        Ok(()) => Ok(DONE),
        Err(fault) => Err(fault),
    }
}

fn parse<'a>(alloc: Global, words: &'a [&'a str]) -> Result<ArgMatches<'a>, clap::Error> {
    let commands = commands(alloc)?;
    if words.is_empty() {
        commands.try_get_matches_from(USUAL.as_slice())
    } else {
        commands.try_get_matches_from(without_second_help(words))
    }
}

/// Returns the words without `--help` at their end, if they begin with `help`.
fn without_second_help<'a>(words: &'a [&'a str]) -> &'a [&'a str] {
    let count = words.len();
    let left = if asks_twice(words) {
        count.saturating_sub(1)
    } else {
        count
    };
    &words[..left]
}

/// Whether the words begin with `help` and end with `--help`.
fn asks_twice(words: &[&str]) -> bool {
    let count = words.len();
    if count < 2 {
        return false;
    }
    words[0] == "help" && (words[count - 1] == "--help" || words[count - 1] == "-h")
}

/// Runs the trace, and prints nothing before the run has ended.
fn do_run<T: Threads + Wait + Sync + Send + Copy, R: Read + Drop, W: Write, N: Write>(
    rt: T,
    alloc: Global,
    options: RunOptions,
    input: R,
    output: &mut W,
    notes: &mut N,
    progress: &Progress,
) -> Result<u8, Fault>
    ensures { IfOk result (λ status. status ≤ 4) }
{
    let rows = read_trace(alloc, input, options.setting.workers)?;
    let done = match options.trees {
        None => on_tree(rt, alloc, options, &rows, output, notes, progress),
        Some(trees) => on_forest(rt, alloc, options, trees, &rows, output, notes, progress),
    };
    match done {
        Err(Fault::Run(RunFault::Audit(worker, receipt))) => {
            print_verdict(output, Verdict::No(worker, receipt))
        }
        Err(Fault::Run(RunFault::TreeAudit(tree, worker, receipt))) => {
            print_bad_tree(output, tree, Verdict::No(worker, receipt))
        }
        done => done,
    }
}

/// Runs the rows on one tree, and prints what is asked for.
fn on_tree<T: Threads + Wait + Sync + Send + Copy, W: Write, N: Write>(
    rt: T,
    alloc: Global,
    options: RunOptions,
    rows: &[Row],
    output: &mut W,
    notes: &mut N,
    progress: &Progress,
) -> Result<u8, Fault>
    requires { AllByRecursion (λ row. row.worker < options.setting.workers) rows.now }
    ensures { IfOk result (λ status. status ≤ 4) }
{
    let Setting {
        config,
        workers,
        readers,
    } = options.setting;
    let finished = run_counted(rt, alloc, config, workers, readers, rows, &Open, progress)?;
    let status = print_run(alloc, options, output, &finished)?;
    note(options, notes, &finished.replies);
    Ok(status)
}

/// Runs the rows on a forest of this many trees, and prints its report.
fn on_forest<T: Threads + Wait + Sync + Send + Copy, W: Write, N: Write>(
    rt: T,
    alloc: Global,
    options: RunOptions,
    trees: u32,
    rows: &[Row],
    output: &mut W,
    notes: &mut N,
    progress: &Progress,
) -> Result<u8, Fault>
    requires { AllByRecursion (λ row. row.worker < options.setting.workers) rows.now }
    ensures { IfOk result (λ status. status ≤ 4) }
{
    let Setting {
        config,
        workers,
        ..
    } = options.setting;
    let finished = run_forest(rt, alloc, config, workers, trees, rows, progress)?;
    let survey = finished.survey(alloc)?;
    let status = print_report(alloc, options, output, &survey, &finished.replies)?;
    note(options, notes, &finished.replies);
    Ok(status)
}

/// Notes the faults beside the replies, if the options ask for that.
fn note<N: Write>(options: RunOptions, notes: &mut N, replies: &[Reply]) {
    if !options.quiet {
        let _ = write_notes(notes, options.setting, replies);
    }
}

/// Prints the history of a run if the options ask for it, and otherwise its report.
fn print_run<W: Write>(
    alloc: Global,
    options: RunOptions,
    output: &mut W,
    finished: &Finished,
) -> Result<u8, Fault>
    ensures { IfOk result (λ status. status ≤ 4) }
{
    if options.history {
        let pairs = finished.table.pairs(alloc)?;
        write_history(output, &finished.trails, &pairs)?;
        return Ok(DONE);
    }
    let survey = finished.table.survey(alloc)?;
    print_report(alloc, options, output, &survey, &finished.replies)
}

/// Prints the report of a run whose history is legal.
fn print_report<W: Write>(
    alloc: Global,
    options: RunOptions,
    output: &mut W,
    survey: &Survey,
    replies: &[Reply],
) -> Result<u8, Fault>
    ensures { IfOk result (λ status. status ≤ 4) }
{
    write_report(alloc, output, survey, options.replies.then_some(replies))?;
    print_verdict(output, Verdict::Yes)
}

fn do_make<W: Write>(alloc: Global, options: &ArgMatches, output: &mut W) -> Result<(), Fault> {
    let seed = options.get_one::<u64>("seed").unwrap_or(0);
    let most = u64::from(MAX_WORKERS);
    let workers = ranged(options, "workers", 1, most, Field::Workers)?;
    let rows = ranged(options, "rows", 0, MOST_TRACE_ROWS, Field::Rows)?;
    let (mix, skew) = (options.get_flag("mix"), options.get_flag("skew"));
    let span = span_of(options, skew)?;
    let made = if mix || skew {
        let variation = Variation { mix, skew };
        make_varied(alloc, seed, rows, workers as u32, span as u32, variation)?
    } else {
        make(alloc, seed, rows, workers as u32, span)?
    };
    write_trace(output, &made)?;
    Ok(())
}

fn do_check<R: Read + Drop, W: Write>(alloc: Global, input: R, output: &mut W) -> Result<u8, Fault>
    ensures { IfOk result (λ status. status ≤ 4) }
{
    let verdict = check(alloc, input)?;
    print_verdict(output, verdict)
}

fn print_verdict<W: Write>(output: &mut W, verdict: Verdict) -> Result<u8, Fault>
    ensures { IfOk result (λ status. status ≡ verdict_status verdict) }
{
    write_verdict(output, verdict)?;
    output.flush()?;
    match verdict {
        Verdict::Yes => Ok(DONE),
        Verdict::No(_, _) => Ok(AUDIT_NO),
    }
}

fn check<R: Read + Drop>(alloc: Global, input: R) -> Result<Verdict, Fault>
    ensures { IfOk result (λ verdict.
        ForSome (R.remaining input) (λ bytes. IsVerdictOn bytes verdict)) }
{
    let history = read_history(alloc, input)?;
    Ok(audit(alloc, &history.trails, &history.pairs)?)
}

fn write_verdict<W: Write>(output: &mut W, verdict: Verdict) -> io::Result<()>
    ensures { OnOk result
        (Appends (W.contents output.old) (W.contents output.new) (verdict_line verdict)) }
{
    writeln!(output, "audit {verdict}")
}

/// Prints the verdict on the first tree of a forest whose history isn't legal.
fn print_bad_tree<W: Write>(output: &mut W, tree: usize, verdict: Verdict) -> Result<u8, Fault>
    ensures { IfOk result (λ status. status ≤ 4) }
{
    write_tree_verdict(output, tree, verdict)?;
    output.flush()?;
    Ok(AUDIT_NO)
}

fn write_tree_verdict<W: Write>(output: &mut W, tree: usize, verdict: Verdict) -> io::Result<()>
    ensures { OnOk result (Appends (W.contents output.old) (W.contents output.new)
        (tree_verdict_line tree verdict)) }
{
    writeln!(output, "audit {verdict} tree {tree}")
}

/// Prints the help if the words ask for it, and otherwise the usage as a fault.
fn tell_usage<W: Write, E: Write>(output: &mut W, faults: &mut E, error: &clap::Error) -> u8
    ensures few { result ≤ 4 }
    ensures silent { result ≡ 0 → faults.new ≡ faults.old }
{
    if error.use_stderr() {
        let _ = write!(faults, "{error}");
        return BAD_USAGE;
    }
    match write_help(output, error) {
        Ok(()) => DONE,
        Err(_) => tell(faults, &Fault::Write),
    }
}

fn write_help<W: Write>(output: &mut W, help: &clap::Error) -> io::Result<()> {
    write!(output, "{help}")?;
    output.flush()
}

/// Reports the fault of a run as the program does, and returns its exit status.
pub fn tell_run_fault<E: Write>(faults: &mut E, fault: RunFault) -> u8
    ensures { result ≡ run_status fault }
{
    tell(faults, &Fault::Run(fault))
}

fn tell<E: Write>(faults: &mut E, fault: &Fault) -> u8
    ensures status { result ≡ status_of fault.now }
    ensures failed { 0 < result }
{
    let _ = writeln!(faults, "bwtree: {fault}");
    fault.status()
}
