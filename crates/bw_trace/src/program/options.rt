//! The commands of the program.

ghost use Rattle.std.specs.Prelude.{◌≤◌, IfOk};
ghost use Rattle.clap.specs.Words.{found_of};
ghost use Rattle.bw_trace.specs.Options.{IsNumberFor, IsOptionFor};

use crate::program::film_options::film_command;
use crate::program::help::{OF_ALL, OF_CHECK, OF_MAKE, OF_STEPS, VERSION};
use crate::program::parts::{Made, new_command, over, with_file, with_flag, with_number};
use crate::program::run_options::run_command;
use crate::program::show_options::{draw_command, stats_command};
use clap::ArgMatches;
use std::alloc::Global;
use std::fmt;

/// The options that have a range, by their names.
#[derive(Clone, Copy, Drop)]
pub(crate) enum Field {
    Fanout,
    Chain,
    Pages,
    Tries,
    Workers,
    Readers,
    Trees,
    Rows,
    Span,
    /// The span if low keys are drawn more often.
    SkewedSpan,
    /// The number of a first moment, of so many moments in all.
    From(u64),
    To,
}

impl fmt::Debug for Field {
    fn fmt<W: fmt::Write>(&self, f: &mut fmt::Formatter<W>) -> fmt::Result {
        f.write_str(self.name())
    }
}

impl Field {
    pub(crate) fn name(self) -> &'static str {
        match self {
            Field::Fanout => "fanout",
            Field::Chain => "chain",
            Field::Pages => "pages",
            Field::Tries => "tries",
            Field::Workers => "workers",
            Field::Readers => "readers",
            Field::Trees => "trees",
            Field::Rows => "rows",
            Field::Span | Field::SkewedSpan => "span",
            Field::From(_) => "from",
            Field::To => "to",
        }
    }

    /// Returns what the option's number may be.
    pub(crate) fn range(self) -> &'static str {
        match self {
            Field::Fanout => "4 to 64",
            Field::Chain => "1 to 32",
            Field::Pages => "8 to 65536",
            Field::Tries => "1 to 1000",
            Field::Workers => "1 to 64",
            Field::Readers => "0 to 16, and no more than --workers",
            Field::Trees => "1 to 1024",
            Field::Rows => "0 to 1000000",
            Field::Span => "1 to 4294967295",
            Field::SkewedSpan => "1 to 1000000 with --skew",
            Field::From(_) => "the number of a moment that there is",
            Field::To => "--from or more",
        }
    }
}

/// Returns the program's commands, with their options and defaults.
pub(crate) fn commands<'a>(alloc: Global) -> Made<'a> {
    let about = "A Bw-tree in memory: traces, and histories of workers";
    let made = new_command(alloc, "bwtree", about, OF_ALL);
    let made = over(made, run_command(alloc));
    let made = over(made, draw_command(alloc));
    let made = over(made, film_command(alloc));
    let made = over(made, stats_command(alloc));
    let about = "Answers each line of a script of steps";
    let made = over(made, reader_command(alloc, "steps", about, OF_STEPS));
    let made = over(made, make_command(alloc));
    let about = "Says whether a history is legal";
    let made = over(made, reader_command(alloc, "check", about, OF_CHECK))?;
    let made = made.version(VERSION).no_binary_name(true);
    made.subcommand_required(true).bin_name("bwtree")
}

/// Returns a command that only reads.
fn reader_command<'a>(alloc: Global, name: &'a str, about: &'a str, help: &'a str) -> Made<'a> {
    with_file(alloc, new_command(alloc, name, about, help))
}

fn make_command<'a>(alloc: Global) -> Made<'a> {
    let made = new_command(alloc, "make", "Prints a seeded trace", OF_MAKE);
    let made = with_number(alloc, made, "seed", "0", "The seed of the generator");
    let made = with_number(alloc, made, "rows", "100", "How many rows, at most 1000000");
    let help = "How many workers take turns, 1 to 64";
    let made = with_number(alloc, made, "workers", "1", help);
    let help = "Keys are below it, 1 to 4294967295";
    let made = with_number(alloc, made, "span", "1000", help);
    let made = with_flag(alloc, made, "mix", "Also draws sets and clears");
    let help = "Draws low keys more often; --span is then at most 1000000";
    with_flag(alloc, made, "skew", help)
}

/// Returns the span of keys for a trace to be drawn at random.
pub(crate) fn span_of(options: &ArgMatches, skew: bool) -> Result<u64, Field>
    ensures inside { IfOk result (λ span. (1 ≤ span) × (span ≤ 4294967295)) }
{
    if skew {
        ranged(options, "span", 1, 1_000_000, Field::SkewedSpan)
    } else {
        ranged(options, "span", 1, u64::from(u32::MAX), Field::Span)
    }
}

/// Returns the value of an option that may be absent.
pub(crate) fn if_given(matches: &ArgMatches, name: &str) -> Option<u64>
    ensures { IsOptionFor (found_of matches.now) name.now result }
{
    matches.get_one::<u64>(name)
}

/// Returns the value of an option. Fails with its name if it is out of its range.
pub(crate) fn ranged(
    matches: &ArgMatches,
    name: &str,
    low: u64,
    high: u64,
    field: Field,
) -> Result<u64, Field>
    ensures inside { IfOk result (λ value. (low ≤ value) × (value ≤ high)) }
    ensures named { IfOk result (IsNumberFor (found_of matches.now) name.now) }
{
    match if_given(matches, name) {
        Some(value) if low <= value && value <= high => Ok(value),
        _ => Err(field),
    }
}
