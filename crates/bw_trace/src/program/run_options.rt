//! The options of `run`.

ghost use Rattle.std.specs.Prelude.{◌≤◌, IfOk, codes};
ghost use Rattle.std.specs.Option.{ForSome};
ghost use Rattle.clap.specs.Words.{found_of};
ghost use Rattle.bw_trace.specs.Options.{IsAskedFor, IsFit, IsOptionFor};

use crate::program::help::OF_RUN;
use crate::program::options::{Field, if_given};
use crate::program::parts::{Made, new_command, number, with_apart, with_file, with_flag};
use crate::program::setting::{Setting, with_setting};
use bw_forest::MAX_TREES;
use clap::ArgMatches;
use std::alloc::Global;

/// How a trace is run, and what is printed of it.
#[derive(Clone, Copy)]
pub(crate) struct RunOptions {
    pub setting: Setting,
    /// How many trees the trace is run on, 1 to 1,024, if on a forest.
    pub trees: Option<u32>,
    /// Whether the replies are printed, before the leaves.
    pub replies: bool,
    /// Whether the history is printed instead of everything else, the replies included.
    pub history: bool,
    /// Whether nothing is noted of a run that ends well, though somebody watches.
    pub quiet: bool,
}

impl RunOptions {
    /// Reads the options. Fails with the first that is out of its range.
    pub(crate) fn of(matches: &ArgMatches) -> Result<RunOptions, Field>
        ensures asked { IfOk result (IsAskedFor (found_of matches.now)) }
        ensures fit { IfOk result (λ options. IsFit options.setting) }
        ensures trees { IfOk result (λ options.
            ForSome options.trees (λ trees. (1 ≤ trees) × (trees ≤ 1024))) }
    {
        Ok(RunOptions {
            setting: Setting::of(matches)?,
            trees: trees_of(matches)?,
            replies: matches.get_flag("replies"),
            history: matches.get_flag("history"),
            quiet: matches.get_flag("quiet"),
        })
    }
}

/// Returns the number of trees, if it is given.
fn trees_of(matches: &ArgMatches) -> Result<Option<u32>, Field>
    ensures asked { IfOk result (IsOptionFor (found_of matches.now) (codes "trees")) }
    ensures fit { IfOk result (λ trees. ForSome trees (λ n. (1 ≤ n) × (n ≤ 1024))) }
{
    match if_given(matches, "trees") {
        None => Ok(None),
        Some(trees) if 1 <= trees && trees <= u64::from(MAX_TREES) => Ok(Some(trees as u32)),
        Some(_) => Err(Field::Trees),
    }
}

/// Returns the command `run` with its options and defaults. The one for a forest conflicts with
/// those that need a single tree.
pub(crate) fn run_command<'a>(alloc: Global) -> Made<'a> {
    let made = with_setting(alloc, new_command(alloc, "run", "Runs a trace", OF_RUN));
    let help = "Runs it on this many trees by ranges of keys, 1 to 1024";
    let made = with_apart(made, number(alloc, "trees", help), &["readers", "history"]);
    let made = with_flag(alloc, made, "replies", "Also prints the replies");
    let made = with_flag(alloc, made, "history", "Prints only the history");
    let help = "Shows neither progress nor a note of faults on a terminal";
    with_file(alloc, with_flag(alloc, made, "quiet", help))
}
