//! The options of the commands that show a table.

ghost use Rattle.std.specs.Prelude.{IfOk};
ghost use Rattle.clap.specs.Words.{found_of};
ghost use Rattle.bw_trace.specs.Options.{IsDrawnBy, IsFit, IsShownBy};

use crate::program::help::{OF_DRAW, OF_STATS};
use crate::program::options::{Field, if_given};
use crate::program::parts::{Made, flag, new_command, with_apart, with_file, with_optional};
use crate::program::setting::{Setting, with_setting};
use bw_keys::Key;
use clap::ArgMatches;
use std::alloc::Global;

const AFTER: &str = "Does only this many rows or lines";

pub(crate) const KEY: &str = "Draws the path to this key's leaf, and the leaves beside it";

/// What makes the table that is shown.
#[derive(Clone, Copy)]
pub(crate) struct ShowOptions {
    pub setting: Setting,
    /// Whether a script of steps is read in place of a trace. A script has its own configuration.
    pub steps: bool,
    /// The number of rows, or of lines of a script, that are done, if not all.
    pub after: Option<u64>,
}

/// What is drawn.
#[derive(Clone, Copy)]
pub(crate) struct DrawOptions {
    pub shown: ShowOptions,
    /// The key to whose leaf the path is drawn, if not all.
    pub key: Option<Key>,
}

impl ShowOptions {
    /// Reads the options. Fails with the first that is out of its range.
    pub(crate) fn of(matches: &ArgMatches) -> Result<ShowOptions, Field>
        ensures asked { IfOk result (IsShownBy (found_of matches.now)) }
        ensures fit { IfOk result (λ options. IsFit options.setting) }
    {
        Ok(ShowOptions {
            setting: Setting::of(matches)?,
            steps: matches.get_flag("steps"),
            after: if_given(matches, "after"),
        })
    }
}

impl DrawOptions {
    /// Reads the options. Fails with the first that is out of its range.
    pub(crate) fn of(matches: &ArgMatches) -> Result<DrawOptions, Field>
        ensures asked { IfOk result (IsDrawnBy (found_of matches.now)) }
        ensures fit { IfOk result (λ options. IsFit options.shown.setting) }
    {
        Ok(DrawOptions {
            shown: ShowOptions::of(matches)?,
            key: if_given(matches, "key"),
        })
    }
}

/// Returns the command `draw` with its options and defaults.
pub(crate) fn draw_command<'a>(alloc: Global) -> Made<'a> {
    let about = "Draws the table that a trace leaves, as SVG";
    let made = shown_command(alloc, "draw", about, OF_DRAW);
    let made = with_optional(alloc, made, "after", AFTER);
    with_file(alloc, with_optional(alloc, made, "key", KEY))
}

/// Returns the command `stats` with its options and defaults.
pub(crate) fn stats_command<'a>(alloc: Global) -> Made<'a> {
    let about = "Prints the numbers of the table that a trace leaves";
    let made = shown_command(alloc, "stats", about, OF_STATS);
    with_file(alloc, with_optional(alloc, made, "after", AFTER))
}

/// Returns a command that shows a table, with the first of its options. A script of steps has its
/// own setting.
pub(crate) fn shown_command<'a>(
    alloc: Global,
    name: &'a str,
    about: &'a str,
    help: &'a str,
) -> Made<'a> {
    let made = with_setting(alloc, new_command(alloc, name, about, help));
    let steps = flag(alloc, "steps", "Reads a script of steps instead of a trace");
    let others = &["fanout", "chain", "pages", "tries", "workers", "readers"];
    with_apart(made, steps, others)
}
