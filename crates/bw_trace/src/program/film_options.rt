//! The options of `film`.

ghost use Rattle.std.specs.Prelude.{◌≡◌, ◌<◌, ◌≤◌, IfErr, IfOk, OnOk};
ghost use Rattle.clap.specs.Words.{found_of};
ghost use Rattle.bw_trace.specs.declared.program.options.Field.TheVariants as fields;
ghost use Rattle.bw_trace.specs.Options.{IsFilmedBy, IsFit, IsForward};

use crate::program::help::OF_FILM;
use crate::program::options::{Field, if_given};
use crate::program::parts::{Made, with_file, with_optional};
use crate::program::setting::Setting;
use crate::program::show_options::{KEY, shown_command};
use bw_keys::Key;
use clap::ArgMatches;
use std::alloc::Global;

/// What is filmed, and which moments of it are drawn.
#[derive(Clone, Copy)]
pub(crate) struct FilmOptions {
    pub setting: Setting,
    /// Whether a script of steps is read in place of a trace. A script has its own configuration.
    pub steps: bool,
    pub from: Option<u64>,
    /// The last moment.
    pub to: Option<u64>,
    pub key: Option<Key>,
}

impl FilmOptions {
    /// Reads the options. Fails with the first that is out of its range, or if the last moment is
    /// before the first.
    pub(crate) fn of(matches: &ArgMatches) -> Result<FilmOptions, Field>
        ensures asked { IfOk result (IsFilmedBy (found_of matches.now)) }
        ensures fit { IfOk result (λ options. IsFit options.setting) }
        ensures forward { IfOk result (λ options. IsForward options.from options.to) }
    {
        let setting = Setting::of(matches)?;
        let (from, to) = (if_given(matches, "from"), if_given(matches, "to"));
        if from.unwrap_or(0) > to.unwrap_or(u64::MAX) {
            return Err(Field::To);
        }
        Ok(FilmOptions {
            setting,
            steps: matches.get_flag("steps"),
            from,
            to,
            key: if_given(matches, "key"),
        })
    }
}

/// Fails if there are too few moments for one with this number.
pub(crate) fn check_from(from: u64, moments: u64) -> Result<(), Field>
    ensures there { OnOk result (from < moments) }
    ensures past { IfErr result (λ field. (field ≡ fields.From moments) × (moments ≤ from)) }
{
    if from < moments {
        return Ok(());
    }
    Err(Field::From(moments))
}

/// Returns the command `film` with its options and defaults.
pub(crate) fn film_command<'a>(alloc: Global) -> Made<'a> {
    let about = "Writes a page that shows the table after each step";
    let made = shown_command(alloc, "film", about, OF_FILM);
    let made = with_optional(alloc, made, "from", "The first moment [default: 0]");
    let help = "The last moment [default: that of the last step]";
    let made = with_optional(alloc, made, "to", help);
    with_file(alloc, with_optional(alloc, made, "key", KEY))
}
