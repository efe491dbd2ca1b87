//! The options of the commands that run a trace.

ghost use Rattle.std.specs.Prelude.{IfOk};
ghost use Rattle.clap.specs.Words.{found_of};
ghost use Rattle.bw_trace.specs.Options.{IsFit, IsSettingFor};

use crate::program::options::{Field, ranged};
use crate::program::parts::{Made, with_number};
use bw_keys::{Config, MAX_WORKERS};
use bw_snap::MAX_READERS;
use clap::ArgMatches;
use std::alloc::Global;

/// How a trace is run.
#[derive(Clone, Copy)]
pub(crate) struct Setting {
    pub config: Config,
    /// The number of workers, 1 to 64.
    pub workers: u32,
    /// The number of workers with a reader, at most 16.
    pub readers: u32,
}

impl Setting {
    /// Reads the options. Fails with the first that is out of its range.
    pub(crate) fn of(matches: &ArgMatches) -> Result<Setting, Field>
        ensures asked { IfOk result (IsSettingFor (found_of matches.now)) }
        ensures fit { IfOk result IsFit }
    {
        let fanout = ranged(matches, "fanout", 4, 64, Field::Fanout)?;
        let chain = ranged(matches, "chain", 1, 32, Field::Chain)?;
        let pages = ranged(matches, "pages", 8, 65536, Field::Pages)?;
        let tries = ranged(matches, "tries", 1, 1000, Field::Tries)?;
        let most = u64::from(MAX_WORKERS);
        let workers = ranged(matches, "workers", 1, most, Field::Workers)?;
        let most = workers.min(u64::from(MAX_READERS));
        let readers = ranged(matches, "readers", 0, most, Field::Readers)?;
        Ok(Setting {
            config: Config {
                fanout: fanout as u32,
                chain: chain as u32,
                pages: pages as u32,
                tries: tries as u32,
                first_version: 0,
            },
            workers: workers as u32,
            readers: readers as u32,
        })
    }
}

/// Adds the options of a setting.
pub(crate) fn with_setting<'a>(alloc: Global, made: Made<'a>) -> Made<'a> {
    let help = "The most entries of a page, 4 to 64";
    let made = with_number(alloc, made, "fanout", "16", help);
    let help = "Consolidate at this depth, 1 to 32";
    let made = with_number(alloc, made, "chain", "8", help);
    let made = with_number(alloc, made, "pages", "4096", "The most pages, 8 to 65536");
    let help = "The most effort of one call, 1 to 1000";
    let made = with_number(alloc, made, "tries", "1000", help);
    let help = "Workers who do the rows, 1 to 64";
    let made = with_number(alloc, made, "workers", "1", help);
    let help = "Workers who read without the lock, 0 to 16, at most --workers";
    with_number(alloc, made, "readers", "0", help)
}
