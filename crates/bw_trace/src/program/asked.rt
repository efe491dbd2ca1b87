//! What a command was asked for, and what it read.

use crate::program::kept::Kept;
use clap::ArgMatches;
use std::alloc::{AllocError, Global};

/// The most characters that are shown of what was found.
const MOST_SHOWN: usize = 60;

/// A command with its options, and what it read.
#[derive(Clone, Copy)]
pub(crate) struct Asked<'m, 'a> {
    pub command: &'a str,
    pub options: &'m ArgMatches<'a>,
    pub kept: &'m Kept,
}

impl<'m, 'a> Asked<'m, 'a> {
    /// Returns the name of what is read.
    pub(crate) fn name(&self) -> &'a str {
        file_of(self.options).unwrap_or("standard input")
    }

    /// Returns the number that an option has, if it has one.
    pub(crate) fn number(&self, name: &str) -> Option<u64> {
        self.options.get_one::<u64>(name)
    }

    /// Returns whether a history is read.
    pub(crate) fn is_history(&self) -> bool {
        self.command == "check"
    }

    /// Returns the line with this number, counted from 1, or what is shown of it.
    pub(crate) fn line(&self, alloc: Global, number: u64) -> Option<String> {
        let mut place: u64 = 0;
        for line in self.kept.text.split(|byte| *byte == b'\n') {
            place = place.saturating_add(1);
            if place == number {
                let line = String::from_utf8_lossy(alloc, line).ok()?;
                let line = line.as_str();
                return shown(alloc, line.strip_suffix('\r').unwrap_or(line)).ok();
            }
        }
        None
    }
}

/// Returns the file that is read in place of standard input, if there is one. The name `-` is that of
/// standard input.
pub(crate) fn file_of<'a>(options: &ArgMatches<'a>) -> Option<&'a str> {
    match options.get_str("FILE") {
        Some("-") => None,
        file => file,
    }
}

/// Returns the text, or its beginning if it is long.
pub(crate) fn shown(alloc: Global, text: &str) -> Result<String, AllocError> {
    let mut shown = String::new(alloc);
    let mut count: usize = 0;
    for character in text.chars() {
        if count == MOST_SHOWN {
            shown.push_str("...")?;
            return Ok(shown);
        }
        shown.push(character)?;
        count = count.saturating_add(1);
    }
    Ok(shown)
}
