//! What texts are written with.

use bw_delta::NoMemory;
use bw_keys::Key;
use std::alloc::Global;
use std::mem::replace;

/// Writes texts and makes lists, and remembers whether memory was refused. Its callers have no
/// fault to pass on.
#[derive(Drop)]
pub(crate) struct Pen {
    pub(crate) alloc: Global,
    text: String,
    has_failed: bool,
    /// Whether a number was written without its middle.
    pub(crate) has_cut: bool,
}

impl Pen {
    pub(crate) fn new(alloc: Global) -> Pen {
        Pen {
            alloc,
            text: String::new(alloc),
            has_failed: false,
            has_cut: false,
        }
    }

    /// Takes out what is written.
    pub(crate) fn take(&mut self) -> String {
        replace(&mut self.text, String::new(self.alloc))
    }

    /// Returns what is written, unless memory was refused, for this or for what was taken out or
    /// appended to a list.
    pub(crate) fn finish(self) -> Result<String, NoMemory> {
        let Pen {
            text,
            has_failed,
            ..
        } = self;
        if has_failed { Err(NoMemory) } else { Ok(text) }
    }

    /// Appends an item to a list.
    pub(crate) fn push<T: Drop>(&mut self, list: &mut Vec<T>, item: T) {
        self.has_failed |= list.push(item).is_err();
    }

    /// Appends what is written to a list of lines.
    pub(crate) fn line(&mut self, lines: &mut Vec<String>) {
        let line = self.take();
        self.push(lines, line);
    }

    /// Sorts a list.
    pub(crate) fn sort(&mut self, list: &mut Vec<(Key, usize)>) {
        self.has_failed |= list.sort().is_err();
    }

    pub(crate) fn write(&mut self, text: &str) {
        self.has_failed |= self.text.push_str(text).is_err();
    }

    /// Writes a text, and a number after it.
    pub(crate) fn number(&mut self, text: &str, number: u64) {
        self.write(text);
        self.has_failed |= self.text.write(number).is_err();
    }

    /// Writes a text, and a number after it.
    pub(crate) fn put(&mut self, text: &str, number: usize) {
        self.number(text, number as u64);
    }
}
