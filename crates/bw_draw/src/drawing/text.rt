//! The texts in a drawing.

use crate::pen::Pen;
use bw_delta::Delta;
use bw_keys::{Key, Pid};
use bw_step::Stage;

/// The greatest number that is written whole.
const LONGEST: u64 = 999_999_999;

impl Pen {
    /// Writes a text, and the number of a page after it.
    pub(crate) fn page(&mut self, text: &str, page: Pid) {
        self.number(text, u64::from(page.0));
    }

    /// Writes how many there are of what has this name.
    pub(crate) fn count(&mut self, number: u64, name: &str) {
        self.number("", number);
        self.write(name);
        if number != 1 {
            self.write("s");
        }
    }

    /// Writes how many more there are.
    pub(crate) fn more(&mut self, number: usize) {
        self.put("… ", number);
        self.write(" more");
    }

    /// Writes a text, and a key or a value after it. A long number is written as its first and last
    /// three digits, with the number of digits left out between them, as 184‹14›615.
    pub(crate) fn short(&mut self, text: &str, number: u64) {
        if number <= LONGEST {
            return self.number(text, number);
        }
        self.has_cut = true;
        let (head, digits) = head_of(number);
        self.number(text, head);
        self.put("‹", digits.saturating_sub(3));
        self.number("›", number / 100 % 10);
        self.number("", number / 10 % 10);
        self.number("", number % 10);
    }

    /// Writes a text, and a pair after it.
    pub(crate) fn pair(&mut self, text: &str, key: Key, value: u64) {
        self.short(text, key);
        self.short(":", value);
    }

    /// Writes a text, and a route after it.
    pub(crate) fn route(&mut self, text: &str, key: Key, page: Pid) {
        self.short(text, key);
        self.page(" → ", page);
    }

    /// Writes what a record does to the page.
    pub(crate) fn record(&mut self, delta: Delta) {
        match delta {
            Delta::Insert(key, value) => self.pair("insert ", key, value),
            Delta::Modify(key, value) => self.pair("modify ", key, value),
            Delta::Delete(key) => self.short("delete ", key),
            Delta::Split(key, page) => self.route("split at ", key, page),
            Delta::Remove => self.write("remove"),
            Delta::TermAdd(key, page) => self.route("add term ", key, page),
            Delta::TermDelete(key) => self.short("drop term ", key),
        }
    }
}

/// Returns the first three digits of a number, and how many follow.
fn head_of(number: u64) -> (u64, usize) {
    let (mut head, mut digits) = (number, 0usize);
    for _ in 0..17 {
        if head >= 1000 {
            head /= 10;
            digits = digits.saturating_add(1);
        }
    }
    (head, digits)
}

/// Returns the number of characters of a text.
pub(crate) fn characters(text: &str) -> usize {
    text.chars().count()
}

/// Returns the name of a stage at which a page is half done.
pub(crate) fn undone(stage: Stage) -> Option<&'static str> {
    match stage {
        Stage::Unposted => Some("unposted"),
        Stage::Marked => Some("marked"),
        Stage::Merged => Some("merged"),
        Stage::Free | Stage::Posted => None,
    }
}
