//! Statuses as texts, and the library's version.

ghost use Rattle.nifforan_handle.specs.Statuses.{EndsWithZero};

use crate::status;

/// The library's version: 10,000 times its first number, 100 times its second, and its third.
pub const VERSION: u32 = 400;

/// The room of a text, with the 0 that ends it.
pub const TEXT_SIZE: usize = 64;

/// A text that ends with a 0.
#[repr(C)]
#[derive(Clone, Copy)]
pub struct StatusText {
    /// The text's bytes, in ASCII, and zeros from there on.
    pub text: [u8; TEXT_SIZE],
}

/// Returns what the status means, in a few words.
pub fn status_text(status: u32) -> StatusText
    ensures { EndsWithZero result }
{
    let mut text = [0; TEXT_SIZE];
    for (place, byte) in text.iter_mut().zip(meaning(status).as_bytes()) {
        *place = *byte;
    }
    text[TEXT_SIZE - 1] = 0;
    StatusText { text }
}

fn meaning(status: u32) -> &'static str {
    match status {
        status::OK => "done",
        status::CLOSED => "the handle is closed",
        status::OPEN => "the handle is open",
        status::BAD_FANOUT => "the fanout is not from 4 to 64",
        status::BAD_CHAIN => "the chain is not from 1 to 32",
        status::BAD_PAGES => "the pages are not from 8 to 16777216",
        status::BAD_TRIES => "the tries are not from 1 to 1000",
        status::NO_MEMORY => "no memory",
        status::TABLE_FULL => "no page is free",
        status::TOO_TALL => "the tree has its greatest height",
        status::WORN => "a version or the number of changes is used up",
        status::CONTENDED => "the call took all its tries",
        status::BAD_SIZE => "the settings have another size in this version",
        status::FROZEN => "the map is frozen",
        status::NOT_FROZEN => "the map is not frozen",
        status::SHARED => "other handles have the map too",
        status::UNSORTED => "a key is not above the one before",
        _ => "no status of this library",
    }
}
