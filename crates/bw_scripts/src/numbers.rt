//! Numbers in a script.

use crate::line::Unread;
use bw_keys::{Fence, Pid, Version};

/// Reads a decimal number without a sign, at most 2^64 - 1.
pub(crate) fn number(word: &str) -> Result<u64, Unread> {
    if !word.bytes().all(|byte| byte.is_ascii_digit()) {
        return Err(Unread::Words);
    }
    word.parse::<u64>().map_err(|_| Unread::Words)
}

pub(crate) fn small(word: &str) -> Result<u32, Unread> {
    u32::try_from(number(word)?).map_err(|_| Unread::Words)
}

pub(crate) fn level(word: &str) -> Result<u8, Unread> {
    u8::try_from(number(word)?).map_err(|_| Unread::Words)
}

pub(crate) fn page(word: &str) -> Result<Pid, Unread> {
    Ok(Pid(small(word)?))
}

pub(crate) fn version(word: &str) -> Result<Version, Unread> {
    Ok(Version(number(word)?))
}

/// Reads the page to the right, or `-` if there is none.
pub(crate) fn right(word: &str) -> Result<Option<Pid>, Unread> {
    match word {
        "-" => Ok(None),
        _ => Ok(Some(page(word)?)),
    }
}

/// Reads where a range ends: a key, or `top`.
pub(crate) fn high(word: &str) -> Result<Fence, Unread> {
    match word {
        "top" => Ok(Fence::Top),
        _ => Ok(Fence::Key(number(word)?)),
    }
}
