//! Base pages in a script: `leaf LOW HIGH RIGHT KEY:VALUE ..` and
//! `inner LOW HIGH RIGHT KEY:PAGE ..`.

use crate::line::Unread;
use crate::numbers::{high, number, page, right};
use bw_delta::Base;
use bw_keys::{Key, Pid};
use std::alloc::Global;

fn pairs(alloc: Global, words: &[&str]) -> Result<Vec<(Key, u64)>, Unread> {
    let mut pairs = Vec::new(alloc);
    for word in words {
        let (key, value) = word.split_once(':').ok_or(Unread::Words)?;
        pairs.push((number(key)?, number(value)?))?;
    }
    Ok(pairs)
}

fn routes(alloc: Global, words: &[&str]) -> Result<Vec<(Key, Pid)>, Unread> {
    let mut routes = Vec::new(alloc);
    for word in words {
        let (key, child) = word.split_once(':').ok_or(Unread::Words)?;
        routes.push((number(key)?, page(child)?))?;
    }
    Ok(routes)
}

/// Reads a base page.
pub(crate) fn base(alloc: Global, words: &[&str]) -> Result<Base<Global>, Unread> {
    let [kind, low, end, link, entries @ ..] = words else {
        return Err(Unread::Words);
    };
    let (low, end, link) = (number(low)?, high(end)?, right(link)?);
    match *kind {
        "leaf" => Ok(Base::leaf(alloc, low, end, link, &pairs(alloc, entries)?)?),
        "inner" => Ok(Base::inner(alloc, low, end, link, &routes(alloc, entries)?)?),
        _ => Err(Unread::Words),
    }
}
