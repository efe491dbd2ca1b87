//! Inputs that keep what was read, so that a fault's sentence can quote it.

use std::alloc::Global;
use std::io;
use std::io::{ErrorKind, Read};

/// What was read of an input, if that is wanted.
#[derive(Drop)]
pub(crate) struct Kept {
    alloc: Global,
    is_wanted: bool,
    pub text: Vec<u8>,
    /// Why it can't be read any further, if it can't.
    pub failure: Option<String>,
}

impl Kept {
    /// Creates what is kept of an input before its first read. It stays empty if it isn't wanted.
    pub(crate) fn new(alloc: Global, is_wanted: bool) -> Kept {
        Kept {
            alloc,
            is_wanted,
            text: Vec::new(alloc),
            failure: None,
        }
    }

    /// Keeps what a read gave. Without memory for that, less is said of a fault.
    fn keep(&mut self, buf: &[u8], read: &io::Result<usize>) {
        if !self.is_wanted {
            return;
        }
        match read {
            Ok(count) => {
                let _ = self
                    .text
                    .extend_from_slice(buf.get(..*count).unwrap_or(&[]));
            }
            Err(error) => self.failure = reason_of(self.alloc, error),
        }
    }
}

/// An input, and what is kept of it.
#[derive(Drop)]
pub(crate) struct Keeping<'a, R> {
    pub input: R,
    pub kept: &'a mut Kept,
}

impl<'a, R: Read> Read for Keeping<'a, R> {
    ghost remaining = { λ it. R.remaining it.input };

    fn read(&mut self, buf: &mut [u8]) -> io::Result<usize> {
        let read = self.input.read(buf);
        self.kept.keep(buf, &read);
        read
    }
}

/// Returns why a file can't be opened or read, unless memory is short.
pub(crate) fn reason_of(alloc: Global, error: &io::Error) -> Option<String> {
    match error.kind() {
        ErrorKind::NotFound => "no such file".to_string(alloc).ok(),
        ErrorKind::PermissionDenied => "permission denied".to_string(alloc).ok(),
        ErrorKind::IsADirectory => "it is a folder".to_string(alloc).ok(),
        ErrorKind::NotADirectory => "a part of its path is no folder".to_string(alloc).ok(),
        _ => format!(in alloc; "{error}").ok(),
    }
}
