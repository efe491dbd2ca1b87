//! The standard streams of a program that others read.

use bw_trace::{Progress, command, command_watched};
use std::alloc::Global;
use std::cell::Cell;
use std::io;
use std::io::{Read, Write};
use std::rt::Files;
use std::sync::Wait;
use std::thread::Threads;

/// The output. It notes when nobody reads it any more.
#[derive(Drop)]
struct Output<'a, W> {
    stream: W,
    is_closed: &'a Cell<bool>,
}

impl<'a, W: Write> Write for Output<'a, W> {
    fn write(&mut self, buf: &[u8]) -> io::Result<usize> {
        let written = self.stream.write(buf);
        if let Err(error) = &written {
            self.is_closed
                .set(error.kind() == io::ErrorKind::BrokenPipe);
        }
        written
    }

    fn flush(&mut self) -> io::Result<()> {
        self.stream.flush()
    }
}

/// The faults. Nothing is said any more once nobody reads the output.
#[derive(Drop)]
struct Faults<'a, W> {
    stream: W,
    is_closed: &'a Cell<bool>,
}

impl<'a, W: Write> Write for Faults<'a, W> {
    fn write(&mut self, buf: &[u8]) -> io::Result<usize> {
        if self.is_closed.get() {
            return Ok(buf.len());
        }
        self.stream.write(buf)
    }

    fn flush(&mut self) -> io::Result<()> {
        self.stream.flush()
    }
}

/// The input. Its first read writes the hint, if there is one.
#[derive(Drop)]
struct Hinted<R, W> {
    stream: R,
    faults: W,
    hint: Option<&'static str>,
}

impl<R: Read, W: Write> Read for Hinted<R, W> {
    fn read(&mut self, buf: &mut [u8]) -> io::Result<usize> {
        if let Some(hint) = self.hint.take() {
            let _ = writeln!(self.faults, "{hint}");
        }
        self.stream.read(buf)
    }
}

/// Carries out the words, and returns the exit status. The first read of the input writes the hint
/// after it, if there is one. Where somebody watches the faults, notes are written there too, and
/// the rows of a run are counted.
pub(crate) fn answer<
    T: Threads + Wait + Files + Sync + Send + Copy,
    R: Read + Drop,
    W: Write + Drop,
    E: Write + Copy + Drop,
>(
    rt: T,
    alloc: Global,
    words: &[&str],
    (input, hint): (R, Option<&'static str>),
    output: W,
    faults: E,
    watch: Option<&Progress>,
) -> u8 {
    let is_closed = Cell::new(false);
    let input = Hinted {
        stream: input,
        faults,
        hint,
    };
    let mut output = Output {
        stream: output,
        is_closed: &is_closed,
    };
    let mut faults = Faults {
        stream: faults,
        is_closed: &is_closed,
    };
    match watch {
        None => command(rt, alloc, words, input, &mut output, &mut faults),
        Some(progress) => {
            command_watched(rt, alloc, words, input, &mut output, &mut faults, progress)
        }
    }
}
