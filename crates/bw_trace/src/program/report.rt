//! The report of a run.

use bw_run::Reply;
use bw_step::Survey;
use bw_texts::OutFault;
use std::alloc::Global;
use std::io;
use std::io::{BufWriter, Write};

/// Writes the replies, if they are asked for, then the leaves in the order of their keys, and the
/// numbers of pairs inserted, removed and there.
pub(crate) fn write_report<W: Write>(
    alloc: Global,
    output: &mut W,
    survey: &Survey,
    replies: Option<&[Reply]>,
) -> Result<(), OutFault> {
    let Ok(mut lines) = BufWriter::new(alloc, output) else {
        return Err(OutFault::Memory);
    };
    if let Some(replies) = replies {
        write_replies(&mut lines, replies)?;
    }
    writeln!(lines, "{survey}")?;
    lines.flush()?;
    Ok(())
}

/// Writes a line for each reply, in the order of the trace.
fn write_replies<W: Write>(output: &mut W, replies: &[Reply]) -> io::Result<()> {
    for reply in replies {
        writeln!(output, "{reply}")?;
    }
    Ok(())
}
