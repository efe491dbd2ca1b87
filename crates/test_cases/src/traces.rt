//! Traces of one worker, with what an independent model of the map foretold of them, or what was worked out by hand,
//! byte for byte. The program's command does them, too.

use crate::ending::Stop;
use crate::texts::{compare, read_part};
use crate::workers::{Done, Task, work_alone, work_by_hand};
use anyhow::{Context, Result, bail};
use bw_audit::audit;
use bw_keys::Config;
use bw_run::{Row, do_act};
use bw_step::Step;
use bw_texts::{read_trace, write_history};
use bw_work::Steps;
use std::alloc::Global;
use std::rt::Files;
use std::sync::Wait;

/// Returns the configuration by the options, with the program's defaults for those that aren't
/// there.
pub(crate) fn config_of(options: &str) -> Result<Config> {
    let mut config = Config {
        fanout: 16,
        chain: 8,
        pages: 4096,
        tries: 1000,
        first_version: 0,
    };
    let mut words = options.split_whitespace();
    while let Some(name) = words.next() {
        let number = words.next().context("an option has no number")?;
        let number = number.parse::<u32>()?;
        match name {
            "--fanout" => config.fanout = number,
            "--chain" => config.chain = number,
            "--pages" => config.pages = number,
            "--tries" => config.tries = number,
            _ => bail!("{name} is no option"),
        }
    }
    Ok(config)
}

/// The rows of a trace, in their order.
#[derive(Drop)]
struct Trace<'t> {
    alloc: Global,
    rows: &'t [Row],
}

impl<'t> Task for Trace<'t> {
    type Left = Result<String>;

    /// Returns a line for each reply.
    fn work<S: Steps<Global, Step<Global>>>(&self, steps: &mut S) -> Result<String> {
        let mut lines = String::new(self.alloc);
        for row in self.rows.iter() {
            let reply = do_act(steps, self.alloc, row.act)?;
            writeln!(lines, "{reply}")?;
        }
        Ok(lines)
    }
}

/// Returns the replies, the survey of the table and the audit, and the history after them.
fn told(alloc: Global, done: Result<Done<Result<String>>, Stop>) -> Result<String> {
    let Ok(Done { left, trail, table }) = done else {
        bail!("no table was made or left");
    };
    let (pairs, survey) = (table.pairs(alloc)?, table.survey(alloc)?);
    let trails = [trail];
    let verdict = audit(alloc, &trails, &pairs)?;
    let history = write_history(Vec::new(alloc), &trails, &pairs)?;
    let (replies, history) = (left?, String::from_utf8(history)?);
    Ok(format!(in alloc; "{replies}{survey}\naudit {verdict}\n{history}")?)
}

/// Has a worker do a trace alone, and one by hand, and compares replies, leaves, counts and history with those that
/// were foretold.
pub(crate) fn agree<R: Wait + Copy + Files + AllocGlobal>(rt: R, path: &str) -> Result<()> {
    let alloc = rt.alloc();
    let config = config_of(&read_part(&rt, path, ".args")?)?;
    let rows = read_trace(alloc, read_part(&rt, path, ".trace")?.as_bytes(), 1)?;
    let mut foretold = read_part(&rt, path, ".replies")?;
    foretold.push_str(&read_part(&rt, path, ".history")?)?;
    let task = Trace { alloc, rows: &rows };
    compare(&told(alloc, work_alone(alloc, config, &task))?, &foretold)?;
    compare(
        &told(alloc, work_by_hand(rt, alloc, config, &task))?,
        &foretold,
    )
}
