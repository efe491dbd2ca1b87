//! Scripts of what workers and readers do on a tree, played line by line, with an answer to each.
//!
//! A script begins with its title and the line that makes its tree. An empty line stands between
//! two scripts. The answer to a line stands beneath it, after `> `.
//!
//! | Line | What it says |
//! |---|---|
//! | `tree WORKERS READERS OPTIONS` | the tree is made, with the options of a trace |
//! | `W,put,K,V`, or another row of a trace | the worker makes the call |
//! | `publish` | all is published, and the stamp is kept |
//! | `reader R learn` | the reader learns the newest stamp that is left |
//! | `reader R get K`, `look K`, `scan LOW LIMIT` | the reader reads |
//! | `close` | the tree is closed with all shares; its leaves, book and pairs are written, and what its readers answer |
//! | `abandon` | the same, but the shares are lost |

ghost use Rattle.std.specs.Prelude.{◌≡◌};
ghost use Rattle.bw_tree.specs.Trees.{OpensFor};

use crate::texts::{compare, read_part};
use crate::traces::config_of;
use anyhow::{Context, Result, bail};
use bw_keys::Config;
use bw_run::{Act, Reply, Row, do_act};
use bw_snap::{Announcements, Naming, ReadTree, Reader, Stamp};
use bw_step::Step;
use bw_table::Table;
use bw_texts::read_trace;
use bw_tree::{Blanks, Share};
use bw_work::{Hand, Open, Steps};
use std::alloc::Global;
use std::fmt::{Debug, Display};
use std::marker::Brand;
use std::rt::Files;
use std::sync::Wait;
use std::sync::ledger::Ledger;

/// The most workers that a tree has.
const MOST_WORKERS: u32 = 64;

/// Writes an answer.
fn say<T: Display>(played: &mut String, answer: &T) -> Result<()> {
    Ok(writeln!(played, "> {answer}")?)
}

/// Writes an answer as it is shown.
fn show<T: Debug>(played: &mut String, answer: &T) -> Result<()> {
    Ok(writeln!(played, "> {answer:?}")?)
}

/// Makes the call, and writes its reply.
fn answer<S: Steps<Global, Step<Global>>>(
    alloc: Global,
    steps: &mut S,
    act: Act,
    played: &mut String,
) -> Result<()> {
    say(played, &do_act(steps, alloc, act)?)
}

/// Does a row by its worker, who has this share, and returns the share.
fn work<R: Wait + Copy, N: Naming, D: Ledger>(
    alloc: Global,
    tree: &ReadTree<R, N, D>,
    share: Share<N, D>,
    row: Row,
    played: &mut String,
) -> (Share<N, D>, Result<()>) {
    let mut hand = Hand::new(alloc, alloc, tree, share, row.worker, &Open);
    let answered = answer(alloc, &mut hand, row.act, played);
    (hand.finish().0, answered)
}

/// Does the rows of the text, each by its worker.
fn work_all<R: Wait + Copy, N: Naming, D: Ledger>(
    alloc: Global,
    tree: &ReadTree<R, N, D>,
    shares: &mut Vec<Share<N, D>>,
    rows: &str,
    played: &mut String,
) -> Result<()> {
    for row in read_trace(alloc, rows.as_bytes(), MOST_WORKERS)? {
        let share = shares.pop().context("no share is left")?;
        let (share, answered) = work(alloc, tree, share, row, played);
        shares.push(share).ok().context("no memory")?;
        answered?;
    }
    Ok(())
}

/// Does what the words say by the reader.
fn read<N: Naming>(
    alloc: Global,
    reader: &mut Reader<N>,
    stamps: &mut Vec<Stamp<N>>,
    words: &[&str],
    played: &mut String,
) -> Result<()> {
    match words {
        ["learn"] => reader.learn(stamps.pop().context("no stamp is left")?),
        ["get", key] => return say(played, &Reply::Get(reader.get(key.parse()?)?)),
        ["look", key] => {
            let look = reader.look(key.parse()?)?;
            writeln!(played, "> {} at {}", Reply::Get(look.found), look.at)?;
        }
        ["scan", low, limit] => {
            let mut pairs = vec![in alloc; (7, 77)]?;
            reader.scan(low.parse()?, limit.parse()?, &mut pairs)?;
            return show(played, &pairs);
        }
        _ => bail!("no reading"),
    }
    Ok(())
}

/// Does what the words say by the reader that they name.
fn read_by<N: Naming>(
    alloc: Global,
    readers: &mut [Reader<N>],
    stamps: &mut Vec<Stamp<N>>,
    place: &str,
    words: &[&str],
    played: &mut String,
) -> Result<()> {
    let reader = readers.get_mut(place.parse::<usize>()?);
    read(alloc, reader.context("no reader")?, stamps, words, played)
}

/// Publishes all, and keeps the stamp.
fn publish<R: Wait + Copy, N: Naming, D: Ledger>(
    tree: &ReadTree<R, N, D>,
    stamps: &mut Vec<Stamp<N>>,
) -> Result<()> {
    stamps.push(tree.publish()?).ok().context("no memory")
}

/// Does what a line says, and writes the answer.
fn play_line<R: Wait + Copy, N: Naming, D: Ledger>(
    alloc: Global,
    tree: &ReadTree<R, N, D>,
    shares: &mut Vec<Share<N, D>>,
    readers: &mut [Reader<N>],
    stamps: &mut Vec<Stamp<N>>,
    line: &str,
    played: &mut String,
) -> Result<()> {
    let words: Vec<&str> = line.split(' ').collect(alloc)?;
    match words.as_slice() {
        ["close" | "abandon"] => Ok(()),
        ["publish"] => publish(tree, stamps),
        ["reader", place, reading @ ..] => {
            read_by(alloc, readers, stamps, place, reading, played)
        }
        _ => work_all(alloc, tree, shares, line, played),
    }
}

/// Does what the lines say, and writes their answers.
fn play_lines<R: Wait + Copy, N: Naming, D: Ledger>(
    alloc: Global,
    tree: &ReadTree<R, N, D>,
    shares: &mut Vec<Share<N, D>>,
    readers: &mut [Reader<N>],
    lines: &str,
    played: &mut String,
) -> Result<()> {
    let mut stamps = Vec::new(alloc);
    for line in lines.lines() {
        if !line.starts_with("> ") {
            writeln!(played, "{line}")?;
            play_line(alloc, tree, shares, readers, &mut stamps, line, played)?;
        }
    }
    Ok(())
}

/// Writes what the reader of a closed tree answers.
fn tell_reader<N: Naming>(
    alloc: Global,
    reader: &mut Reader<N>,
    played: &mut String,
) -> Result<()> {
    let mut pairs = vec![in alloc; (7, 77)]?;
    let scan = reader.scan(0, 10, &mut pairs);
    let (get, look) = (reader.get(0), reader.look(0));
    Ok(writeln!(played, "> {get:?} {look:?} {scan:?} {pairs:?}")?)
}

/// Writes what is left of a tree.
fn tell<N: Naming>(
    alloc: Global,
    table: &Table<Global>,
    readers: &mut [Reader<N>],
    played: &mut String,
) -> Result<()> {
    let survey = table.survey(alloc)?;
    for leaf in survey.leaves.iter() {
        say(played, leaf)?;
    }
    show(played, &survey.book)?;
    show(played, &table.pairs(alloc)?)?;
    for reader in readers {
        tell_reader(alloc, reader, played)?;
    }
    Ok(())
}

/// Plays the lines after the one that makes the tree. They are owned here, since ledgers aren't
/// named at a call with a `&str`.
fn play_over<R: Wait + Copy, N: Naming, D: Ledger>(
    rt: R,
    alloc: Global,
    config: Config,
    readers: u32,
    blanks: Blanks,
    announcements: Announcements,
    lines: &String,
    played: &mut String,
) -> Result<()>
    requires announcements { announcements.seen.book ≡ N.announcements }
    requires ledgers { OpensFor N.Ledger N.config D.Ledger config blanks }
{
    let made = ReadTree::<R, N, D>::with_readers(rt, alloc, config, blanks, announcements, readers);
    let (tree, mut shares, mut readers) = match made {
        Ok(made) => made,
        Err(fault) => return Ok(writeln!(played, "> {fault}")?),
    };
    let (workers, many) = (shares.len(), readers.len());
    writeln!(played, "> {workers} workers, {many} readers")?;
    play_lines(alloc, &tree, &mut shares, &mut readers, lines, played)?;
    let table = if lines.contains("\nabandon\n") {
        tree.into_table()
    } else {
        tree.close(shares)?
    };
    tell(alloc, &table, &mut readers, played)
}

/// How a tree is made.
#[derive(Clone, Copy)]
struct Making {
    workers: u32,
    readers: u32,
    config: Config,
}

/// Reads the line that makes the tree.
fn read_making(alloc: Global, line: &str) -> Result<Making> {
    let words: Vec<&str> = line.splitn(4, ' ').collect(alloc)?;
    let ["tree", workers, readers, options] = words.as_slice() else {
        bail!("{line}: no tree");
    };
    Ok(Making {
        workers: workers.parse()?,
        readers: readers.parse()?,
        config: config_of(options)?,
    })
}

/// Plays the script, and returns it with its answers.
fn play<R: Wait + Copy>(rt: R, alloc: Global, script: &str) -> Result<String> {
    let (title, rest) = script.split_once('\n').context("a title alone")?;
    let (tree, lines) = rest.split_once('\n').unwrap_or((rest, ""));
    let Making {
        workers,
        readers,
        config,
    } = read_making(alloc, tree)?;
    let lines = lines.to_string(alloc)?;
    let mut played = format!(in alloc; "{title}\n{tree}\n")?;
    play_over::<R, Brand, Brand>(
        rt,
        alloc,
        config,
        readers,
        Blanks::new(workers),
        Announcements::new(),
        &lines,
        &mut played,
    )?;
    Ok(played)
}

/// Plays the scripts of the file, and compares the answers to each with those in it.
pub(crate) fn agree<R: Wait + Copy + Files + AllocGlobal>(rt: R, path: &str) -> Result<()> {
    let alloc = rt.alloc();
    let text = read_part(&rt, path, "")?;
    for script in text.split("\n\n") {
        let played = play(rt, alloc, script)?;
        compare(played.trim_end(), script.trim_end())?;
    }
    Ok(())
}
