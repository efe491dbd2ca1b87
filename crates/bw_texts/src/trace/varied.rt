//! Traces drawn by a seeded generator in other ways than the usual one.

ghost use Rattle.std.specs.Prelude.{◌≡◌, ◌<◌, IfOk, length};
ghost use Rattle.std.specs.List.{AllByRecursion};

use crate::trace::row::Row;
use bw_delta::NoMemory;
use bw_keys::{Fence, Key};
use bw_procedures::Act;
use rand_core::SeedableRng;
use rand_core::utils::NextWord;
use rand_pcg::Pcg32;
use std::alloc::{AllocError, Global};

/// How a trace is drawn otherwise than by [`make`](crate::make).
#[derive(Clone, Copy, Debug, PartialEq, Eq)]
pub struct Variation {
    /// Whether sets and clears are drawn, too.
    pub mix: bool,
    /// Whether low keys are drawn more often.
    pub skew: bool,
}

/// How many keys a clear may take out.
const CLEARED: u64 = 8;

/// Draws `rows` rows as [`make`](crate::make) does, but for what the variation says.
///
/// With `mix` the first word of a row, modulo 8, says what it does: put for 0 to 2, set for 3 and 4,
/// delete for 5, get for 6, and for 7 clear from the key on, below the key plus 8. With `skew` the
/// key is the rank, counted from 0, that the second word draws by Zipf's distribution with exponent
/// 0.99.
pub fn make_varied(
    alloc: Global,
    seed: u64,
    rows: u64,
    workers: u32,
    span: u32,
    variation: Variation,
) -> Result<Vec<Row>, NoMemory>
    requires workers { 0 < workers }
    requires span { 0 < span }
    ensures rows { IfOk result (λ made. length made.items ≡ rows) }
    ensures workers { IfOk result (λ made.
        AllByRecursion (λ row. row.worker < workers) made.items) }
{
    let Variation { mix, skew } = variation;
    let mut random = Pcg32::seed_from_u64(seed);
    let sums = cumulative_weights(alloc, if skew { span } else { 0 })?;
    let mut made = Vec::new(alloc);
    for number in 0..rows {
        let (first, second) = (random.next_word(), random.next_word());
        let key = key_of(&sums, second, span);
        let act = if mix {
            mixed_act(first, key, number)
        } else {
            usual_act(first, key, number)
        };
        let worker = (number % u64::from(workers)) as u32;
        made.push(Row { worker, act })?;
    }
    Ok(made)
}

fn usual_act(word: u32, key: Key, value: u64) -> Act {
    match word % 4 {
        0 | 1 => Act::Put { key, value },
        2 => Act::Delete { key },
        _ => Act::Get { key },
    }
}

fn mixed_act(word: u32, key: Key, value: u64) -> Act {
    match word % 8 {
        0 | 1 | 2 => Act::Put { key, value },
        3 | 4 => Act::Set { key, value },
        5 => Act::Delete { key },
        6 => Act::Get { key },
        _ => Act::Clear {
            low: key,
            high: Fence::Key(key.saturating_add(CLEARED)),
        },
    }
}

/// Returns the key that the word draws below `span`, by the weights if there are any.
fn key_of(sums: &[u64], word: u32, span: u32) -> Key
    requires { 0 < span }
{
    match sums.last() {
        None => u64::from(word % span),
        Some(total) => {
            let drawn = u64::from(word).saturating_mul(*total >> 32);
            sums.partition_point(|sum| *sum <= drawn) as u64
        }
    }
}

/// The weight of the first rank: so great that a later one, rounded down, is wrong by less than a
/// ten-thousandth up to a million ranks, and so small that no sum or product here reaches 2^64.
const FIRST_WEIGHT: u64 = 1 << 54;

/// Returns the weights of the ranks, each with those of the ranks before it. Those of all ranks r,
/// counted from 1, are as r^-0.99 to within a thousandth: from r to r + 1 that falls by
/// (1 + 1/r)^-0.99, which is (r + 1/200) / (r + 199/200) but for terms of 1/r^3.
fn cumulative_weights(alloc: Global, ranks: u32) -> Result<Vec<u64>, AllocError> {
    let mut sums = Vec::new(alloc);
    let mut weight = FIRST_WEIGHT;
    let mut sum = 0u64;
    for rank in 1..=ranks {
        sum = sum.saturating_add(weight);
        sums.push(sum)?;
        let base = 200 * u64::from(rank);
        weight = weight.saturating_mul(base + 1) / (base + 199);
    }
    Ok(sums)
}
