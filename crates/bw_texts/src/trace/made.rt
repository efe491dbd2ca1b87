//! Traces drawn by a seeded generator.

ghost use Rattle.std.specs.Prelude.{◌≡◌, ◌<◌, IfOk};
ghost use Rattle.bw_texts.specs.Made.{row_drawn, trace_drawn, two_words_on};

use crate::trace::row::Row;
use bw_delta::NoMemory;
use bw_procedures::Act;
use rand_core::SeedableRng;
use rand_core::utils::NextWord;
use rand_pcg::Pcg32;
use std::alloc::Global;

/// Draws `rows` rows by the generator `Pcg32` of the seed.
///
/// The workers take turns. Each row takes two words: the first, modulo 4, says what it does (put
/// for 0 and 1, delete for 2, get for 3), and the second, modulo `span`, is its key. The value of a
/// put is the number of its row, counted from 0.
pub fn make(
    alloc: Global,
    seed: u64,
    rows: u64,
    workers: u32,
    span: u64,
) -> Result<Vec<Row>, NoMemory>
    requires workers { 0 < workers }
    requires span { 0 < span }
    ensures { IfOk result (λ made. made.items ≡ trace_drawn seed rows workers span) }
{
    let mut random = Pcg32::seed_from_u64(seed);
    let mut made = Vec::new(alloc);
    for number in 0..rows {
        made.push(draw_row(&mut random, number, workers, span))?;
    }
    Ok(made)
}

fn draw_row(random: &mut Pcg32, number: u64, workers: u32, span: u64) -> Row
    requires workers { 0 < workers }
    requires span { 0 < span }
    ensures row { result ≡ row_drawn workers span number random.old }
    ensures random { random.new ≡ two_words_on random.old }
{
    let draw = random.next_word() % 4;
    let key = u64::from(random.next_word()) % span;
    let act = match draw {
        0 | 1 => Act::Put { key, value: number },
        2 => Act::Delete { key },
        _ => Act::Get { key },
    };
    Row {
        worker: (number % u64::from(workers)) as u32,
        act,
    }
}
