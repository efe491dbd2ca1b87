use crate::verdict::AuditFault;
use bw_keys::Key;
use std::alloc::Global;

/// A guess of where the rows of a key lie among rows in order: those of a range of keys, which are few
/// if the keys lie evenly. A search that begins there looks whether it's right, so nothing is
/// promised of it.
#[derive(Drop)]
pub struct Guide {
    lowest: Key,
    /// How many binary digits the keys of a range differ by.
    digits: u32,
    /// Where the rows of each range start, and where those of the last one end.
    starts: Vec<usize>,
}

impl Guide {
    /// Returns a guide to these rows, with at most as many ranges.
    pub fn new(machine: Global, rows: &[(Key, u64)]) -> Result<Guide, AuditFault> {
        let lowest = rows.first().map_or(0, |row| row.0);
        let width = rows.last().map_or(0, |row| row.0).saturating_sub(lowest);
        let digits = ((rows.len() as u64).leading_zeros() + 1).saturating_sub(
            width.leading_zeros(),
        );
        let mut starts = Vec::from_elem(machine, 0, range_of(width, digits).saturating_add(2))?;
        for (place, row) in rows.iter().enumerate() {
            let next = range_of(row.0.saturating_sub(lowest), digits).saturating_add(1);
            if let Some(start) = starts.get_mut(next) {
                *start = place + 1;
            }
        }
        fill(starts.as_mut_slice());
        Ok(Guide {
            lowest,
            digits,
            starts,
        })
    }

    /// Returns where the rows of the key's range start and end.
    pub fn around(&self, key: Key) -> (usize, usize) {
        let range = range_of(key.saturating_sub(self.lowest), self.digits);
        let start = |range: usize| self.starts.get(range).copied().unwrap_or(0);
        (start(range), start(range.saturating_add(1)))
    }
}

/// Returns which range has a key that lies this far above the lowest.
#[inline]
fn range_of(above: u64, digits: u32) -> usize {
    above.wrapping_shr(digits) as usize
}

/// Starts each range after one without rows where that one starts.
fn fill(starts: &mut [usize]) {
    let mut last = 0;
    for start in starts {
        last = last.max(*start);
        *start = last;
    }
}
