//! Rows of settings that show each pattern of two or three candidates if all sets are allowed.
//!
//! No contract says anything about these rows: they only guide the search.

use std::alloc::{AllocError, Global};

/// Rows that say of each candidate whether it is on: for each candidate a number, with one bit for
/// each row.
#[derive(Drop)]
pub(crate) struct Guide {
    candidates: Vec<u64>,
    rows: u32,
}

/// The next greater number with as many bits set.
fn next_with_as_many(x: u64) -> u64 {
    let low = x & x.wrapping_neg();
    let ripple = x.wrapping_add(low);
    let ones = (x ^ ripple) >> 2;
    ripple | ones.wrapping_shr(low.trailing_zeros())
}

/// Returns the numbers in which half of the `rows` lowest bits, rounded down, are set, the lowest
/// one among them: all that there are, but at most `candidates`.
fn halves(alloc: Global, rows: u32, candidates: usize) -> Result<Vec<u64>, AllocError> {
    let mut halves = Vec::new(alloc);
    let mut half = 1u64
        .wrapping_shl((rows / 2).saturating_sub(1))
        .wrapping_sub(1);
    for _ in 0..candidates {
        if half.wrapping_shr(rows.saturating_sub(1)) != 0 {
            break;
        }
        halves.push(half << 1 | 1)?;
        if half == 0 {
            break;
        }
        half = next_with_as_many(half);
    }
    Ok(halves)
}

/// Returns as few rows as possible that show each pattern of two candidates: each candidate has as
/// many bits set, the first among them.
fn pairs(alloc: Global, candidates: usize) -> Result<Guide, AllocError> {
    for rows in 2u32..63 {
        let halves = halves(alloc, rows, candidates)?;
        if halves.len() >= candidates {
            return Ok(Guide {
                candidates: halves,
                rows,
            });
        }
    }
    Ok(Guide {
        candidates: Vec::new(alloc),
        rows: 0,
    })
}

/// Eleven candidates in twelve rows that show each pattern of three candidates. The squares modulo
/// 11 give them.
const SQUARES: [u64; 11] = [
    0xdc4, 0xb89, 0xf12, 0xe25, 0xc4b, 0x897, 0x92e, 0xa5c, 0xcb8, 0x971, 0xae2,
];

/// Returns rows that show each pattern of three candidates. For more than eleven candidates they
/// are the rows for half of the candidates, used for both halves, followed by the rows for pairs of
/// half of them, which are inverted for the second half.
fn triples(alloc: Global, candidates: usize) -> Result<Guide, AllocError> {
    if candidates <= 11 {
        return Ok(Guide {
            candidates: Vec::from_slice(alloc, &SQUARES)?,
            rows: 12,
        });
    }
    let half = candidates - candidates / 2;
    let first = triples(alloc, half)?;
    let second = pairs(alloc, half)?;
    let all = 1u64.wrapping_shl(second.rows).wrapping_sub(1);
    let mut both = Vec::new(alloc);
    for (three, two) in first.candidates.iter().zip(second.candidates.iter()) {
        both.push(*three | two.wrapping_shl(first.rows))?;
    }
    for (three, two) in first.candidates.iter().zip(second.candidates.iter()) {
        both.push(*three | (!*two & all).wrapping_shl(first.rows))?;
    }
    Ok(Guide {
        candidates: both,
        rows: first.rows.saturating_add(second.rows),
    })
}

/// Whether there are rows for patterns of `strength` candidates.
pub(crate) fn has_rows(strength: usize) -> bool {
    strength == 2 || strength == 3
}

impl Guide {
    /// Returns rows for patterns of `strength` candidates; no rows unless that is 2 or 3.
    pub(crate) fn new(
        alloc: Global,
        candidates: usize,
        strength: usize,
    ) -> Result<Guide, AllocError> {
        match strength {
            2 => pairs(alloc, candidates),
            3 => triples(alloc, candidates),
            _ => Ok(Guide {
                candidates: Vec::new(alloc),
                rows: 0,
            }),
        }
    }

    /// How many rows there are.
    pub(crate) fn rows(&self) -> u32 {
        self.rows
    }

    /// Whether the candidate is on in the row. Every second candidate is inverted, so that a row in
    /// which the bits of all candidates are set doesn't turn all of them on.
    pub(crate) fn is_on(&self, candidate: usize, row: u32) -> bool {
        match self.candidates.get(candidate) {
            Some(rows) => (rows.wrapping_shr(row) & 1 == 1) == (candidate % 2 == 0),
            None => false,
        }
    }
}
