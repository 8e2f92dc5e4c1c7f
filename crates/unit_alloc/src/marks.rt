//! The search in a bitmap beside one in an array of truth values, over many bitmaps.

use crate::clear::first_clear;
use cf_types::Memory;
use std::alloc::Global;
use std::test::*;

// Marks which of the numbers from the first one on are in a list.
fn mark_numbers(numbers: &[u32], first: u32, marks: &mut [bool]) {
    for number in numbers {
        if first <= *number {
            if let Some(mark) = marks.get_mut((*number - first) as usize) {
                *mark = true;
            }
        }
    }
}

// The least number from the first one on that is not in a list of at most 1,024.
fn least_free(numbers: &[u32], first: u32) -> Option<u32> {
    let mut marks = [false; 1025];
    mark_numbers(numbers, first, &mut marks);
    for after in 0..1025u32 {
        if marks.get(after as usize).copied() == Some(false) {
            return first.checked_add(after);
        }
    }
    None
}

// A word of which few bits are clear, or none.
fn word_by(state: u64) -> u64 {
    if state.is_multiple_of(3) {
        u64::MAX
    } else {
        state | state.rotate_left(21) | state.rotate_left(42)
    }
}

// The units of a bitmap as numbers.
fn numbers_of(alloc: Global, words: &[u64]) -> Result<Vec<u32>, Memory> {
    let mut numbers = Vec::new(alloc);
    let mut unit: u32 = 0;
    for word in words {
        for bit in 0..64u32 {
            if (word >> bit) & 1 == 1 {
                numbers.push(unit)?;
            }
            unit = unit.saturating_add(1);
        }
    }
    Ok(numbers)
}

// Whether both find the same unit from the first one on.
fn agree_from(words: &[u64], numbers: &[u32], first: u32) -> bool {
    if words.len() > 16 {
        return false;
    }
    Some(first_clear(words, u64::from(first))) == least_free(numbers, first).map(u64::from)
}

// Whether both find the same units in a bitmap of so many words.
fn agree(alloc: Global, count: u64, seed: u64) -> Result<bool, Memory> {
    let mut words = Vec::new(alloc);
    let mut state = seed;
    for _place in 0..count {
        state = state
            .wrapping_mul(6_364_136_223_846_793_005)
            .wrapping_add(1_442_695_040_888_963_407);
        words.push(word_by(state))?;
    }
    let numbers = numbers_of(alloc, &words)?;
    let firsts = [0, 1, 63, 64, 65, 200, 511, 1_023, 1_024, 65_536];
    Ok(
        firsts
            .iter()
            .all(|first| agree_from(&words, &numbers, *first)),
    )
}

#[test]
fn words_find_what_truth_values_find(rt: HostRuntime) -> Result<(), Fail> {
    for seed in 0..1_000u64 {
        let is_alike = agree(rt.alloc(), seed % 17, seed)?;
        assert!(rt; is_alike);
    }
    Ok(())
}
