//! The words of a step.

use std::alloc::Global;
use std::str::SplitWhitespace;

/// The words of a step that were not taken yet.
pub type Words<'t> = SplitWhitespace<'t>;

/// Takes a number.
pub fn number(words: &mut Words<'_>) -> Option<u64> {
    words.next()?.parse().ok()
}

/// Takes a number of 32 bits.
pub fn small_number(words: &mut Words<'_>) -> Option<u32> {
    words.next()?.parse().ok()
}

/// Takes numbers up to the next `/` or the end; `-` stands for none.
pub fn numbers(alloc: Global, words: &mut Words<'_>) -> Option<Vec<u32>> {
    let mut taken = Vec::new(alloc);
    for word in words {
        match word {
            "/" => return Some(taken),
            "-" => {}
            _ => taken.push(word.parse().ok()?).ok()?,
        }
    }
    Some(taken)
}
