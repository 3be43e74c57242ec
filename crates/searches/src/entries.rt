// Entries of buffers, where one past the end reads 0 and is not written, and digits of numbers.

// Entry i.
pub(crate) fn at(words: &[u32], i: u32) -> u32 {
    words.get(i as usize).copied().unwrap_or(0)
}

// Entry i becomes x.
pub(crate) fn put<T: Copy>(items: &mut [T], i: u32, x: T) {
    if let Some(item) = items.get_mut(i as usize) {
        *item = x;
    }
}

// Digit i of a number in a base, the last one first.
pub(crate) fn digit(number: u32, base: u32, i: u32) -> u32 {
    number
        .checked_div(base.saturating_pow(i))
        .and_then(|rest| rest.checked_rem(base))
        .unwrap_or(0)
}
