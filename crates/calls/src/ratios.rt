// P/Q as a float by long division, rounded once.

// The next 32 binary digits of rest / q, which is below 1. The cast is proved to lose nothing: there is no From of u64 for u32.
fn binary_digits(rest: u64, q: u64) -> u32 {
    if q == 0 {
        return 0;
    }
    (((rest << 32) / q) % 4294967296) as u32
}

// What is left of rest / q behind them.
fn behind(rest: u64, q: u64) -> u64 {
    if q == 0 { 0 } else { (rest << 32) % q }
}

// The last digit is 1 where something is left, so that a sum of digits is rounded as the whole would be.
fn sticky(rest: u64, last: u32) -> u32 {
    last | u32::from(rest != 0)
}

// p / q: the whole part, and 64 binary digits behind the point; the sum of the three is rounded once. 0 where q is 0.
pub(crate) fn quotient(p: u32, q: u32) -> f64 {
    if q == 0 {
        return 0.0;
    }
    let by = u64::from(q);
    let rest = u64::from(p % q);
    let more = behind(rest, by);
    let last = sticky(behind(more, by), binary_digits(more, by));
    let whole = f64::from(p / q) + f64::from(binary_digits(rest, by)) / 4294967296.0;
    whole + f64::from(last) / 18446744073709551616.0
}
