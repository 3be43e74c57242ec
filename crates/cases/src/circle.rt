// The pairs of the lists that are made: of modules of 256 to 511, on a circle.
use model::circle_pair;

// Pair i.
pub(crate) fn pair(i: u32) -> (u32, u32) {
    circle_pair(i, 256, 256)
}

// Which of the pairs is a and then b, if they are two modules of the circle.
fn place(a: u32, b: u32) -> Option<u32> {
    let modules = 256..512;
    if !modules.contains(&a) || !modules.contains(&b) {
        return None;
    }
    let between = (b.wrapping_sub(a) % 256).checked_sub(1)?;
    Some(256 * between + a % 256)
}

// Whether one of the first `count` pairs is of these modules, in either order.
pub(crate) fn holds(a: u32, b: u32, count: u32) -> bool {
    place(a, b).is_some_and(|i| i < count) || place(b, a).is_some_and(|i| i < count)
}
