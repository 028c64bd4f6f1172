// A checksum over answers, in their order.

// The checksum with one more answer.
pub(crate) fn with_answer(sum: u64, answer: Option<u16>) -> u64 {
    let number = answer.map_or(0, |n| u64::from(n) + 1);
    sum.rotate_left(5).wrapping_add(number)
}
