//! The memory for the holds of a plan.
use plan_text::Programs;

/// How many bytes to reckon for each place of a party and each binary digit of the number of locks.
///
/// The holds after a step have a new node of 80 bytes for each digit but one, and share the others. If the party announces
/// itself there, it has such holds twice.
const DIGIT_BYTES: usize = 160;

/// Returns how many bytes of the memory are left beside the holds, or `None` if it has no room for them.
pub(crate) fn left_beside_holds(memory: usize, locks: usize, programs: &Programs) -> Option<usize> {
    let digits = usize::BITS.saturating_sub(locks.leading_zeros()) as usize;
    let each = DIGIT_BYTES.checked_mul(digits)?;
    let mut left = memory;
    for row in 0..programs.rows() {
        let places = programs.places(row).len().checked_add(1)?;
        left = left.checked_sub(places.checked_mul(each)?)?;
    }
    Some(left)
}
