// Whole numbers as they are written.
use sky::lent::ORIGIN;

/// A whole number written in digits alone; one too large for the machine counts as the largest that fits.
pub(crate) fn whole(word: &str) -> Option<u64> {
    if word.is_empty() || !word.bytes().all(|b| b.is_ascii_digit()) {
        return None;
    }
    // Digits alone fail only where the number does not fit.
    Some(word.parse().unwrap_or(u64::MAX))
}

/// A coordinate with its sign, as it is lent. One out of range is lent as a number that no
/// coordinate is lent as, so that the check of the request turns it away: itself with 65,536 added,
/// or 0 where that does not fit.
pub(crate) fn coordinate(word: &str) -> Option<u32> {
    let coordinate: Option<i32> = word.parse().ok();
    if coordinate.is_none() {
        // A sign and digits fail only where the number does not fit.
        whole(word.strip_prefix(['-', '+']).unwrap_or(word))?;
    }
    let lent = coordinate.and_then(|c| ORIGIN.checked_add_signed(c));
    Some(lent.unwrap_or(0))
}
