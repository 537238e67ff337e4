//! What a call answers, as the tables name it.
use fabric::Refusal;

/// The number of the refusal, or 0 where the call is not refused.
pub(crate) fn number<T: Drop>(answer: Result<T, Refusal>) -> u8 {
    answer.err().map_or(0, |refusal| refusal.number())
}
