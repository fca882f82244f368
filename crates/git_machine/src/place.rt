//! Where a listed id is.

/// The place of a listed id.
#[derive(Clone, Copy, Debug, PartialEq, Eq)]
pub enum Place {
    /// Waiting to be taken.
    Queued,
    /// In the hand of one worker.
    InHand,
    /// Finished: all to which its signature leads is listed.
    Finished,
}
