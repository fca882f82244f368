//! What calls answer.
use git_machine::Sig;

/// What one probe gives.
#[derive(Drop)]
pub enum Turn {
    /// It published the signature under this number.
    Published(u64),
    /// There is no record for it.
    Full,
    /// The hash word that was found, and the spare that is left.
    Taken(u64, Option<u64>),
}

/// What an offer gives.
#[derive(Clone, Copy, Debug, PartialEq, Eq)]
pub enum Offer {
    /// This call published the signature, with this id.
    New(u32),
    /// The signature is published, with this id.
    Seen(u32),
    /// There is no record for it: more than the frontier's cap are published.
    Full,
}

/// What a take gives.
#[derive(Clone, Copy, Debug, PartialEq, Eq)]
pub enum Taken {
    /// This id is now in the seat's hand.
    Work(u32),
    /// Nothing was found queued, but something was queued or in hand.
    NotYet,
    /// Nothing is queued or in hand any more.
    Quiet,
    /// A caller said that all are to stop.
    Halted,
}

/// What taking a hinted id gives.
#[derive(Clone, Copy, Debug, PartialEq, Eq)]
pub enum Hinted {
    /// This id is now in the seat's hand.
    Work(u32),
    /// It isn't queued.
    Gone,
}

/// What a frontier has at its end.
#[derive(Debug, Drop)]
pub struct Listed {
    /// The published signatures, by their ids.
    pub sigs: Vec<Sig>,
}
