//! The events of the closure machine.
use crate::Sig;

/// An event of the machine, by a worker, numbered from 0.
#[derive(Debug, Drop)]
pub enum Event {
    /// The worker lists a signature to which the one in its hand leads, and queues it.
    Publish {
        /// The worker.
        worker: u32,
        /// The signature, which isn't listed so far.
        sig: Sig,
    },
    /// The worker finds a signature listed to which the one in its hand leads.
    Meet {
        /// The worker.
        worker: u32,
        /// The id with which it is listed.
        id: u32,
    },
    /// The worker takes a queued id into its hand.
    Take {
        /// The worker, which has no hand.
        worker: u32,
        /// The id.
        id: u32,
    },
    /// The worker is done with the id in its hand: all to which it leads is listed.
    Finish {
        /// The worker.
        worker: u32,
        /// The id.
        id: u32,
    },
    /// Nothing is queued and no worker has a hand.
    Quiet,
}

/// Why an event didn't take place.
#[derive(Clone, Copy, Debug, PartialEq, Eq)]
pub enum StepFault {
    /// The event isn't enabled in this state.
    NotEnabled,
    /// There wasn't enough memory.
    NoMemory,
}
