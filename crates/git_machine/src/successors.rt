//! Graphs of signatures.
ghost use Rattle.std.specs.Prelude.{◌≡◌, ℕ, List, IfOk, length};
ghost use Rattle.std.specs.List.{All};
ghost use Rattle.git_machine.specs.Signatures.{Signature};
ghost use Rattle.git_machine.specs.declared.successors.CloseFault.TheVariants.{NoMemory};

use crate::Sig;
use git_base::NoMemory;
use std::alloc::{AllocError, Global};

/// A graph whose nodes are signatures of one width. Each legal signature leads to a list of others, its
/// next, and has payloads.
pub trait Successors {
    /// What a graph tells of a signature beside those to which it leads.
    type Payload;

    /// The signatures that are nodes.
    ghost legal: { Self → Signature → Type 0 };

    /// A signature and the list of those to which it leads.
    ghost next: { Self → Signature → List Signature → Type 0 };

    /// A signature and what may be told of it.
    ghost payload: { Self → Signature → Self.Payload → Type 0 };

    /// The width of the legal signatures.
    ghost words: { Self → ℕ };

    /// The width of the legal signatures.
    fn width(&self) -> usize
        ensures { result ≡ words self.now };

    /// The signatures to which a legal one leads, and what is told of it.
    fn expand(&self, alloc: Global, sig: &Sig) -> Result<Expansion<Self::Payload>, NoMemory>
        requires { legal self.now sig.now }
        ensures next { IfOk result (λ e. next self.now sig.now e.next.items) }
        ensures payload { IfOk result (λ e. payload self.now sig.now e.payload) };

    /// A legal signature has the graph's width.
    ghost has_width: { (g : Self) (s : Signature) → legal g s → length s ≡ words g };

    /// It leads to one list.
    ghost one_next: { (g : Self) (s : Signature) (a b : List Signature) → legal g s → next g s a → next g s b → a ≡ b };

    /// The signatures to which it leads are legal.
    ghost next_legal: { (g : Self) (s : Signature) (a : List Signature) → legal g s → next g s a → All (legal g) a };
}

/// The signatures to which one leads, and what is told of it.
#[derive(Debug, Drop)]
pub struct Expansion<P> {
    /// Those to which it leads.
    pub next: Vec<Sig>,
    /// What is told of it.
    pub payload: P,
}

/// A signature that was found, with what its graph tells of it.
#[derive(Debug, Drop)]
pub struct Found<P> {
    /// The signature.
    pub sig: Sig,
    /// What is told of it.
    pub payload: P,
}

/// All signatures that are reached from a first one, in their order.
#[derive(Debug, Drop)]
pub struct Closed<P> {
    /// The signatures, each with what is told of it.
    pub found: Vec<Found<P>>,
}

/// Why a closure wasn't completed.
#[derive(Clone, Copy, Debug, PartialEq, Eq)]
pub enum CloseFault {
    /// More signatures are reached than were to be listed.
    Full,
    /// There wasn't enough memory.
    NoMemory,
}

impl From<git_base::NoMemory> for CloseFault {
    ghost from_gives = { λ _ e. e ≡ NoMemory };

    fn from(_fault: git_base::NoMemory) -> Self {
        CloseFault::NoMemory
    }
}

impl From<AllocError> for CloseFault {
    ghost from_gives = { λ _ e. e ≡ NoMemory };

    fn from(_error: AllocError) -> Self {
        CloseFault::NoMemory
    }
}
