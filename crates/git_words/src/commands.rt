//! The commands, and the limits of their numbers.

/// The most workers.
pub const WORKERS: u32 = 64;
/// The workers where the words don't say.
pub const WORKERS_UNSET: u32 = 4;
/// The most signatures that a table may have to hold.
pub const TABLE: u32 = 65_536;
/// The signatures of a table where the words don't say.
pub const TABLE_UNSET: u32 = 4_096;
/// The most steps of the run of a face.
pub const STEPS: u64 = 20_000_000;
/// The steps of the run of a face where the words don't say.
pub const STEPS_UNSET: u64 = 20_000_000;

/// An input that is made from numbers.
#[derive(Clone, Copy, Debug, PartialEq, Eq)]
pub enum Sample {
    /// `n` points of a plane, from 3 to 16, most of them drawn from a seed below 10^9.
    Points { n: u32, seed: u32 },
    /// The Pluecker relations of the planes in a space of dimension `n`, 4 or 5.
    Plucker { n: u32 },
}

/// What the words ask for, with the numbers that come with it.
#[derive(Clone, Copy, Debug, PartialEq, Eq)]
pub enum Command {
    /// The listing of chambers: the workers, the most signatures, the most steps of each face's run, and whether
    /// the certificates of all full faces follow.
    Fan {
        workers: u32,
        table: u32,
        steps: u64,
        certs: bool,
    },
    /// The certificates of all full faces, and the most steps of each face's run.
    Faces {
        steps: u64,
    },
    /// The text of a sample, or what a run on it finds.
    Make {
        sample: Sample,
        run: bool,
    },
    /// All cones of the chambers, and whether these form a fan: the most signatures, and the most steps of each
    /// face's run.
    AllCones {
        table: u32,
        steps: u64,
    },
    /// Where the weights after an input lie: the most signatures, and the most steps of each face's run.
    Locate {
        table: u32,
        steps: u64,
    },
    /// The bunches of the chambers: the most signatures, and the most steps of each face's run.
    Bunch {
        table: u32,
        steps: u64,
    },
}
