//! Where a weight lies, and why it isn't told.
use git_base::NoMemory;
use git_ints::IVec;
use git_stages::WideAt;

/// Where a weight lies.
#[derive(Debug, Drop)]
pub enum Located {
    /// Outside of the weight cone: the first facet of cone 0 that is negative there.
    Outside(IVec),
    /// In the weight cone.
    At {
        /// The numbers of the cones that hold it, from 0, ascending.
        cones: Vec<u32>,
        /// The extreme vectors of what these cones have in common, in order.
        rays: Vec<IVec>,
        /// How many of the extreme vectors are independent.
        dimension: u32,
        /// The numbers of the listed chambers that hold it, from 1, ascending.
        chambers: Vec<u32>,
    },
}

/// A weight and where it lies.
#[derive(Debug, Drop)]
pub struct LocatedWeight {
    pub weight: IVec,
    pub place: Located,
}

/// Why it isn't told where a weight lies.
#[derive(Clone, Copy, Debug, PartialEq, Eq)]
pub enum LocateFault {
    /// The weight cone holds it, and the sorted distinct facets of the cones that hold it are wide.
    Wide(WideAt),
    /// Memory ran out.
    NoMemory,
}

/// Why it isn't told where several weights lie.
#[derive(Clone, Copy, Debug, PartialEq, Eq)]
pub enum LocateAllFault {
    /// The weight with this number, from 1, is the first that is refused: the weight cone holds it, and the sorted
    /// distinct facets of the cones that hold it are wide.
    Wide { number: usize, at: WideAt },
    /// Memory ran out.
    NoMemory,
}

impl From<NoMemory> for LocateAllFault {
    ghost use Rattle.std.specs.Prelude.{◌≡◌};
    ghost use Rattle.git_locate.specs.declared.located.LocateAllFault.{LocateAllFault};

    ghost from_gives = { λ _ e. e ≡ LocateAllFault.NoMemory };

    fn from(_e: NoMemory) -> LocateAllFault {
        LocateAllFault::NoMemory
    }
}
