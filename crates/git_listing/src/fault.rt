//! Why bytes are not read as a listing.
ghost use Rattle.std.specs.Prelude.{◌≡◌};
ghost use Rattle.git_listing.specs.Faults.{listing_fault};

use git_lines::FormKind;
use git_strictlines::ReadFault;

/// Why bytes are not read as a listing.
#[derive(Clone, Copy, Debug, PartialEq, Eq)]
pub enum ListingFault {
    /// The first fault, read from left to right. Lines count from 1.
    BadListing { line: u32, kind: FormKind },
    /// Memory ran out.
    NoMemory,
}

impl From<ReadFault> for ListingFault {
    ghost from_gives = { λ f e. e ≡ listing_fault f };

    fn from(fault: ReadFault) -> ListingFault {
        match fault {
            ReadFault::Form(form) => ListingFault::BadListing {
                line: form.line,
                kind: form.kind,
            },
            ReadFault::NoMemory => ListingFault::NoMemory,
        }
    }
}
