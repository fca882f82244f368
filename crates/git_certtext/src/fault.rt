//! Why bytes are not read as certificates.
ghost use Rattle.std.specs.Prelude.{◌≡◌};
ghost use Rattle.git_certtext.specs.Faults.{certs_fault};

use git_lines::FormKind;
use git_strictlines::ReadFault;

/// Why bytes are not read as certificates.
#[derive(Clone, Copy, Debug, PartialEq, Eq)]
pub enum CertsFault {
    /// The first fault, read from left to right. Lines count from 1.
    BadCerts { line: u32, kind: FormKind },
    /// Memory ran out.
    NoMemory,
}

impl From<ReadFault> for CertsFault {
    ghost from_gives = { λ f e. e ≡ certs_fault f };

    fn from(fault: ReadFault) -> CertsFault {
        match fault {
            ReadFault::Form(form) => CertsFault::BadCerts {
                line: form.line,
                kind: form.kind,
            },
            ReadFault::NoMemory => CertsFault::NoMemory,
        }
    }
}
