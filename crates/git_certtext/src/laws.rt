//! Laws of the definitions, each the contract of an empty function.
ghost use Rattle.git_certtext.specs.Laws.{PrintedCertificatesAreReadBack, CertificatesReadArePrinted};

/// Certificates within the limits that are printed are read back.
pub fn printed_certificates_are_read_back()
    ensures { PrintedCertificatesAreReadBack }
{}

/// What is read as certificates is their text, and they are within the limits.
pub fn certificates_read_are_printed()
    ensures { CertificatesReadArePrinted }
{}
