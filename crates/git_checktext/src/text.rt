//! What a check text says.
use git_facecert::FaceVerdict;
use git_input::Input;
use git_listing::Listing;

/// An input, a listing and certificates, with the numbers of lines that stand before the listing and before the
/// certificates in the text.
#[derive(Drop)]
pub struct CheckText {
    pub input: Input,
    pub listing: Listing,
    pub certs: Vec<FaceVerdict>,
    pub before_listing: u64,
    pub before_certs: u64,
}
