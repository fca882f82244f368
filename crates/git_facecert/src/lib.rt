//! Certificates of faces: what shows that a face is an a-face or none, and the check that believes no one.
//!
//! A certificate is accepted or refused by its own lines alone, each a division or a sum that anyone can make again. That
//! an accepted certificate tells the truth is a law of this crate.
#![tactic(auto)]

mod certificate;
mod face;
mod free;
mod judging;
mod laws;
mod monomial;

pub use certificate::{
    Accepted, CERT_DEGREE, CERT_MEMBERS, CERT_POWER, FaceCert, FaceVerdict, Place,
};
pub use face::{clearing_of, face_power};
pub use judging::accept;
pub use laws::{
    accepted_free_certificates_show_a_faces, accepted_monomial_certificates_show_none,
    certificates_have_an_answer, certificates_have_one_answer,
};

#[cfg(test)]
mod tests;
