//! Certificates, and what is answered of them.

use git_poly::Poly;

/// The greatest total degree of a polynomial in a certificate, 2^25.
pub const CERT_DEGREE: u32 = 33_554_432;

/// The greatest power of a monomial certificate, 2^20.
pub const CERT_POWER: u32 = 1_048_576;

/// The most members of a free certificate in the text of certificates.
pub const CERT_MEMBERS: usize = 65_536;

/// What shows that a face is an a-face or none.
#[derive(Drop, Debug)]
pub enum FaceCert {
    /// The face is no a-face: this power of the product of its variables is the sum of the products of these cofactors
    /// with the restricted generators, one cofactor for each generator.
    Monomial { power: u32, cofactors: Vec<Poly> },
    /// The face is an a-face: the restricted generators, 1 less the extra variable times the product of the face's
    /// variables, and the S-polynomials of pairs of these members divide by the members to rest 0, and no member has
    /// the lead 1.
    Free { basis: Vec<Poly> },
}

/// A face, by its mask, and its certificate. The face is an a-face where an accepted certificate is free.
#[derive(Drop, Debug)]
pub struct FaceVerdict {
    pub mask: u16,
    pub cert: FaceCert,
}

/// A place in a certificate. Numbers are counted from 1.
#[derive(Clone, Copy, Debug, PartialEq, Eq)]
pub enum Place {
    /// A cofactor or a member.
    Member(u32),
    /// A generator, which does not divide to rest 0.
    Generator(u32),
    /// The clearing polynomial, which does not divide to rest 0.
    Clear,
    /// Two members, whose S-polynomial does not divide to rest 0.
    Pair(u32, u32),
    /// The number of cofactors, the power, or the sum of products.
    Product,
}

/// Whether a certificate is accepted, or the place of its first line that fails.
#[derive(Clone, Copy, Debug, PartialEq, Eq)]
pub enum Accepted {
    Yes,
    No(Place),
}
