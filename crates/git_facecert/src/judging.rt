//! The check of a certificate.
ghost use Rattle.std.specs.Prelude.{◌≤◌, ◌<◌, ◌^◌, IfOk, All, length};
ghost use Rattle.git_algebra.specs.Operations.{total_degree};
ghost use Rattle.git_facecert.specs.Answers.{IsAnswer, IsOfFewLines};

use crate::certificate::{Accepted, FaceCert};
use crate::free::accept_free;
use crate::monomial::accept_monomial;
use git_base::NoMemory;
use git_input::Input;
use git_poly::Poly;
use std::alloc::Global;

/// Whether a certificate of the face is accepted for these generators, or the place of its first line that fails.
pub(crate) fn accept_for(
    alloc: Global,
    generators: &[Poly],
    mask: u16,
    cert: &FaceCert,
) -> Result<Accepted, NoMemory>
    requires few { IsOfFewLines cert.now }
    requires few_generators { length generators.now < 2 ^ 32 }
    requires generators { All (λ f. total_degree f ≤ 2 ^ 25) generators.now }
    ensures { IfOk result (λ a. IsAnswer generators.now mask cert.now a) }
{
    match cert {
        FaceCert::Monomial { power, cofactors } => {
            accept_monomial(alloc, generators, mask, *power, cofactors)
        }
        FaceCert::Free { basis } => accept_free(alloc, generators, mask, basis),
    }
}

/// Whether a certificate of the face is accepted for the input's generators, or the place of its first line that fails.
///
/// The mask has bit `i` for the variable at place `i`. There are fewer than 2^32 cofactors or members.
pub fn accept(
    alloc: Global,
    input: &Input,
    mask: u16,
    cert: &FaceCert,
) -> Result<Accepted, NoMemory>
    requires { IsOfFewLines cert.now }
    ensures { IfOk result (λ a. IsAnswer input.now.generators mask cert.now a) }
{
    accept_for(alloc, &input.generators, mask, cert)
}
