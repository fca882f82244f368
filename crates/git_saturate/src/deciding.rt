//! The verdict of a face.

ghost use Rattle.std.specs.Prelude.{◌≡◌, ◌≤◌, ◌↔◌, All, IfErr, IfOk, IsTrue, length};
ghost use Rattle.git_algebra.specs.Operations.{total_degree};
ghost use Rattle.git_ideals.specs.Faces.{IsAFace};
ghost use Rattle.git_basis.specs.Run.{first_state};
ghost use Rattle.git_basis.specs.Stops.{Ends};
ghost use Rattle.git_basis.specs.Units.{IsUnitSum};
ghost use Rattle.git_saturate.specs.Starts.{start_of};
ghost use Rattle.git_saturate.specs.Stops.{IsFaceStop};
ghost use Rattle.git_saturate.specs.Verdicts.{IsCertificate, IsFree};

use crate::decision::Verdict;
use crate::fault::{SatFault, sat_fault};
use crate::starting::start;
use crate::trading::{greatest_extra_of, spread};
use git_base::NoMemory;
use git_basis::{Ended, RUN_DEGREE, run};
use git_facecert::FaceCert;
use git_input::Input;
use git_limits::STEPS;
use git_poly::Poly;
use std::alloc::Global;

/// The monomial certificate that cofactors of 1 give.
fn monomial(
    alloc: Global,
    generators: &[Poly],
    mask: u16,
    unit: &[Poly],
) -> Result<FaceCert, NoMemory>
    requires few { length generators.now ≤ 64 }
    requires unit { IsUnitSum (start_of generators.now mask) unit.now }
    ensures certificate { IfOk result (IsCertificate generators.now mask) }
    ensures kind { IfOk result (λ c. IsFree c → ⊥) }
{
    let others = &unit[..unit.len() - 1];
    let power = greatest_extra_of(others);
    let cofactors = spread(alloc, generators, mask, power, others)?;
    Ok(FaceCert::Monomial { power, cofactors })
}

/// The verdict of a face for some generators.
pub(crate) fn decide(
    alloc: Global,
    generators: &[Poly],
    mask: u16,
    steps: u64,
) -> Result<Verdict, SatFault>
    requires few { length generators.now ≤ 64 }
    requires small { All (λ f. total_degree f ≤ RUN_DEGREE) generators.now }
    requires steps { steps ≤ STEPS }
    ensures free { IfOk result (λ v. IsTrue v.free ↔ IsAFace generators.now mask) }
    ensures certificate { IfOk result (λ v. IsCertificate generators.now mask v.cert) }
    ensures kind { IfOk result (λ v. IsTrue v.free ↔ IsFree v.cert) }
    ensures trace { IfOk result (λ v. Ends (first_state (start_of generators.now mask)) steps v.trace.steps.items) }
    ensures stopped { IfErr result (IsFaceStop (first_state (start_of generators.now mask)) steps) }
{
    let Ok(start) = start(alloc, generators, mask) else {
        return Err(SatFault::NoMemory);
    };
    let Ended {
        members,
        unit,
        trace,
    } = match run(alloc, &start, steps) {
        Ok(ended) => ended,
        Err(fault) => return Err(sat_fault(fault)),
    };
    let Some(cofactors) = unit else {
        return Ok(Verdict {
            free: true,
            cert: FaceCert::Free { basis: members },
            trace,
        });
    };
    match monomial(alloc, generators, mask, &cofactors) {
        Ok(cert) => Ok(Verdict {
            free: false,
            cert,
            trace,
        }),
        Err(NoMemory) => Err(SatFault::NoMemory),
    }
}

/// The verdict of a face of an input: whether it is an a-face, an accepted certificate that fits a
/// block of the certificates' text, and the ended run of the face's start, of at most `steps` steps.
/// `Steps` and `Degree` come exactly where that run stops so.
///
/// The mask has bit `i` for the variable at place `i`.
pub fn verdict(alloc: Global, input: &Input, mask: u16, steps: u64) -> Result<Verdict, SatFault>
    requires { steps ≤ STEPS }
    ensures free { IfOk result (λ v. IsTrue v.free ↔ IsAFace input.now.generators mask) }
    ensures certificate { IfOk result (λ v. IsCertificate input.now.generators mask v.cert) }
    ensures kind { IfOk result (λ v. IsTrue v.free ↔ IsFree v.cert) }
    ensures trace { IfOk result (λ v. Ends (first_state (start_of input.now.generators mask)) steps v.trace.steps.items) }
    ensures stopped { IfErr result (IsFaceStop (first_state (start_of input.now.generators mask)) steps) }
{
    decide(alloc, &input.generators, mask, steps)
}
