//! The run.

ghost use Rattle.std.specs.Prelude.{◌≡◌, ◌+◌, ◌<◌, ◌≤◌, ◌^◌, ℕ, [], length, IfOk, IfErr, IfSome, IfNone, IsSome, IsTrue, All, ◌↔◌};
ghost use Rattle.git_algebra.specs.Operations.{total_degree};
ghost use Rattle.git_ideals.specs.Division.{AreNonzero};
ghost use Rattle.git_basis.specs.Run.{HasUnit, after, first_state, polynomials};
ghost use Rattle.git_basis.specs.Units.{IsUnitSum, IsUnitFrom};
ghost use Rattle.git_basis.specs.Stops.{Ends, IsStop};
ghost use Rattle.git_basis.specs.Deriver.{state_of_run};

use crate::derived::Hindrance;
use crate::deriver::Deriver;
use crate::element::RUN_DEGREE;
use crate::fault::BasisFault;
use crate::machine::Machine;
use crate::step::{Step, Trace};
use git_base::NoMemory;
use git_limits::STEPS;
use git_poly::Poly;
use std::alloc::Global;

/// A machine whose run is ended.
#[derive(Drop)]
pub struct Halted {
    machine: Machine,
    steps: Vec<Step>,
}

/// Steps up to the end, or as many as the limit says.
fn run_from(alloc: Global, start: Machine, limit: u64) -> Result<Halted, BasisFault>
    requires few { length start.members + limit < 2 ^ 32 }
    ensures ended { IfOk result (λ e. Ends start limit e.steps.items) }
    ensures machine { IfOk result (λ e. e.machine ≡ after start e.steps.items) }
    ensures stopped { IfErr result (IsStop start limit) }
{
    let mut machine = start;
    let mut steps = Vec::new(alloc);
    for made in 0..limit {
        let Some(step) = machine.next() else {
            return Ok(Halted { machine, steps });
        };
        if machine.is_oversized(step) {
            return Err(BasisFault::Degree {
                trace: Trace { steps },
                step,
            });
        }
        if steps.push(step).is_err() {
            return Err(BasisFault::NoMemory);
        }
        machine = match machine.make(alloc, step) {
            Ok(next) => next,
            Err(_) => return Err(BasisFault::NoMemory),
        };
    }
    if machine.next().is_some() {
        return Err(BasisFault::Steps(Trace { steps }));
    }
    Ok(Halted { machine, steps })
}

/// An ended run.
#[derive(Drop, Debug)]
pub struct Ended {
    /// The members, those of the start first.
    pub members: Vec<Poly>,
    /// One cofactor for each polynomial of the start, the sum of the products being 1. It is there
    /// exactly where a member's lead is 1.
    pub unit: Option<Vec<Poly>>,
    /// The steps.
    pub trace: Trace,
}

/// The members and the unit of a machine.
fn finished(alloc: Global, machine: Machine, steps: Vec<Step>) -> Result<Ended, NoMemory>
    ensures members { IfOk result (λ e. e.members.items ≡ polynomials machine.members) }
    ensures steps { IfOk result (λ e. e.trace.steps ≡ steps) }
    ensures none { IfOk result (λ e. IfNone e.unit (HasUnit machine → ⊥)) }
    ensures some { IfOk result (λ e. IfSome e.unit (λ v. IsUnitFrom machine v.items)) }
{
    let unit = machine.unit(alloc)?;
    let members = machine.member_polynomials(alloc)?;
    Ok(Ended {
        members,
        unit,
        trace: Trace { steps },
    })
}

/// The run with derivations, or none where a product might pass the limit.
fn derive(alloc: Global, start: Deriver, limit: u64) -> Result<Option<Deriver>, BasisFault>
    requires few { length start.start + limit < 2 ^ 32 }
    requires fresh { start.steps ≡ [] }
    ensures ended { IfOk result (λ o. IfSome o (λ m. Ends (first_state start.start) limit m.steps)) }
    ensures start { IfOk result (λ o. IfSome o (λ m. m.start ≡ start.start)) }
    ensures stopped { IfErr result (IsStop (first_state start.start) limit) }
{
    let mut machine = start;
    for count in 0..limit {
        let Some(step) = machine.next() else {
            return Ok(Some(machine));
        };
        machine = match machine.make(alloc, step) {
            Ok(next) => next,
            Err(Hindrance::Degrees) => return Ok(None),
            Err(Hindrance::NoMemory) => return Err(BasisFault::NoMemory),
        };
    }
    if machine.next().is_some() {
        return Err(BasisFault::Steps(Trace {
            steps: machine.into_steps(),
        }));
    }
    Ok(Some(machine))
}

/// The members and the unit of a machine with derivations.
fn finished_derived(alloc: Global, machine: Deriver) -> Result<Ended, NoMemory>
    ensures members { IfOk result (λ e. e.members.items ≡ polynomials (state_of_run machine).members) }
    ensures steps { IfOk result (λ e. e.trace.steps.items ≡ machine.steps) }
    ensures none { IfOk result (λ e. IfNone e.unit (HasUnit (state_of_run machine) → ⊥)) }
    ensures unit { IfOk result (λ e. IfSome e.unit (λ _. HasUnit (state_of_run machine))) }
    ensures some { IfOk result (λ e. IfSome e.unit (λ v. IsUnitSum machine.start v.items)) }
{
    let unit = machine.unit(alloc)?;
    let members = machine.member_polynomials(alloc)?;
    Ok(Ended {
        members,
        unit,
        trace: Trace {
            steps: machine.into_steps(),
        },
    })
}

/// The run with derivations, or none where a product might pass the limit.
fn derived_run(alloc: Global, start: &[Poly], limit: u64) -> Result<Option<Ended>, BasisFault>
    requires nonzero { AreNonzero start.now }
    requires small { All (λ f. total_degree f ≤ RUN_DEGREE) start.now }
    requires few { length start.now < 65536 }
    requires limit { limit ≤ STEPS }
    ensures ended { IfOk result (λ o. IfSome o (λ e. Ends (first_state start.now) limit e.trace.steps.items)) }
    ensures members { IfOk result (λ o. IfSome o (λ e. e.members.items ≡ polynomials (after (first_state start.now) e.trace.steps.items).members)) }
    ensures unit { IfOk result (λ o. IfSome o (λ e. IsSome e.unit ↔ HasUnit (after (first_state start.now) e.trace.steps.items))) }
    ensures sum { IfOk result (λ o. IfSome o (λ e. IfSome e.unit (λ v. IsUnitSum start.now v.items))) }
    ensures stopped { IfErr result (IsStop (first_state start.now) limit) }
{
    let Ok(machine) = Deriver::start(alloc, start) else {
        return Err(BasisFault::NoMemory);
    };
    let Some(halted) = derive(alloc, machine, limit)? else {
        return Ok(None);
    };
    match finished_derived(alloc, halted) {
        Ok(ended) => Ok(Some(ended)),
        Err(_) => Err(BasisFault::NoMemory),
    }
}

/// The same answer as [`run`], by the definition's own state: all cofactors are carried along at each step,
/// which is slow. `run` asks it where a bound of degrees says nothing.
pub fn eager_run(alloc: Global, start: &[Poly], limit: u64) -> Result<Ended, BasisFault>
    requires nonzero { AreNonzero start.now }
    requires small { All (λ f. total_degree f ≤ RUN_DEGREE) start.now }
    requires few { length start.now < 65536 }
    requires limit { limit ≤ STEPS }
    ensures ended { IfOk result (λ e. Ends (first_state start.now) limit e.trace.steps.items) }
    ensures members { IfOk result (λ e. e.members.items ≡ polynomials (after (first_state start.now) e.trace.steps.items).members) }
    ensures unit { IfOk result (λ e. IsSome e.unit ↔ HasUnit (after (first_state start.now) e.trace.steps.items)) }
    ensures sum { IfOk result (λ e. IfSome e.unit (λ v. IsUnitSum start.now v.items)) }
    ensures stopped { IfErr result (IsStop (first_state start.now) limit) }
{
    let Ok(machine) = Machine::start(alloc, start) else {
        return Err(BasisFault::NoMemory);
    };
    let halted = run_from(alloc, machine, limit)?;
    match finished(alloc, halted.machine, halted.steps) {
        Ok(ended) => Ok(ended),
        Err(_) => Err(BasisFault::NoMemory),
    }
}

/// The run of a start: the members are the polynomials of the start, and steps are made up to the
/// end. `Steps` comes where as many steps were made as the limit says and the run isn't ended,
/// `Degree` where the next step is oversized.
pub fn run(alloc: Global, start: &[Poly], limit: u64) -> Result<Ended, BasisFault>
    requires nonzero { AreNonzero start.now }
    requires small { All (λ f. total_degree f ≤ RUN_DEGREE) start.now }
    requires few { length start.now < 65536 }
    requires limit { limit ≤ STEPS }
    ensures ended { IfOk result (λ e. Ends (first_state start.now) limit e.trace.steps.items) }
    ensures members { IfOk result (λ e. e.members.items ≡ polynomials (after (first_state start.now) e.trace.steps.items).members) }
    ensures unit { IfOk result (λ e. IsSome e.unit ↔ HasUnit (after (first_state start.now) e.trace.steps.items)) }
    ensures sum { IfOk result (λ e. IfSome e.unit (λ v. IsUnitSum start.now v.items)) }
    ensures stopped { IfErr result (IsStop (first_state start.now) limit) }
{
    match derived_run(alloc, start, limit)? {
        Some(ended) => Ok(ended),
        None => eager_run(alloc, start, limit),
    }
}
