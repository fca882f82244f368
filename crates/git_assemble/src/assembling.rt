//! The listing of a closed graph.
ghost use Rattle.std.specs.Prelude.{◌≡◌, IfOk, IfErr, length};
ghost use Rattle.git_machine.specs.Signatures.{Signature};
ghost use Rattle.git_chamber.specs.Listings.{IsListing};
ghost use Rattle.git_listing.specs.Views.{listing_of};
ghost use Rattle.git_assemble.specs.Assembling.{AllGood, IsAssembleFault, IsClosure, IsFirstSignature};

use crate::chambers::{chambers_of, sorted};
use crate::fault::AssembleFault;
use crate::numbers::numbers_of;
use crate::sides::listed_all;
use git_chamber::{Cell, FanGraph};
use git_listing::Listing;
use git_machine::Closed;
use git_orbit::{Cones, OrbitCone};
use std::alloc::Global;

/// The number of cones.
fn count(cones: &Cones) -> u32
    ensures { result ≡ length cones.now.list }
{
    let list: &[OrbitCone] = &cones.list;
    list.len() as u32
}

/// The listing of the chambers that are reached from the graph's first signature, in the order of their
/// lists of rays, numbered from 1. `closed` holds exactly the signatures that are reached, each once, in
/// order, with what is told of it; at most 65,536.
///
/// It takes the time of a sort of the chambers by their rays, of a crossing for each facet, and of a search
/// among the signatures for each inner one.
///
/// # Errors
///
/// - `Wide`: the facets of the cones of a signature are wide; the first such signature in order is named.
/// - `NoMemory`: memory ran out.
pub fn assemble(
    alloc: Global,
    graph: &FanGraph,
    closed: &Closed<Cell>,
) -> Result<Listing, AssembleFault>
    requires { (first : Signature) × IsFirstSignature graph.now first × IsClosure graph.now.fan first closed.now.found.items }
    ensures listing { (first : Signature) → IsFirstSignature graph.now first → IfOk result (λ l. IsListing graph.now.fan first (length graph.now.columns) (listing_of l)) }
    ensures good { (first : Signature) → IsFirstSignature graph.now first → IfOk result (λ l. AllGood graph.now.fan first) }
    ensures fault { (first : Signature) → IsFirstSignature graph.now first → IfErr result (λ f. IsAssembleFault graph.now.fan first f) }
{
    let cones = graph.cones();
    let k = cones.k as u32;
    let chambers = match chambers_of(alloc, &closed.found) {
        Ok(chambers) => sorted(chambers),
        Err(fault) => return Err(fault),
    };
    let numbers = numbers_of(alloc, &chambers)?;
    let listed = listed_all(alloc, cones, &numbers, &chambers)?;
    Ok(Listing {
        version: 2,
        k,
        r: graph.r() as u32,
        cones: count(cones),
        chambers: listed,
    })
}
