//! The start of a face's run.

ghost use Rattle.std.specs.Prelude.{◌≡◌, IfOk};
ghost use Rattle.git_saturate.specs.Starts.{start_of};

use git_base::NoMemory;
use git_facecert::clearing_of;
use git_poly::Poly;
use std::alloc::Global;

/// The nonzero restricted generators, and last the clearing polynomial.
pub fn start(alloc: Global, generators: &[Poly], mask: u16) -> Result<Vec<Poly>, NoMemory>
    ensures { IfOk result (λ v. v.items ≡ start_of generators.now mask) }
{
    let mut out = Vec::new(alloc);
    for f in generators {
        let restricted = f.restrict(alloc, mask)?;
        if !restricted.is_zero() {
            out.push(restricted)?;
        }
    }
    out.push(clearing_of(alloc, mask)?)?;
    Ok(out)
}
