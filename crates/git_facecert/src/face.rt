//! The product of a face's variables.
ghost use Rattle.std.specs.Prelude.{◌≡◌, ◌≤◌, ◌^◌, IfOk};
ghost use Rattle.git_algebra.specs.Exponents.{power};
ghost use Rattle.git_algebra.specs.Operations.{total_degree};
ghost use Rattle.git_ideals.specs.Ideals.{clearing};
ghost use Rattle.git_ideals.specs.Faces.{face_monomial};

use crate::certificate::CERT_POWER;
use git_base::NoMemory;
use git_bits::has_bit;
use git_field::Fp;
use git_mono::Mono;
use git_poly::Poly;
use std::alloc::Global;

/// A power of the product of the face's variables, the exponent being at most 2^20.
pub fn face_power(mask: u16, exponent: u32) -> Mono
    requires { exponent ≤ CERT_POWER }
    ensures { result ≡ power (face_monomial mask) exponent }
{
    let mut product = Mono::one();
    for i in 0..16 {
        if has_bit(u64::from(mask), i as u32) {
            let variable = Mono::power(i, exponent).unwrap();
            product = product.times(&variable).unwrap();
        }
    }
    product
}

/// 1 less the extra variable times the product of the face's variables.
pub fn clearing_of(alloc: Global, mask: u16) -> Result<Poly, NoMemory>
    ensures { IfOk result (λ p. p ≡ clearing (face_monomial mask)) }
{
    let extra = Mono::power(16, 1).unwrap();
    let product = extra.times(&face_power(mask, 1)).unwrap();
    let one = Poly::term(alloc, Mono::one(), Fp::reduce(1))?;
    let other = Poly::term(alloc, product, Fp::reduce(1))?;
    one.sub(alloc, &other)
}
