//! The monomial orders.

ghost use Rattle.std.specs.Prelude.{◌≡◌, ◌<◌, ◌≤◌, ℕ};
ghost use Rattle.std.specs.Ordering.{nat_cmp};
ghost use Rattle.git_algebra.specs.Exponents.{Exponents, times, one, degree};
ghost use Rattle.git_algebra.specs.Order.{rank as degrevlex_rank};
ghost use Rattle.git_algebra.proofs.Ranks.{rank_injective, rank-times, rank-one_least, rank-degree};

use crate::mono::Mono;
use std::cmp::Ordering;

/// An order of monomials: that of a rank, a natural number for each.
///
/// A smaller monomial has a smaller rank, so no sequence of monomials falls for ever.
pub trait MonomialOrder {
    /// The rank of a monomial.
    ghost rank: { Self → Exponents → ℕ };

    /// Compares two monomials.
    fn compare(&self, a: &Mono, b: &Mono) -> Ordering
        ensures { result ≡ nat_cmp (rank self.now a.now) (rank self.now b.now) };

    /// Monomials of one rank are one.
    ghost total: { (s : Self) (a b : Exponents) → rank s a ≡ rank s b → a ≡ b };

    /// 1 is least.
    ghost least: { (s : Self) (a : Exponents) → rank s one ≤ rank s a };

    /// Products keep the order.
    ghost kept: { (s : Self) (c a b : Exponents) → rank s a < rank s b → rank s (times c a) < rank s (times c b) };

    /// A greater total degree is greater.
    ghost graded: { (s : Self) (a b : Exponents) → degree a < degree b → rank s a < rank s b };
}

/// The graded reverse lexicographic order, with T(1) > .. > T(16) > y.
///
/// At equal total degree the smaller exponent at the last place that differs makes the greater monomial.
#[derive(Clone, Copy, Debug)]
pub struct DegRevLex;

impl MonomialOrder for DegRevLex {
    ghost rank = { λ _ a. degrevlex_rank a };

    ghost total = { λ _ a b e. rank_injective a b e };

    ghost least = { λ _ a. rank-one_least a };

    ghost kept = { λ _ c a b h. rank-times c a b h };

    ghost graded = { λ _ a b h. rank-degree a b h };

    fn compare(&self, a: &Mono, b: &Mono) -> Ordering {
        let by_degree = a.degree().cmp(&b.degree());
        if by_degree.is_ne() {
            return by_degree;
        }
        for i in (0..17).rev() {
            let x = a.exponent(i);
            let y = b.exponent(i);
            if x != y {
                return y.cmp(&x);
            }
        }
        Ordering::Equal
    }
}

impl PartialEq for Mono {
    ghost use Rattle.std.specs.Prelude.{nat_eq};
    ghost use Rattle.std.specs.Ordering.{on};
    ghost use Rattle.std.proofs.Common.{rules};
    ghost use Rattle.std.specs.Cmp.Rules.{comparing};
    ghost use Rattle.git_algebra.specs.Order.{rank as degrevlex_rank};

    ghost eq = { on degrevlex_rank nat_eq };

    ghost laws = { Prim.search (comparing, rules) };

    fn eq(&self, other: &Mono) -> bool {
        DegRevLex.compare(self, other).is_eq()
    }
}

impl Eq for Mono {
    ghost use Rattle.std.proofs.Common.{rules};
    ghost use Rattle.std.specs.Cmp.Rules.{comparing};

    ghost laws = { Prim.search (comparing, rules) };
}

impl PartialOrd for Mono {
    ghost use Rattle.std.specs.Ordering.{on, nat_cmp, as_partial_cmp};
    ghost use Rattle.std.proofs.Common.{rules};
    ghost use Rattle.std.specs.Cmp.{partial_order_from_own_ties};
    ghost use Rattle.std.specs.Cmp.Rules.{comparing};
    ghost use Rattle.git_algebra.specs.Order.{rank as degrevlex_rank};

    ghost partial_cmp = { as_partial_cmp (on degrevlex_rank nat_cmp) };

    ghost laws = { partial_order_from_own_ties (Prim.search (comparing, rules)) (Prim.search (comparing, rules)) };

    fn partial_cmp(&self, other: &Mono) -> Option<Ordering> {
        Some(self.cmp(other))
    }
}

impl Ord for Mono {
    ghost use Rattle.std.specs.Ordering.{on, nat_cmp};
    ghost use Rattle.std.proofs.Common.{rules};
    ghost use Rattle.std.specs.Cmp.Rules.{comparing};
    ghost use Rattle.git_algebra.specs.Order.{rank as degrevlex_rank};

    ghost cmp = { on degrevlex_rank nat_cmp };

    ghost total = { Prim.search (comparing, rules) };

    ghost matches_partial_cmp = { Prim.search (comparing, rules) };

    ghost matches_eq = { Prim.search (comparing, rules) };

    fn cmp(&self, other: &Mono) -> Ordering {
        DegRevLex.compare(self, other)
    }
}
