//! Monomials worked by hand.

use crate::{DegRevLex, MONO_DEGREE, Mono, MonomialOrder};
use std::cmp::Ordering;

/// The place of the extra variable y.
const Y: usize = 16;

/// The product of powers of variables, each by its place.
fn product(powers: &[(usize, u32)]) -> Option<Mono> {
    let mut found = Mono::one();
    for &(place, e) in powers {
        if place < 17 {
            found = found.times(&Mono::power(place, e)?)?;
        }
    }
    Some(found)
}

/// Takes a value that threads may share and move.
fn shared<T: Send + Sync>(_value: &T) {}

/// The quotient, where there is one.
fn quotient(a: &Mono, by: &Mono) -> Option<Mono> {
    if by.divides(a) {
        Some(a.quotient(by))
    } else {
        None
    }
}

#[test]
fn products_quotients_and_multiples(rt: HostRuntime) {
    let a = product(&[(0, 2), (3, 1), (Y, 4)]).unwrap_or(Mono::one());
    let b = product(&[(0, 1), (5, 3), (Y, 4)]).unwrap_or(Mono::one());
    let multiple = product(&[(0, 2), (3, 1), (5, 3), (Y, 4)]).unwrap_or(Mono::one());
    shared(&a);
    assert_eq!(rt; a.degree(), 7);
    assert_eq!(rt; (a.exponent(3), a.exponent(4), a.exponent(Y)), (1, 0, 4));
    assert_eq!(rt; a.times(&b), product(&[(0, 3), (3, 1), (5, 3), (Y, 8)]));
    assert_eq!(rt; a.lcm(&b), Some(multiple));
    assert_eq!(rt; quotient(&multiple, &b), product(&[(0, 1), (3, 1)]));
    assert_eq!(rt; quotient(&a, &b), None);
}

#[test]
fn degrees_stop_at_the_limit(rt: HostRuntime) {
    let greatest = product(&[(0, MONO_DEGREE)]).unwrap_or(Mono::one());
    let half = product(&[(1, MONO_DEGREE / 2)]).unwrap_or(Mono::one());
    let variable = product(&[(2, 1)]).unwrap_or(Mono::one());
    assert_eq!(rt; greatest.degree(), 67_108_864);
    assert_eq!(rt; Mono::power(0, MONO_DEGREE + 1), None);
    assert_eq!(rt; Mono::power(Y, u32::MAX), None);
    assert_eq!(rt; greatest.times(&variable), None);
    assert_eq!(rt; greatest.lcm(&variable), None);
    assert_eq!(rt; greatest.lcm(&greatest), Some(greatest));
    assert_eq!(rt; half.times(&half), product(&[(1, MONO_DEGREE)]));
}

#[test]
fn the_order_is_degrevlex(rt: HostRuntime) {
    // Ascending, with T(1), T(2), T(3) at places 0, 1, 2.
    let ascending = [
        product(&[]),
        product(&[(Y, 1)]),
        product(&[(2, 1)]),
        product(&[(1, 1)]),
        product(&[(0, 1)]),
        product(&[(Y, 2)]),
        product(&[(0, 1), (Y, 1)]),
        product(&[(2, 2)]),
        product(&[(1, 1), (2, 1)]),
        product(&[(0, 1), (2, 1)]),
        product(&[(1, 2)]),
        product(&[(0, 1), (1, 1)]),
        product(&[(0, 2)]),
        product(&[(Y, 3)]),
    ];
    for (i, a) in ascending.iter().enumerate() {
        for (j, b) in ascending.iter().enumerate() {
            let a = a.unwrap_or(Mono::one());
            let b = b.unwrap_or(Mono::one());
            assert_eq!(rt; DegRevLex.compare(&a, &b), i.cmp(&j), "places {i} and {j}");
            assert_eq!(rt; a == b, i == j, "places {i} and {j}");
            assert_eq!(rt; a.max(b) == a, i >= j, "places {i} and {j}");
        }
    }
    assert_eq!(rt;
        DegRevLex.compare(&Mono::one(), &Mono::one()),
        Ordering::Equal
    );
}
