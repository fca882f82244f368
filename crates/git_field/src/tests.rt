//! Numbers worked by hand.

use crate::{Fp, MODULUS};

/// The number of an integer.
fn number(v: i128) -> Fp {
    Fp::reduce(v)
}

/// Takes a value that threads may share and move.
fn shared<T: Send + Sync>(_value: &T) {}

#[test]
fn every_number_times_its_inverse_is_one(rt: HostRuntime) {
    for v in 1..MODULUS {
        let found = number(i128::from(v));
        let product = found.inverse().map(|inverse| found.mul(inverse).value());
        assert_eq!(rt; product, Some(1), "at {v}");
    }
    assert_eq!(rt; Fp::reduce(0).inverse(), None);
    assert_eq!(rt;
        Fp::reduce(2).inverse().map(|half| half.value()),
        Some(16002)
    );
}

#[test]
fn integers_are_reduced_to_their_rests(rt: HostRuntime) {
    let cases = [
        (0, 0, 0),
        (1, 1, 1),
        (-1, 32002, -1),
        (16001, 16001, 16001),
        (16002, 16002, -16001),
        (32003, 0, 0),
        (-32004, 32002, -1),
        (64007, 1, 1),
    ];
    for (integer, rest, signed) in cases {
        let found = Fp::reduce(integer);
        assert_eq!(rt; found.value(), rest, "rest of {integer}");
        assert_eq!(rt; found.signed(), signed, "signed of {integer}");
        assert_eq!(rt; Fp::new(rest), Some(found), "from {rest}");
    }
    assert_eq!(rt; Fp::new(32003), None);
}

#[test]
fn sums_differences_and_products_wrap(rt: HostRuntime) {
    let (a, b) = (number(20000), number(30000));
    shared(&a);
    assert_eq!(rt; a.add(b).value(), 17997);
    assert_eq!(rt; a.sub(b).value(), 22003);
    assert_eq!(rt; b.sub(a).value(), 10000);
    assert_eq!(rt; a.mul(b).value(), 7756);
    assert_eq!(rt; a.neg().value(), 12003);
    assert_eq!(rt; number(0).neg().value(), 0);
}
