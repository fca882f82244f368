//! Values worked by hand.
use super::*;

/// Takes a type that threads may share and move.
fn shared<T: Send + Sync>(_value: &T) {}

#[test]
fn vectors_compute(rt: HostRuntime) {
    let u = IVec::of(&[1, -2, 4]);
    let v = IVec::of(&[3, 0, -1]);
    shared(&u);
    assert_eq!(rt; u.len(), 3);
    assert_eq!(rt; sum(product(3, -4), 5), -7);
    assert_eq!(rt; u.entry(1), -2);
    assert_eq!(rt; u.dot(&v), -1);
    assert_eq!(rt; u.plus(&v), IVec::of(&[4, -2, 3]));
    assert_eq!(rt; IVec::combine(2, &u, -1, &v), IVec::of(&[-1, -4, 9]));
    assert_eq!(rt; IVec::of(&[-6, 0, 9]).primitive(), IVec::of(&[-2, 0, 3]));
    assert_eq!(rt; IVec::of(&[0, 0]).primitive(), IVec::of(&[0, 0]));
    assert_eq!(rt; IVec::unit(3, 1), IVec::of(&[0, 1, 0]));
    assert!(rt; IVec::of(&[0, 5]) < IVec::of(&[1, -5]));
}
