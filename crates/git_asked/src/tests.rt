//! Which of two findings is given.
use super::*;
use std::test::*;

/// A finding, by its reason and its line.
fn at(reason: Reason, line: u32) -> Option<Finding> {
    Some(Finding { reason, line })
}

#[test]
fn the_earlier_finding_is_given(rt: HostRuntime) {
    let shape = at(Reason::Shape, 2);
    let weight = at(Reason::Weight, 9);
    let rows = [
        ("none of two", None, None, None),
        ("the first alone", weight, None, weight),
        ("the second alone", None, weight, weight),
        (
            "earlier reason, later line",
            weight,
            at(Reason::Rays, 30),
            at(Reason::Rays, 30),
        ),
        (
            "later reason, earlier line",
            shape,
            at(Reason::NotReached, 1),
            shape,
        ),
        (
            "one reason, earlier line",
            weight,
            at(Reason::Weight, 8),
            at(Reason::Weight, 8),
        ),
        (
            "one reason, later line",
            weight,
            at(Reason::Weight, 10),
            weight,
        ),
        ("twice the same", shape, shape, shape),
    ];
    for (_name, a, b, given) in rows {
        assert!(rt; earlier(a, b) == given);
    }
}
