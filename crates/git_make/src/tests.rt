//! Samples as texts, worked by hand.
use super::*;
use git_text::write_input;
use std::alloc::Global;
use std::test::*;

/// Whether an input is written as this text.
fn is_written(alloc: Global, input: &git_input::Input, text: &str) -> bool {
    match write_input(alloc, input) {
        Ok(written) => written.as_slice() == text.as_bytes(),
        Err(_) => false,
    }
}

#[test]
fn four_points_are_written(rt: HostRuntime) {
    let wanted = "gitfan 1\ngrading 3 4\n1 1 1 1\n0 63 0 44\n0 0 63 14\nideal 0\nend\n";
    assert!(rt; points(rt.alloc(), 4, 7).is_ok_and(|input| is_written(rt.alloc(), &input, wanted)));
}

#[test]
fn three_points_are_the_corners(rt: HostRuntime) {
    let wanted = "gitfan 1\ngrading 3 3\n1 1 1\n0 63 0\n0 0 63\nideal 0\nend\n";
    assert!(rt;
        points(rt.alloc(), 3, 999_999_999).is_ok_and(|input| is_written(rt.alloc(), &input, wanted))
    );
}

#[test]
fn planes_in_dimension_four_are_written(rt: HostRuntime) {
    let wanted =
        "gitfan 1\ngrading 4 6\n1 1 1 0 0 0\n1 0 0 1 1 0\n0 1 0 1 0 1\n0 0 1 0 1 1\nideal 1\nT(3)*T(4)-T(2)*T(5)+T(1)*T(6)\nend\n";
    assert!(rt; plucker(rt.alloc(), 4).is_ok_and(|input| is_written(rt.alloc(), &input, wanted)));
}

#[test]
fn planes_in_dimension_five_have_five_relations(rt: HostRuntime) {
    let wanted =
        "gitfan 1\ngrading 5 10\n1 1 1 1 0 0 0 0 0 0\n1 0 0 0 1 1 1 0 0 0\n0 1 0 0 1 0 0 1 1 0\n0 0 1 0 0 1 0 1 0 1\n0 0 0 1 0 0 1 0 1 1\nideal 5\nT(3)*T(5)-T(2)*T(6)+T(1)*T(8)\nT(4)*T(5)-T(2)*T(7)+T(1)*T(9)\nT(4)*T(6)-T(3)*T(7)+T(1)*T(10)\nT(4)*T(8)-T(3)*T(9)+T(2)*T(10)\nT(7)*T(8)-T(6)*T(9)+T(5)*T(10)\nend\n";
    assert!(rt; plucker(rt.alloc(), 5).is_ok_and(|input| is_written(rt.alloc(), &input, wanted)));
}
