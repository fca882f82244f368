//! Faces worked by hand.
use super::*;
use git_base::NoMemory;
use git_facecert::{Accepted, FaceCert, accept};
use git_input::Input;
use git_limits::STEPS;
use git_text::read_input;
use std::alloc::Global;
use std::marker::Sync;
use std::test::*;
use std::thread::Threads;

/// The planes in four-space.
const FOUR: &[u8] = b"gitfan 1\n\
grading 4 6\n\
1 1 1 0 0 0\n\
1 0 0 1 1 0\n\
0 1 0 1 0 1\n\
0 0 1 0 1 1\n\
ideal 1\n\
T(3)*T(4)-T(2)*T(5)+T(1)*T(6)\n\
end\n";

/// The planes in five-space.
const FIVE: &[u8] = b"gitfan 1\n\
grading 5 10\n\
1 1 1 1 0 0 0 0 0 0\n\
1 0 0 0 1 1 1 0 0 0\n\
0 1 0 0 1 0 0 1 1 0\n\
0 0 1 0 0 1 0 1 0 1\n\
0 0 0 1 0 0 1 0 1 1\n\
ideal 5\n\
T(3)*T(5)-T(2)*T(6)+T(1)*T(8)\n\
T(4)*T(5)-T(2)*T(7)+T(1)*T(9)\n\
T(4)*T(6)-T(3)*T(7)+T(1)*T(10)\n\
T(4)*T(8)-T(3)*T(9)+T(2)*T(10)\n\
T(7)*T(8)-T(6)*T(9)+T(5)*T(10)\n\
end\n";

/// Columns are the edges of a graph of four points. A face is full where its edges reach all points and
/// no part of them goes round in even circles alone: all of four edges and more but the three squares.
const FACES: [u16; 19] = [
    63, 62, 61, 60, 59, 58, 57, 55, 54, 53, 47, 46, 43, 39, 31, 29, 27, 23, 15,
];

/// The masks of a list, steps, and whether each is an a-face, or the first whose run needs more steps.
type Case = (
    &'static [u8],
    &'static [u16],
    u64,
    Result<&'static [bool], u16>,
);

const CASES: [Case; 9] = [
    (
        FOUR,
        &[63, 62, 61, 60, 59, 58, 57, 55, 47, 46, 31, 15],
        1000,
        Ok(&[
            true, true, true, false, true, false, false, true, true, false, true, false,
        ]),
    ),
    (FOUR, &[13, 7, 63, 7], 1000, Ok(&[false, true, true, true])),
    (FOUR, &[7], 1, Ok(&[true])),
    (FOUR, &[], 1, Ok(&[])),
    (FOUR, &[7, 63, 61], 1, Err(63)),
    (FOUR, &[7, 61, 63], 1, Err(61)),
    // The run of the first takes longer than the others, which stop after as many steps.
    (FIVE, &[1023, 1022, 1021, 1019, 1015], 100, Err(1023)),
    (FIVE, &[1015, 1019, 1021, 1022, 1023], 100, Err(1015)),
    (FIVE, &[15, 1023, 1022], 100, Err(1023)),
];

fn input(alloc: Global, text: &[u8]) -> Option<Input> {
    if text.len() > 4000 {
        return None;
    }
    read_input(alloc, text).ok()
}

/// Takes a type that threads may share and move.
fn shared<T: Send + Sync + Drop>(_value: Option<T>) {}

/// Whether the verdicts are of these masks, and free as said.
fn are_verdicts(found: &[FaceVerdict], masks: &[u16], free: &[bool]) -> bool {
    if found.len() != masks.len() || found.len() != free.len() {
        return false;
    }
    for (v, (mask, free)) in found.iter().zip(masks.iter().zip(free)) {
        let is_free = match v.cert {
            FaceCert::Free { .. } => true,
            FaceCert::Monomial { .. } => false,
        };
        if v.mask != *mask || is_free != *free {
            return false;
        }
    }
    true
}

/// Whether the verdicts of a case are as it says.
fn is_met<R: Threads + Sync>(rt: &R, alloc: Global, case: &Case) -> Option<bool> {
    let (text, masks, steps, expected) = *case;
    if steps > STEPS {
        return None;
    }
    let input = input(alloc, text)?;
    Some(
        match (verdicts(rt, alloc, &input, masks, steps), expected) {
            (Ok(found), Ok(free)) => are_verdicts(&found, masks, free),
            (Err(FacesFault::Steps { mask, .. }), Err(wanted)) => mask == wanted,
            _ => false,
        },
    )
}

/// Whether the check of certificates accepts that of a verdict, of at most 100 lines.
fn is_accepted(alloc: Global, input: &Input, v: &FaceVerdict) -> bool {
    let lines = match &v.cert {
        FaceCert::Monomial { cofactors, .. } => cofactors.len(),
        FaceCert::Free { basis } => basis.len(),
    };
    if 100 < lines {
        return false;
    }
    match accept(alloc, input, v.mask, &v.cert) {
        Ok(answer) => answer == Accepted::Yes,
        Err(NoMemory) => false,
    }
}

#[test]
fn certificates_of_all_faces_are_accepted(rt: HostRuntime) -> Result<(), Fail> {
    let alloc = rt.alloc();
    let input = input(alloc, FOUR).ok_or(NoMemory)?;
    let masks: [u16; 64] = std::array::from_fn(|i| i as u16);
    let found = verdicts(&rt, alloc, &input, &masks, 1000)
        .ok()
        .ok_or("verdicts")?;
    assert_eq!(rt; found.len(), 64);
    for v in &found {
        assert!(rt; is_accepted(alloc, &input, v), "face {}", v.mask);
    }
    Ok(())
}

#[test]
fn faces_of_planes_in_four_space(rt: HostRuntime) -> Result<(), Fail> {
    let alloc = rt.alloc();
    shared::<FacesFault>(None);
    let input = input(alloc, FOUR).ok_or(NoMemory)?;
    let faces = full_faces(alloc, &input.grading)?;
    assert_eq!(rt; faces.as_slice(), FACES.as_slice());
    Ok(())
}

#[test]
fn verdicts_come_in_order(rt: HostRuntime) -> Result<(), Fail> {
    for (i, case) in CASES.iter().enumerate() {
        assert_eq!(rt; is_met(&rt, rt.alloc(), case), Some(true), "case {i}");
    }
    Ok(())
}
