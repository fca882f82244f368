//! Hints that members give and take.
use crate::Hints;
use std::test::Fail;

/// Only for what may go to another thread.
fn sent<T: Send + Drop>(_value: Option<T>) {}

#[test]
fn hints_go_to_another_thread(_rt: HostRuntime) -> Result<(), Fail> {
    sent::<Hints>(None);
    Ok(())
}

/// Members of one room, which push their number of hints, then take turns, and what each turn gives.
type Row = (
    usize,
    &'static [(usize, u32)],
    &'static [(usize, Option<u32>)],
);

const ROWS: &[Row] = &[
    // alone: first in, first out
    (
        1,
        &[(0, 3), (0, 0), (0, 7)],
        &[(0, Some(3)), (0, Some(0)), (0, Some(7)), (0, None)],
    ),
    // its own first, then the other's from the front
    (
        2,
        &[(0, 1), (0, 2), (1, 4)],
        &[
            (1, Some(4)),
            (1, Some(1)),
            (0, Some(2)),
            (0, None),
            (1, None),
        ],
    ),
    // the member after it first, and each in turn
    (
        3,
        &[(0, 5), (2, 6)],
        &[(1, Some(6)), (1, Some(5)), (1, None)],
    ),
];

fn is_row(alloc: std::alloc::Global, row: &Row) -> Result<bool, Fail> {
    let &(members, pushes, turns) = row;
    if members == 0 || members > 64 {
        return Ok(false);
    }
    let mut all = Hints::new(alloc, members, 8)?;
    for &(giver, id) in pushes {
        if id >= 8 || giver >= all.len() || !all[giver].push(id) {
            return Ok(false);
        }
    }
    for &(taker, hint) in turns {
        if taker >= all.len() || all[taker].next() != hint {
            return Ok(false);
        }
    }
    Ok(true)
}

#[test]
fn members_give_and_take(rt: HostRuntime) -> Result<(), Fail> {
    for (i, row) in ROWS.iter().enumerate() {
        assert!(rt; is_row(rt.alloc(), row)?, "row {i}");
    }
    Ok(())
}

/// A deque that begins with 1,024 slots takes more than these.
#[test]
fn a_deque_grows(rt: HostRuntime) -> Result<(), Fail> {
    let mut all = Hints::new(rt.alloc(), 1, 65_600)?;
    let Some(mut one) = all.pop() else {
        assert!(rt; false, "there is no member");
        return Ok(());
    };
    let mut wrong = 0u32;
    for id in 0..5000 {
        if !one.push(id) {
            wrong = wrong.wrapping_add(1);
        }
    }
    for id in 0..5000 {
        if one.next() != Some(id) {
            wrong = wrong.wrapping_add(1);
        }
    }
    assert_eq!(rt; wrong, 0);
    assert_eq!(rt; one.next(), None);
    Ok(())
}
