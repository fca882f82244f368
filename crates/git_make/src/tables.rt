//! The planes in a space of dimension 4 or 5: which coordinates each pair has, and which variables each relation has.

/// The columns of the pairs of five, in lexicographic order.
pub(crate) const FIVE: [[i128; 5]; 10] = [
    [1, 1, 0, 0, 0],
    [1, 0, 1, 0, 0],
    [1, 0, 0, 1, 0],
    [1, 0, 0, 0, 1],
    [0, 1, 1, 0, 0],
    [0, 1, 0, 1, 0],
    [0, 1, 0, 0, 1],
    [0, 0, 1, 1, 0],
    [0, 0, 1, 0, 1],
    [0, 0, 0, 1, 1],
];

/// The columns of the pairs of four, each with a 0 behind it.
pub(crate) const FOUR: [[i128; 5]; 6] = [
    [1, 1, 0, 0, 0],
    [1, 0, 1, 0, 0],
    [1, 0, 0, 1, 0],
    [0, 1, 1, 0, 0],
    [0, 1, 0, 1, 0],
    [0, 0, 1, 1, 0],
];

/// The places of the variables of `T T - T T + T T`, for each four of five in lexicographic order.
pub(crate) const FIVE_RELATIONS: [[usize; 6]; 5] = [
    [0, 7, 1, 5, 2, 4],
    [0, 8, 1, 6, 3, 4],
    [0, 9, 2, 6, 3, 5],
    [1, 9, 2, 8, 3, 7],
    [4, 9, 5, 8, 6, 7],
];

/// The places of the variables of the relation of four.
pub(crate) const FOUR_RELATIONS: [[usize; 6]; 1] = [[0, 5, 1, 4, 2, 3]];
