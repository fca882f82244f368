//! Bits read by hand.
use super::*;

#[test]
fn bits_are_read(rt: HostRuntime) {
    for (word, place, expected) in [
        (5, 0, true),
        (5, 1, false),
        (5, 2, true),
        (1 << 63, 63, true),
        (1 << 63, 62, false),
        (0, 0, false),
    ] {
        assert_eq!(rt; has_bit(word, place), expected, "{word} at {place}");
    }
    for (word, other, expected) in [
        (5, 7, true),
        (5, 6, false),
        (0, 0, true),
        (8, 7, false),
        (u64::MAX, u64::MAX, true),
    ] {
        assert_eq!(rt; is_within(word, other), expected, "{word} within {other}");
    }
}
