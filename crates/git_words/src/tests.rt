//! Words and what they spell.
use super::*;
use std::test::*;

const FAN: Command = Command::Fan {
    workers: 4,
    table: 4096,
    steps: 20_000_000,
    certs: false,
};

/// Whether each list of words spells the command beside it.
fn spell(rows: &[(&[&str], Command)]) -> bool {
    for (words, command) in rows {
        if read_words(words) != Some(*command) {
            return false;
        }
    }
    true
}

/// Whether no list of words spells a command.
fn spell_none(rows: &[&[&str]]) -> bool {
    for words in rows {
        if read_words(words).is_some() {
            return false;
        }
    }
    true
}

#[test]
fn fan_with_workers(rt: HostRuntime) {
    let two = Command::Fan {
        workers: 2,
        table: 4096,
        steps: 20_000_000,
        certs: false,
    };
    let most = Command::Fan {
        workers: 64,
        table: 4096,
        steps: 20_000_000,
        certs: false,
    };
    assert!(rt;
        spell(&[
            (&["fan"], FAN),
            (&["fan", "--workers", "4"], FAN),
            (&["fan", "--workers=2"], two),
            (&["fan", "--workers", "2"], two),
            (&["fan", "--workers", "000000002"], two),
            (&["fan", "--steps=20000000", "--workers=2"], two),
            (&["fan", "--workers=64"], most),
        ])
    );
}

#[test]
fn fan_with_all_options(rt: HostRuntime) {
    let all = Command::Fan {
        workers: 8,
        table: 65_536,
        steps: 7,
        certs: true,
    };
    assert!(rt;
        spell(&[
            (
                &[
                    "fan",
                    "--table",
                    "65536",
                    "--certs",
                    "--workers=8",
                    "--steps",
                    "7"
                ],
                all
            ),
            (
                &[
                    "fan",
                    "--certs",
                    "--steps=7",
                    "--workers=008",
                    "--table=65536"
                ],
                all
            ),
        ])
    );
}

#[test]
fn faces_with_steps(rt: HostRuntime) {
    assert!(rt;
        spell(&[
            (&["faces"], Command::Faces { steps: 20_000_000 }),
            (&["faces", "--steps", "1"], Command::Faces { steps: 1 }),
            (
                &["faces", "--steps=20000000"],
                Command::Faces { steps: 20_000_000 }
            ),
        ])
    );
}

#[test]
fn questions_with_their_limits(rt: HostRuntime) {
    let unset = Command::AllCones {
        table: 4096,
        steps: 20_000_000,
    };
    let both = Command::AllCones { table: 2, steps: 9 };
    let located = Command::Locate {
        table: 65_536,
        steps: 20_000_000,
    };
    let bunches = Command::Bunch {
        table: 4096,
        steps: 20_000_000,
    };
    assert!(rt;
        spell(&[
            (&["cones"], unset),
            (&["cones", "--table=2", "--steps", "9"], both),
            (&["cones", "--steps=9", "--table", "2"], both),
            (&["locate", "--table=65536"], located),
            (&["bunch"], bunches),
        ])
    );
}

/// A sample, and whether it is run.
fn made(sample: Sample, run: bool) -> Command {
    Command::Make { sample, run }
}

#[test]
fn samples_with_and_without_a_run(rt: HostRuntime) {
    let four = Sample::Points { n: 4, seed: 7 };
    let three = Sample::Points { n: 3, seed: 0 };
    let last = Sample::Points {
        n: 16,
        seed: 999_999_999,
    };
    let planes = Sample::Plucker { n: 5 };
    assert!(rt;
        spell(&[
            (&["make", "points", "4", "7"], made(four, false)),
            (
                &["make", "points", "04", "000000007", "--run"],
                made(four, true)
            ),
            (&["make", "points", "3", "0"], made(three, false)),
            (&["make", "points", "16", "999999999"], made(last, false)),
            (&["make", "plucker", "5"], made(planes, false)),
            (&["make", "plucker", "5", "--run"], made(planes, true)),
        ])
    );
}

#[test]
fn words_that_spell_nothing(rt: HostRuntime) {
    assert!(rt;
        spell_none(&[
            &[],
            &[""],
            &["Fan"],
            &["--workers", "2"],
            &["fan", "--"],
            &["fan", "-h"],
            &["fan", "--help"],
            &["fan", "fan"],
            &["fan", ""],
            &["fan", "--worker", "2"],
            &["fan", "--workers"],
            &["fan", "--workers="],
            &["fan", "--workers", ""],
            &["fan", "--workers", "0"],
            &["fan", "--workers=0"],
            &["fan", "--workers", "65"],
            &["fan", "--workers", "0000000002"],
            &["fan", "--workers", "+2"],
            &["fan", "--workers", " 2"],
            &["fan", "--workers", "=2"],
            &["fan", "--workers==2"],
            &["fan", "--workers2"],
            &["fan", "--workers", "2", "--workers", "3"],
            &["fan", "--workers=2", "--workers", "2"],
            &["fan", "--certs", "--certs"],
            &["fan", "--certs=1"],
            &["fan", "--certs", "1"],
            &["fan", "--table", "0"],
            &["fan", "--table", "65537"],
            &["fan", "--table", "7", "--certs", "--table=8"],
            &["fan", "--steps", "0"],
            &["fan", "--steps=20000001"],
            &["fan", "--steps", "1", "--steps", "1"],
        ])
    );
}

#[test]
fn more_words_that_spell_nothing(rt: HostRuntime) {
    assert!(rt;
        spell_none(&[
            &["check"],
            &["bunch", "bunch"],
            &["locate", "--certs"],
            &["locate", "1"],
            &["cone"],
            &["cones", "1"],
            &["cones", "--certs"],
            &["cones", "--workers", "2"],
            &["cones", "--table=1", "--table=1"],
            &["cones", "--steps", "0"],
            &["faces", "--certs"],
            &["faces", "--workers", "1"],
            &["faces", "--table=1"],
            &["faces", "--steps", "1", "--steps=1"],
            &["faces", "1"],
            &["make"],
            &["make", "--run"],
            &["make", "points"],
            &["make", "points", "4"],
            &["make", "points", "2", "7"],
            &["make", "points", "17", "7"],
            &["make", "points", "4", "1000000000"],
            &["make", "points", "4", "7", "7"],
            &["make", "points", "4", "7", "--run", "--run"],
            &["make", "--run", "points", "4", "7"],
            &["make", "plucker"],
            &["make", "plucker", "3"],
            &["make", "plucker", "6"],
            &["make", "plucker", "4", "5"],
            &["make", "plucker=4"],
            &["points", "4", "7"],
        ])
    );
}
