//! What the words of a command line mean.
use asl_line::parse;
use std::alloc::{AllocError, Global};

fn shown(alloc: Global, text: &str) -> Result<String, AllocError> {
    let mut words = Vec::new(alloc);
    for word in text.split(' ') {
        words.push(String::from_str(alloc, word)?)?;
    }
    let line = parse(alloc, words.as_slice())?;
    format!(in alloc; "{line:?}")
}

/// Lines, and the commands that they mean.
const LINES: &[(&str, &str)] = &[
    ("asl", "Usage"),
    ("asl --help", "Usage"),
    ("asl help", "Usage"),
    ("asl check", "Usage"),
    ("asl check --help", "Usage"),
    ("asl run --steps 0 a", "Usage"),
    ("asl run --steps 1000000001 a", "Usage"),
    ("asl run --steps x a", "Usage"),
    ("asl run --steps 5 --steps 6 a", "Usage"),
    ("asl check --steps 5 a", "Usage"),
    ("asl run -a", "Usage"),
    ("asl exec a", "Usage"),
    ("asl exec --words w", "Usage"),
    ("asl exec --words w --words w a", "Usage"),
    ("asl run --words w a", "Usage"),
    ("asl self 1", "Usage"),
    ("asl self 1 0", "Usage"),
    ("asl self 1 2001", "Usage"),
    ("asl self 4294967296 1", "Usage"),
    ("asl self --steps 5 1 1", "Usage"),
    ("asl masks", "Usage"),
    ("asl masks --budget 0 a", "Usage"),
    ("asl masks --budget 1000000001 a", "Usage"),
    ("asl masks --steps 5 a", "Usage"),
    ("asl check --budget 5 a", "Usage"),
    (
        "asl run a --steps 5 b",
        "Run { steps: 5, files: [\"a\", \"b\"] }",
    ),
    (
        "asl run --steps=+05 a a",
        "Run { steps: 5, files: [\"a\", \"a\"] }",
    ),
    ("asl run -- -a", "Run { steps: 1000000, files: [\"-a\"] }"),
    (
        "asl exec --words w a b",
        "Exec { steps: 1000000, list: \"w\", files: [\"a\", \"b\"] }",
    ),
    (
        "asl exec a --steps 5 --words=w",
        "Exec { steps: 5, list: \"w\", files: [\"a\"] }",
    ),
    ("asl self +7 05", "Generate { number: 7, size: 5 }"),
    (
        "asl self 4294967295 2000",
        "Generate { number: 4294967295, size: 2000 }",
    ),
    (
        "asl masks a b",
        "Masks { budget: 100000, files: [\"a\", \"b\"] }",
    ),
    (
        "asl masks a --budget 1000000000",
        "Masks { budget: 1000000000, files: [\"a\"] }",
    ),
    ("asl check a b c", "Check { files: [\"a\", \"b\", \"c\"] }"),
];

fn rows() -> &'static [(&'static str, &'static str)] {
    LINES
}

#[test]
fn lines(rt: HostRuntime) {
    for &(text, want) in rows() {
        let got = shown(rt.alloc(), text).expect(&rt, "memory");
        assert_eq!(rt; got.as_str(), want, "{text}");
    }
}
