//! Texts of certificates, read and written, and refused.

use stack_certificate::{Certificate, Forces, TextError, read_certificate, write_certificate};
use std::alloc::Global;
use std::test::*;

const WIDEST: &str =
    "stands\nforces 170141183460469231731687303715884105727 -170141183460469231731687303715884105727\nend\n";

fn are(forces: &Forces, scale: i128, factor: i128, parts: &[(i128, i128)]) -> bool {
    forces.scale == scale && forces.factor == factor && forces.parts.as_slice() == parts
}

/// The form of a certificate that has the numbers worked by hand.
fn form(certificate: &Certificate) -> Option<&'static str> {
    let (is_known, form) = match certificate {
        Certificate::Greatest(forces, motion) => {
            let moves = [(0, 2, -1)];
            let is_known = are(forces, 1, 2, &[(0, 0), (48, -12)])
                && motion.moves.as_slice() == moves.as_slice();
            (is_known, "greatest")
        }
        Certificate::Unbounded(forces, ray) => {
            let is_known = are(forces, 1, 0, &[(24, 0)]) && are(ray, 0, 1, &[(3, 0)]);
            (is_known, "unbounded")
        }
        Certificate::Stands(forces) => (are(forces, i128::MAX, -i128::MAX, &[]), "stands"),
        Certificate::Collapses(motion) => {
            let moves = [(-61, -2, 0)];
            (motion.moves.as_slice() == moves.as_slice(), "collapses")
        }
    };
    if is_known { Some(form) } else { None }
}

/// The form of the certificate that a text spells, and whether it is written as that text.
fn told(alloc: Global, text: &str) -> Option<(Option<&'static str>, bool)> {
    let Ok(read) = read_certificate(alloc, text.as_bytes()) else {
        return None;
    };
    match write_certificate(alloc, &read) {
        Ok(written) => Some((form(&read), written.as_slice() == text.as_bytes())),
        Err(_) => None,
    }
}

#[test]
fn texts_are_read_and_written(rt: HostRuntime) {
    let alloc = rt.alloc();
    let found = [
        told(
            alloc,
            "greatest\nforces 1 2\npush 0 0\npush 48 -12\nmotion\nmove 0 2 -1\nend\n",
        ),
        told(
            alloc,
            "unbounded\nforces 1 0\npush 24 0\nforces 0 1\npush 3 0\nend\n",
        ),
        told(alloc, WIDEST),
        told(alloc, "collapses\nmotion\nmove -61 -2 0\nend\n"),
    ];
    let wanted = [
        Some((Some("greatest"), true)),
        Some((Some("unbounded"), true)),
        Some((Some("stands"), true)),
        Some((Some("collapses"), true)),
    ];
    assert!(rt; found == wanted);
}

fn refusal(alloc: Global, text: &str) -> Option<TextError> {
    read_certificate(alloc, text.as_bytes()).err()
}

const BROKEN: [(&str, usize); 9] = [
    ("", 1),
    ("stands\r\nforces 1 0\r\nend\r\n", 1),
    ("stands\nmotion\nend\n", 2),
    (
        "stands\nforces 1 -170141183460469231731687303715884105728\nend\n",
        2,
    ),
    ("stands\nforces 1 0\npush 24 +0\nend\n", 3),
    ("stands\nforces 1 0\npush 24 -0\nend\n", 3),
    ("stands\nforces 1 0\nend", 3),
    ("stands\nforces 1 0\nend\n\n", 4),
    ("unbounded\nforces 1 0\npush 24 0\n", 4),
];

fn all_are_refused(alloc: Global) -> bool {
    for (text, number) in BROKEN {
        if refusal(alloc, text) != Some(TextError::Line { number }) {
            return false;
        }
    }
    true
}

#[test]
fn broken_texts_are_refused_with_their_faulty_line(rt: HostRuntime) {
    assert!(rt; all_are_refused(rt.alloc()));
}
