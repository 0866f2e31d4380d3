//! Certificates of structures that were worked by hand: accepted, rejected, and too wide.

use crate::drawings::{GROUND, POST, PUSH, STONE, surveyed};
use stack_certificate::read_certificate;
use stack_checker::{Check, CheckAt, CheckPlace, Part, Reason, check};
use stack_contact::Survey;
use stack_equilibrium::Axis;
use std::alloc::Global;
use std::test::*;

const STANDING: &[&str] = &[STONE, GROUND, POST];

const PUSHED: &[&str] = &[STONE, GROUND, POST, PUSH];

/// The post is pressed down in its middle.
const PRESSED: &[&str] = &[
    STONE,
    GROUND,
    POST,
    "[[load]]\nblock = 'post'\nkind = 'live'\nat = [1, 4]\nforce = [0, -1]\n",
];
/// A post in the air.
const FALLING: &[&str] = &[
    STONE,
    GROUND,
    "[[block]]\nname = 'post'\nmaterial = 'stone'\ncorners = [[0, 1], [2, 1], [2, 5], [0, 5]]\n",
];

/// What the check says of the certificate that a text spells.
fn checked_over(alloc: Global, s: &Survey, text: &str) -> Option<Check> {
    match read_certificate(alloc, text.as_bytes()) {
        Ok(certificate) => Some(check(s, &certificate)),
        Err(_) => None,
    }
}

fn checked(alloc: Global, pieces: &[&str], text: &str) -> Option<Check> {
    let s = surveyed(alloc, pieces)?;
    checked_over(alloc, &s, text)
}

#[test]
fn true_certificates_of_each_form_are_accepted(rt: HostRuntime) {
    let alloc = rt.alloc();
    let found = [
        checked(
            alloc,
            STANDING,
            "stands\nforces 1 0\npush 24 0\npush 24 0\nend\n",
        ),
        checked(alloc, FALLING, "collapses\nmotion\nmove 0 -1 0\nend\n"),
        checked(
            alloc,
            PUSHED,
            "greatest\nforces 1 2\npush 0 0\npush 48 -12\nmotion\nmove 0 2 -1\nend\n",
        ),
        checked(
            alloc,
            PRESSED,
            "unbounded\nforces 1 0\npush 24 0\npush 24 0\nforces 0 1\npush 3 0\npush 3 0\nend\n",
        ),
    ];
    assert!(rt; found == [Some(Check::Accepted); 4]);
}

/// A block that isn't in balance, parts that don't belong together, and the first number that is too wide.
#[test]
fn changed_copies_are_rejected_by_name_or_too_wide(rt: HostRuntime) {
    let alloc = rt.alloc();
    let found = [
        checked(
            alloc,
            PUSHED,
            "greatest\nforces 1 2\npush 0 0\npush 49 -12\nmotion\nmove 0 2 -1\nend\n",
        ),
        checked(
            alloc,
            PUSHED,
            "greatest\nforces 1 0\npush 24 0\npush 24 0\nmotion\nmove 0 2 -1\nend\n",
        ),
        checked(
            alloc,
            PUSHED,
            "greatest\nforces 1 2\npush 0 0\npush 48 -12\nmotion\n\
            move 0 0 170141183460469231731687303715884105727\nend\n",
        ),
    ];
    let unbalanced = Reason::Balance {
        block: 0,
        axis: Axis::Y,
    };
    let place = CheckPlace {
        part: Part::Second,
        at: CheckAt::Resisted { k: 1 },
    };
    let wanted = [
        Some(Check::Rejected(Part::First, unbalanced)),
        Some(Check::Rejected(Part::Second, Reason::Apart)),
        Some(Check::TooWide(place)),
    ];
    assert!(rt; found == wanted);
}
