//! The contacts of a wall in stack bond, and the forces of a post that tips.

use crate::drawings::{FOUR, PUSHED, STANDING, surveyed};
use stack_certificate::{Certificate, read_certificate};
use stack_checker::{Check, check};
use stack_contact::Survey;
use stack_report::{ReportError, contact_table, force_table, sample_summary};
use std::alloc::Global;
use std::test::*;

const TABLE: &str = "bearings 12
bearing 1 ground a 0 0 1 0 1 2
bearing 2 ground a 2 0 1 0 1 2
bearing 3 ground b 2 0 1 0 1 2
bearing 4 ground b 4 0 1 0 1 2
bearing 5 a b 2 0 0 -1 1 2
bearing 6 a b 2 1 0 -1 1 2
bearing 7 a c 0 1 1 0 1 2
bearing 8 a c 2 1 1 0 1 2
bearing 9 b d 2 1 1 0 1 2
bearing 10 b d 4 1 1 0 1 2
bearing 11 c d 2 1 0 -1 1 2
bearing 12 c d 2 2 0 -1 1 2
touches 2
touch 1 a d 2 1
touch 2 b c 2 1
";

fn is_listed(alloc: Global, s: &Survey) -> bool {
    match contact_table(alloc, s) {
        Ok(table) => table.as_slice() == TABLE.as_bytes(),
        Err(_) => false,
    }
}

fn has_the_table(alloc: Global) -> Option<bool> {
    let s = surveyed(alloc, FOUR)?;
    Some(is_listed(alloc, &s))
}

#[test]
fn the_contacts_of_a_wall_in_stack_bond_are_listed(rt: HostRuntime) {
    assert!(rt; has_the_table(rt.alloc()) == Some(true));
}

/// The certificate of the post, pushed at its upper left corner.
const TIPPING: &[u8] = b"greatest\nforces 1 2\npush 0 0\npush 48 -12\nmotion\nmove 0 2 -1\nend\n";

const FORCES: &str = "greatest
factor 2/1
force 1 0/1 0/1
force 2 -2/1 8/1
move post 0 2 -1
";

/// Without live loads any factor is carried, also one of which six times is too wide: 2^125.
const WIDE: &[u8] = b"unbounded\nforces 1 0\npush 24 0\npush 24 0\n\
    forces 0 42535295865117307932921825928971026432\npush 0 0\npush 0 0\nend\n";

const SUMMARY: &str =
    "sample 7\nblocks 1\nbearings 2\ntouches 0\nverdict greatest\nfactor 2/1\nnarrow yes\n";

/// Whether the table of a certificate that the check accepts is this text.
fn has_forces(
    alloc: Global,
    s: &Survey,
    c: &Certificate,
    text: &str,
) -> Option<Result<bool, ReportError>> {
    match check(s, c) {
        Check::Accepted => match force_table(alloc, s, c) {
            Ok(table) => Some(Ok(table.as_slice() == text.as_bytes())),
            Err(error) => Some(Err(error)),
        },
        _ => None,
    }
}

/// Whether the summary of a certificate that the check accepts is that of the pushed post.
fn has_summary(alloc: Global, s: &Survey, c: &Certificate) -> Option<bool> {
    match check(s, c) {
        Check::Accepted => match sample_summary(alloc, 7, s, c, true) {
            Ok(summary) => Some(summary.as_slice() == SUMMARY.as_bytes()),
            Err(_) => None,
        },
        _ => None,
    }
}

type Tipping = (Option<Result<bool, ReportError>>, Option<bool>);

fn tipping_of(alloc: Global, s: &Survey) -> Option<Tipping> {
    match read_certificate(alloc, TIPPING) {
        Ok(c) => Some((has_forces(alloc, s, &c, FORCES), has_summary(alloc, s, &c))),
        Err(_) => None,
    }
}

fn tipping(alloc: Global) -> Option<Tipping> {
    let s = surveyed(alloc, PUSHED)?;
    tipping_of(alloc, &s)
}

#[test]
fn the_forces_of_a_post_that_tips_are_told_and_summed_up(rt: HostRuntime) {
    let wanted = (Some(Ok(true)), Some(true));
    assert!(rt; tipping(rt.alloc()) == Some(wanted));
}

fn wide_of(alloc: Global, s: &Survey) -> Option<Result<bool, ReportError>> {
    match read_certificate(alloc, WIDE) {
        Ok(c) => has_forces(alloc, s, &c, ""),
        Err(_) => None,
    }
}

fn wide(alloc: Global) -> Option<Result<bool, ReportError>> {
    let s = surveyed(alloc, STANDING)?;
    wide_of(alloc, &s)
}

#[test]
fn six_times_a_great_factor_is_too_wide(rt: HostRuntime) {
    let wide_factor = ReportError::TooWide { index: 3 };
    assert!(rt; wide(rt.alloc()) == Some(Err(wide_factor)));
}
