//! Sums, differences, products and sizes, up to the greatest number and beyond.

use stack_whole::{Whole, Wide};
use std::test::*;

fn whole(value: i128) -> Whole {
    Whole::of(value)
}

#[test]
fn numbers_are_made_up_to_the_greatest(rt: HostRuntime) {
    let greatest = whole(i128::MAX);
    let found = [
        whole(6).product(whole(-7)),
        whole(6).sum(whole(-7)),
        whole(6).difference(whole(-7)),
        whole(-7).size(),
        whole(0).difference(greatest),
        greatest.sum(whole(1)),
        greatest.product(whole(2)),
        whole(-i128::MAX).difference(whole(1)),
        whole(i128::MIN).size(),
    ];
    let wanted = [
        Ok(whole(-42)),
        Ok(whole(-1)),
        Ok(whole(13)),
        Ok(whole(7)),
        Ok(whole(-i128::MAX)),
        Err(Wide),
        Err(Wide),
        Err(Wide),
        Err(Wide),
    ];
    assert!(rt; found == wanted);
}
