//! Check sums of a row, which show what its numbers have in common. They are a hint: nothing here has a clause, and
//! what is divided by a hint is tested.

use crate::entries::Entries;
use crate::words::{inverse, low, product_of, word_inverse};
use stack_rational::{divisor_of, divisor_of_words};

/// The greatest number of 64 bits, among numbers of 128 bits.
const GREATEST: i128 = i64::MAX as i128;

/// Sums of the artificial numbers of a row with small weights, by four rules. A row step does to them what it does to
/// each number.
#[derive(Clone, Copy, Drop)]
pub struct CheckSums {
    first: i128,
    second: i128,
    third: i128,
    fourth: i128,
}

/// The weight of column j by a rule: -3 to 4, so that a sum is wider by few bits.
fn weight(j: usize, rule: u64) -> i128 {
    let mixed = (j as u64).wrapping_add(1).wrapping_mul(rule);
    let bits = (mixed ^ mixed.wrapping_shr(29)).wrapping_mul(0xD1B5_4A32_D192_ED03);
    (bits.wrapping_shr(61) as i128).wrapping_sub(3)
}

/// A sum with a number more, by its weight.
fn weighed(sum: i128, number: i128, j: usize, rule: u64) -> i128 {
    sum.wrapping_add(number.wrapping_mul(weight(j, rule)))
}

/// A sum after a row step.
fn stepped(sum: i128, pivot: i128, k: i128, t: i128) -> i128 {
    sum.wrapping_mul(k).wrapping_sub(t.wrapping_mul(pivot))
}

/// A divisor of a number and of a word above 0: by what is left of y, times 2^64, by the odd part of g.
fn common_by_rest(y: i128, g: i64, twos: u32, inverse: i64) -> i128 {
    let odd = g.wrapping_shr(twos).cast_unsigned();
    let product = low(y).wrapping_mul(inverse).cast_unsigned();
    let high = u128::from(product)
        .wrapping_mul(u128::from(odd))
        .wrapping_shr(64)
        .cast_signed();
    let rest = low(y.wrapping_shr(64)).wrapping_sub(low(high));
    let common = divisor_of_words(rest.unsigned_abs(), odd) as i128;
    if y.trailing_zeros() < twos {
        common.wrapping_shl(y.trailing_zeros())
    } else {
        common.wrapping_shl(twos)
    }
}

/// A divisor of a number and of a word above 0: this itself, if it goes into the number.
fn common_with_word(y: i128, g: i64) -> i128 {
    let twos = g.trailing_zeros();
    let inverse = word_inverse(g.wrapping_shr(twos));
    let quotient = low(y).wrapping_mul(inverse).wrapping_shr(twos);
    if product_of(quotient, g) == y {
        g as i128
    } else {
        common_by_rest(y, g, twos, inverse)
    }
}

/// A divisor of a number and of another one above 0.
pub fn common_with(y: i128, g: i128) -> i128 {
    if y == 0 || g == 1 {
        return g;
    }
    if g > GREATEST {
        return divisor_of(y.unsigned_abs(), g.unsigned_abs()).cast_signed();
    }
    common_with_word(y, low(g))
}

impl CheckSums {
    /// The sums of a row of zeros.
    pub fn zero() -> CheckSums {
        CheckSums {
            first: 0,
            second: 0,
            third: 0,
            fourth: 0,
        }
    }

    /// The sums with one number more, in column j.
    fn with(self, number: i128, j: usize) -> CheckSums {
        CheckSums {
            first: weighed(self.first, number, j, 0x9E37_79B9_7F4A_7C15),
            second: weighed(self.second, number, j, 0xBF58_476D_1CE4_E5B9),
            third: weighed(self.third, number, j, 0x94D0_49BB_1331_11EB),
            fourth: weighed(self.fourth, number, j, 0xC2B2_AE3D_27D4_EB4F),
        }
    }

    /// The sums of the artificial numbers of a row.
    pub fn of_entries(entries: &Entries) -> CheckSums {
        let mut sums = CheckSums::zero();
        for j in 0..entries.count() {
            let number = entries.at(j);
            if number != 0 {
                sums = sums.with(number, j.wrapping_add(1));
            }
        }
        sums
    }

    /// The sums of a row, k times as great, less t times those of the pivot row.
    pub fn stepped(self, pivot: CheckSums, k: i128, t: i128) -> CheckSums {
        CheckSums {
            first: stepped(self.first, pivot.first, k, t),
            second: stepped(self.second, pivot.second, k, t),
            third: stepped(self.third, pivot.third, k, t),
            fourth: stepped(self.fourth, pivot.fourth, k, t),
        }
    }

    /// The sums of a row less t times those of the pivot row.
    fn less_words(self, pivot: CheckSums, t: i64) -> CheckSums {
        let t = t as i128;
        CheckSums {
            first: self.first.wrapping_sub(t.wrapping_mul(pivot.first)),
            second: self.second.wrapping_sub(t.wrapping_mul(pivot.second)),
            third: self.third.wrapping_sub(t.wrapping_mul(pivot.third)),
            fourth: self.fourth.wrapping_sub(t.wrapping_mul(pivot.fourth)),
        }
    }

    /// The same of words, quicker where k is 1.
    pub fn stepped_by_words(self, pivot: CheckSums, k: i64, t: i64) -> CheckSums {
        if k == 1 {
            self.less_words(pivot, t)
        } else {
            self.stepped(pivot, k as i128, t as i128)
        }
    }

    /// A divisor of another number, which should go into all numbers of the row.
    pub fn common_with(self, common: i128) -> i128 {
        let common = common_with(self.first, common);
        let common = common_with(self.second, common);
        let common = common_with(self.third, common);
        common_with(self.fourth, common)
    }

    /// The sums of a row that is divided.
    pub fn divided(self, by: i128) -> CheckSums {
        if by == 1 {
            return self;
        }
        let twos = by.trailing_zeros();
        let inverse = inverse(by.wrapping_shr(twos));
        CheckSums {
            first: self.first.wrapping_shr(twos).wrapping_mul(inverse),
            second: self.second.wrapping_shr(twos).wrapping_mul(inverse),
            third: self.third.wrapping_shr(twos).wrapping_mul(inverse),
            fourth: self.fourth.wrapping_shr(twos).wrapping_mul(inverse),
        }
    }
}
