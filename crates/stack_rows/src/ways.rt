//! The ways to make the step of one number of a row: k times it minus t times that of another row, divided.

ghost use Rattle.std.specs.Prelude.{◌≡◌, ◌-◌, ◌*◌, ◌^◌, ◌≤◌, pos, unsigned_abs, OnSome, IfSome, ◌*ℤ◌, ◌-ℤ◌};
ghost use Rattle.std.specs.Option.{ForSome};
ghost use Rattle.stack_rows.specs.RowForm.{IsQuotient, AreSmall, AreFit};

use crate::divider::Divider;
use crate::factors::{Factors, WIDEST};
use crate::sums::common_with;
use crate::words::{SMALL, low, product, product_of, size_product, size_product_of, word};
use num_traits::{CheckedMul, CheckedSub};

/// A way to make the step of one number.
pub trait Way {
    ghost use Rattle.std.specs.Prelude.{ℤ, ℕ};

    // k, t and what is divided by
    ghost times: { Self → ℤ };

    ghost less: { Self → ℤ };

    ghost by: { Self → ℤ };

    // whether it takes a number and one of the other row of these sizes
    ghost takes: { Self → ℕ → ℕ → Type 0 };

    /// Gives up where the quotient isn't whole, and where a number doesn't fit.
    fn quotient(&self, number: i128, other: i128) -> Option<i128>
        requires { takes self.now (unsigned_abs number) (unsigned_abs other) }
        ensures { IfSome result (λ r. IsQuotient (by self.now) (times self.now) (less self.now) number other r) };
}

/// A way to make the step of one word.
pub trait WordWay {
    ghost use Rattle.std.specs.Prelude.{ℤ, ℕ};

    // as of a way
    ghost times: { Self → ℤ };

    ghost less: { Self → ℤ };

    ghost by: { Self → ℤ };

    ghost takes: { Self → ℕ → ℕ → Type 0 };

    /// Gives up where the quotient isn't whole, and where it isn't a word.
    fn quotient(&self, number: i64, other: i64) -> Option<i64>
        requires { takes self.now (unsigned_abs number) (unsigned_abs other) }
        ensures { IfSome result (λ r. IsQuotient (by self.now) (times self.now) (less self.now) number other r) };
}

/// The step of small numbers, not divided.
#[derive(Drop)]
pub struct SmallStep {
    pub times: i64,
    pub less: i64,
}

impl SmallStep {
    /// Of a step of numbers of at most these sizes, in a row over a denominator. Gives up where one of these, or what
    /// the step makes of it, isn't small.
    pub fn of(factors: Factors, own: u128, other: u128, under: u128) -> Option<SmallStep>
        ensures times { IfSome result (λ p. p.times ≡ factors.times) }
        ensures less { IfSome result (λ p. p.less ≡ factors.less) }
        ensures small { OnSome result (AreSmall factors.times factors.less own other) }
        ensures over { OnSome result (under * unsigned_abs factors.times ≤ 2 ^ 62 - 1) }
    {
        let times = word(factors.times)?;
        let less = word(factors.less)?;
        if SMALL <= (own | other | under) {
            return None;
        }
        let left = size_product_of(own as u64, times.unsigned_abs());
        let right = size_product_of(less.unsigned_abs(), other as u64);
        let over = size_product_of(under as u64, times.unsigned_abs());
        if (left | right | over) < SMALL {
            Some(SmallStep { times, less })
        } else {
            None
        }
    }
}

impl SmallStep {
    /// Its factors.
    pub fn factors(&self) -> Factors
        ensures times { result.times ≡ self.now.times }
        ensures less { result.less ≡ self.now.less }
    {
        Factors {
            times: self.times as i128,
            less: self.less as i128,
        }
    }
}

impl WordWay for SmallStep {
    ghost times = { λ s. s.times };

    ghost less = { λ s. s.less };

    ghost by = { λ s. pos 1 };

    ghost takes = { λ s n o. AreSmall s.times s.less n o };

    fn quotient(&self, number: i64, other: i64) -> Option<i64> {
        Some(number * self.times - self.less * other)
    }
}

/// The step of words.
#[derive(Clone, Copy)]
pub struct WordStep {
    times: i64,
    less: i64,
    by: i64,
    twos: u32,
    inverse: i64,
}

impl WordStep {
    /// Gives up where one of the three isn't a word.
    fn of(factors: Factors, divider: Divider) -> Option<WordStep>
        ensures times { IfSome result (λ w. w.times ≡ factors.times) }
        ensures less { IfSome result (λ w. w.less ≡ factors.less) }
        ensures by { IfSome result (λ w. w.by ≡ divider.by) }
    {
        let times = word(factors.times)?;
        let less = word(factors.less)?;
        let by = word(divider.by)?;
        Some(WordStep {
            times,
            less,
            by,
            twos: divider.twos,
            inverse: low(divider.inverse),
        })
    }
}

impl WordWay for WordStep {
    ghost use Rattle.std.specs.Prelude.{⊤};

    ghost times = { λ s. s.times };

    ghost less = { λ s. s.less };

    ghost by = { λ s. s.by };

    ghost takes = { λ s n o. ⊤ };

    fn quotient(&self, number: i64, other: i64) -> Option<i64> {
        let left = product_of(number, self.times);
        let right = product_of(self.less, other);
        let n = CheckedSub::checked_sub(&left, &right)?;
        let quotient = low(n).wrapping_mul(self.inverse).wrapping_shr(self.twos);
        if product_of(quotient, self.by) == n {
            Some(quotient)
        } else {
            None
        }
    }
}

/// The product of a number and a word, where it fits.
fn wide_product(number: i128, by: i64) -> i128
    requires { unsigned_abs number * unsigned_abs by ≤ 2 ^ 127 - 1 }
    ensures { result ≡ number *ℤ by }
{
    number * by as i128
}

/// The same, quicker where both are words.
fn fit_product(number: i128, by: i64) -> i128
    requires { unsigned_abs number * unsigned_abs by ≤ 2 ^ 127 - 1 }
    ensures { result ≡ number *ℤ by }
{
    let word = low(number);
    if word as i128 == number {
        product_of(word, by)
    } else {
        wide_product(number, by)
    }
}

/// The same step where all that it makes is known to fit, and its factors and what it is divided by are words.
#[derive(Clone, Copy)]
pub struct FitStep {
    word: WordStep,
    inverse: i128,
    limit: u128,
    ghost limited: { limit * unsigned_abs word.by ≤ 2 ^ 127 - 1 },
}

/// A size such that its product with a number fits: 0, or nearly the greatest.
fn limit_of(by: u128) -> u128
    ensures { result * by ≤ 2 ^ 127 - 1 }
{
    let limit = WIDEST.wrapping_shr(128 - by.leading_zeros());
    match size_product(limit, by) {
        Some(product) if product <= WIDEST => limit,
        _ => 0,
    }
}

impl FitStep {
    pub fn of(word: WordStep, divider: Divider) -> FitStep
        ensures { result.word ≡ word }
    {
        FitStep {
            word,
            inverse: divider.inverse,
            limit: limit_of((word.by as i128).unsigned_abs()),
        }
    }

    /// What the step makes of two numbers, before it is divided.
    fn made(&self, number: i128, other: i128) -> i128
        requires { AreFit self.now.word.times self.now.word.less (unsigned_abs number) (unsigned_abs other) }
        ensures { result ≡ number *ℤ self.now.word.times -ℤ self.now.word.less *ℤ other }
    {
        fit_product(number, self.word.times) - fit_product(other, self.word.less)
    }

    /// The quotient of a number, given without its twos, if it is a word.
    fn word_quotient(&self, n: i128, shifted: i128) -> Option<i64>
        ensures { IfSome result (λ r. r *ℤ self.now.word.by ≡ n) }
    {
        let quotient = low(shifted).wrapping_mul(self.word.inverse);
        if product_of(quotient, self.word.by) == n {
            Some(quotient)
        } else {
            None
        }
    }

    /// This quotient, if it is that of a number, and not too great to be tested; else it is made anew.
    fn tested(&self, n: i128, quotient: i128) -> Option<i128>
        ensures { IfSome result (λ r. r *ℤ self.now.word.by ≡ n) }
    {
        if self.limit < quotient.unsigned_abs() {
            return Divider::of(self.word.by as i128).exact(n);
        }
        if wide_product(quotient, self.word.by) == n {
            Some(quotient)
        } else {
            None
        }
    }

    /// The quotient of a number, where it is whole.
    fn quotient_of(&self, n: i128) -> Option<i128>
        ensures { IfSome result (λ r. r *ℤ self.now.word.by ≡ n) }
    {
        let shifted = n.wrapping_shr(self.word.twos);
        match self.word_quotient(n, shifted) {
            Some(quotient) => return Some(quotient as i128),
            None => {}
        }
        self.tested(n, shifted.wrapping_mul(self.inverse))
    }
}

impl Way for FitStep {
    ghost times = { λ s. s.word.times };

    ghost less = { λ s. s.word.less };

    ghost by = { λ s. s.word.by };

    ghost takes = { λ s n o. AreFit s.word.times s.word.less n o };

    fn quotient(&self, number: i128, other: i128) -> Option<i128> {
        self.quotient_of(self.made(number, other))
    }
}

/// The step of any numbers.
#[derive(Drop)]
pub struct BroadStep {
    pub factors: Factors,
    pub divider: Divider,
    pub words: Option<WordStep>,
    ghost times: { ForSome words (λ w. w.times ≡ factors.times) },
    ghost less: { ForSome words (λ w. w.less ≡ factors.less) },
    ghost by: { ForSome words (λ w. w.by ≡ divider.by) },
}

impl Way for BroadStep {
    ghost use Rattle.std.specs.Prelude.{⊤};

    ghost times = { λ s. s.factors.times };

    ghost less = { λ s. s.factors.less };

    ghost by = { λ s. s.divider.by };

    ghost takes = { λ s n o. ⊤ };

    fn quotient(&self, number: i128, other: i128) -> Option<i128> {
        let left = match &self.words {
            Some(w) => product(number, w.times)?,
            None => CheckedMul::checked_mul(&number, &self.factors.times)?,
        };
        let right = match &self.words {
            Some(w) => product(other, w.less)?,
            None => CheckedMul::checked_mul(&other, &self.factors.less)?,
        };
        self.divider.exact(CheckedSub::checked_sub(&left, &right)?)
    }
}

impl BroadStep {
    pub fn of(factors: Factors, by: i128) -> BroadStep
        ensures factors { result.factors ≡ factors }
        ensures by { result.divider.by ≡ by }
    {
        let divider = Divider::of(by);
        let words = WordStep::of(factors, divider);
        BroadStep {
            factors,
            divider,
            words,
        }
    }

    /// A divisor of a quotient that isn't whole and of what it is divided by: a hint.
    pub fn lesser(&self, number: i128, other: i128) -> i128 {
        let left = number.wrapping_mul(self.factors.times);
        let right = self.factors.less.wrapping_mul(other);
        common_with(left.wrapping_sub(right), self.divider.by)
    }
}
