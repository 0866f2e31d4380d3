//! The step of the numbers of a row without its right side, in one of the ways. Where a number shows that the divisor
//! was too great, those before it are multiplied by what it was too great by.

ghost use Rattle.std.specs.Prelude.{◌≡◌, ℕ, ◌+◌, ◌*◌, ◌/◌, ◌<◌, ◌≤◌, ℤ, pos, unsigned_abs, true, List, length};
ghost use Rattle.std.specs.Prelude.{OnSome, IfSome};
ghost use Rattle.stack_rows.specs.RowForm.{number_at, IsDivided, IsDividedPart, IsDividedOn, IsMultiplied, IsStepped};
ghost use Rattle.stack_rows.specs.RowForm.{AreWithinTop, IsPartTopped, AreSmall, AreFit, AreMarked, AreBeside};
ghost use Rattle.stack_rows.specs.RowForm.{AreListed};

use crate::divider::Divider;
use crate::factors::{Factors, step_fits};
use crate::ways::{BroadStep, FitStep, Way, WordWay};
use num_traits::CheckedMul;

/// How many turns a division takes at most: each but one makes its divisor half as great at most.
const TURNS: usize = 130;

/// How far a row is divided, and a top of the numbers that are.
#[derive(Clone, Copy)]
pub struct Reached {
    pub end: usize,
    pub size: u128,
}

/// How far a row of words is divided, and a top of the words that are.
#[derive(Clone, Copy)]
pub struct WordsReached {
    pub end: usize,
    pub size: u64,
}

/// Goes on with a step of words from the place that is reached, at the places with a mark in one word of marks, to the
/// end of these or to the first of which no quotient is made.
fn words_in<W: WordWay>(
    words: &mut [i64],
    other: &[i64],
    marks: &[u64],
    w: usize,
    way: &W,
    from: WordsReached,
) -> WordsReached
    requires beside { AreBeside words.old other.now marks.now }
    requires word { from.end / 64 ≡ w }
    requires room { w < length marks.now }
    requires takes { (j : ℕ) → from.end ≤ j → W.takes way.now (unsigned_abs (number_at words.old j))
        (unsigned_abs (number_at other.now j)) }
    ensures stepped { IsStepped words.old other.now marks.now (W.times way.now) (W.less way.now) (W.by way.now)
        from.end from.size result.end words.new result.size }
    ensures within { result.end ≤ w * 64 + 64 }
    ensures before { result.end < w * 64 + 64 → result.end < length words.old }
{
    let mut size = from.size;
    let mut rest = marks[w] & (u64::MAX << (from.end % 64));
    while rest != 0 {
        let bit = rest.trailing_zeros();
        let j = w * 64 + bit as usize;
        match way.quotient(words[j], other[j]) {
            Some(number) => {
                size |= number.unsigned_abs();
                words[j] = number;
            }
            None => return WordsReached { end: j, size },
        }
        rest = rest & (rest - 1);
    }
    WordsReached {
        end: w * 64 + 64,
        size,
    }
}

/// Goes on with a step of words from the place that is reached, at the places with a mark, to the end or to the first
/// of which no quotient is made.
pub fn words_from<W: WordWay>(
    words: &mut [i64],
    other: &[i64],
    marks: &[u64],
    way: &W,
    from: WordsReached,
) -> WordsReached
    requires beside { AreBeside words.old other.now marks.now }
    requires from { from.end ≤ length words.old }
    requires takes { (j : ℕ) → from.end ≤ j → W.takes way.now (unsigned_abs (number_at words.old j))
        (unsigned_abs (number_at other.now j)) }
    ensures stepped { IsStepped words.old other.now marks.now (W.times way.now) (W.less way.now) (W.by way.now)
        from.end from.size result.end words.new result.size }
    ensures before { result.end ≤ length words.old }
{
    let mut reached = from;
    for w in from.end / 64..marks.len() {
        reached = words_in(words, other, marks, w, way, reached);
        if reached.end < w * 64 + 64 {
            return reached;
        }
    }
    WordsReached {
        end: words.len(),
        size: reached.size,
    }
}

/// Goes on with a step of any numbers from the place that is reached, at the places with a mark in one word of marks,
/// to the end of these or to the first of which no quotient is made.
fn wide_in<W: Way>(
    numbers: &mut [i128],
    other: &[i128],
    marks: &[u64],
    w: usize,
    way: &W,
    from: Reached,
) -> Reached
    requires beside { AreBeside numbers.old other.now marks.now }
    requires word { from.end / 64 ≡ w }
    requires room { w < length marks.now }
    requires takes { (j : ℕ) → from.end ≤ j → W.takes way.now (unsigned_abs (number_at numbers.old j))
        (unsigned_abs (number_at other.now j)) }
    ensures stepped { IsStepped numbers.old other.now marks.now (W.times way.now) (W.less way.now) (W.by way.now)
        from.end from.size result.end numbers.new result.size }
    ensures within { result.end ≤ w * 64 + 64 }
    ensures before { result.end < w * 64 + 64 → result.end < length numbers.old }
{
    let mut size = from.size;
    let mut rest = marks[w] & (u64::MAX << (from.end % 64));
    while rest != 0 {
        let bit = rest.trailing_zeros();
        let j = w * 64 + bit as usize;
        match way.quotient(numbers[j], other[j]) {
            Some(number) => {
                size |= number.unsigned_abs();
                numbers[j] = number;
            }
            None => return Reached { end: j, size },
        }
        rest = rest & (rest - 1);
    }
    Reached {
        end: w * 64 + 64,
        size,
    }
}

/// Goes on with a step of any numbers from the place that is reached, at the places with a mark, to the end or to the
/// first of which no quotient is made.
pub fn wide_from<W: Way>(
    numbers: &mut [i128],
    other: &[i128],
    marks: &[u64],
    way: &W,
    from: Reached,
) -> Reached
    requires beside { AreBeside numbers.old other.now marks.now }
    requires from { from.end ≤ length numbers.old }
    requires takes { (j : ℕ) → from.end ≤ j → W.takes way.now (unsigned_abs (number_at numbers.old j))
        (unsigned_abs (number_at other.now j)) }
    ensures stepped { IsStepped numbers.old other.now marks.now (W.times way.now) (W.less way.now) (W.by way.now)
        from.end from.size result.end numbers.new result.size }
    ensures before { result.end ≤ length numbers.old }
{
    let mut reached = from;
    for w in from.end / 64..marks.len() {
        reached = wide_in(numbers, other, marks, w, way, reached);
        if reached.end < w * 64 + 64 {
            return reached;
        }
    }
    Reached {
        end: numbers.len(),
        size: reached.size,
    }
}

/// A step of small numbers at the listed places of the pivot row alone, where the row isn't multiplied. Gives a top of
/// all its numbers, by one that they had.
pub fn small_listed(
    words: &mut [i64],
    other: &[i64],
    list: &[u16],
    count: usize,
    less: i64,
    top: u128,
) -> u128
    requires width { length other.now ≡ length words.old }
    requires listed { AreListed other.now list.now count }
    requires small { (j : ℕ) → AreSmall (pos 1) less (unsigned_abs (number_at words.old j))
        (unsigned_abs (number_at other.now j)) }
    requires top { AreWithinTop words.old top }
    ensures divided { IsDivided words.old other.now (pos 1) less (pos 1) words.new }
    ensures top { AreWithinTop words.new result }
{
    let mut size = 0u64;
    for i in 0..count {
        let j = usize::from(list[i]);
        let number = words[j] - less * other[j];
        size |= number.unsigned_abs();
        words[j] = number;
    }
    top | u128::from(size)
}

/// Multiplies the first numbers.
pub fn multiply_before(numbers: &mut [i128], end: usize, by: i128) -> Option<()>
    requires { end ≤ length numbers.old }
    ensures numbers { OnSome result (IsMultiplied numbers.old by end numbers.new) }
    ensures kept { (j : ℕ) → number_at numbers.old j ≡ pos 0 → number_at numbers.new j ≡ pos 0 }
{
    for j in 0..end {
        let number = numbers[j];
        numbers[j] = CheckedMul::checked_mul(&number, &by)?;
    }
    Some(())
}

/// What a row is divided by, and a top of its numbers.
#[derive(Clone, Copy)]
pub struct Divided {
    pub by: i128,
    pub top: u128,
}

/// The bits of the sizes of the first numbers together.
#[tactic(auto, using(std::proofs::lemmas::Nat::le_or_l, std::proofs::lemmas::Nat::le_or_r))]
pub fn top_of(numbers: &[i128], count: usize) -> u128
    requires { count ≤ length numbers.now }
    ensures { IsPartTopped 0 count numbers.now result }
{
    let mut top = 0;
    for j in 0..count {
        top |= numbers[j].unsigned_abs();
    }
    top
}

/// The same of words.
#[tactic(auto, using(std::proofs::lemmas::Nat::le_or_l, std::proofs::lemmas::Nat::le_or_r))]
pub fn top_of_words(words: &[i64], count: usize) -> u128
    requires { count ≤ length words.now }
    ensures { IsPartTopped 0 count words.now result }
{
    let mut top = 0u64;
    for j in 0..count {
        top |= words[j].unsigned_abs();
    }
    u128::from(top)
}

/// Goes on with a step of any numbers: `fit`: what is divided fits.
fn divide_by(
    numbers: &mut [i128],
    other: &[i128],
    marks: &[u64],
    s: &BroadStep,
    fit: bool,
    from: Reached,
) -> Reached
    requires beside { AreBeside numbers.old other.now marks.now }
    requires from { from.end ≤ length numbers.old }
    requires fit { fit ≡ true → (j : ℕ) → from.end ≤ j → AreFit s.now.factors.times s.now.factors.less
        (unsigned_abs (number_at numbers.old j)) (unsigned_abs (number_at other.now j)) }
    ensures stepped { IsStepped numbers.old other.now marks.now s.now.factors.times s.now.factors.less
        s.now.divider.by from.end from.size result.end numbers.new result.size }
    ensures before { result.end ≤ length numbers.old }
{
    match &s.words {
        Some(w) if fit => {
            let way = FitStep::of(*w, s.divider);
            wide_from(numbers, other, marks, &way, from)
        }
        _ => wide_from(numbers, other, marks, s, from),
    }
}

/// Goes on with a step from a place at which its divisor is too great, divided by lesser numbers. Gives what it is
/// divided by in the end. Gives up where a number doesn't fit.
fn divide_on(
    numbers: &mut [i128],
    other: &[i128],
    marks: &[u64],
    s: &BroadStep,
    fit: bool,
    from: usize,
) -> Option<i128>
    requires beside { AreBeside numbers.old other.now marks.now }
    requires from { from < length numbers.old }
    requires fit { fit ≡ true → (j : ℕ) → from ≤ j → AreFit s.now.factors.times s.now.factors.less
        (unsigned_abs (number_at numbers.old j)) (unsigned_abs (number_at other.now j)) }
    ensures ok { IfSome result (λ by. IsDividedOn numbers.old other.now s.now.factors.times s.now.factors.less
        s.now.divider.by by from (length numbers.old) numbers.new) }
    ensures marked { AreMarked numbers.new marks.now }
{
    let count = numbers.len();
    let mut by = s.divider.by;
    let mut j = from;
    for _ in 0..TURNS {
        let lesser = BroadStep::of(s.factors, by).lesser(numbers[j], other[j]);
        multiply_before(numbers, j, Divider::of(lesser).exact(by)?)?;
        by = lesser;
        let step = BroadStep::of(s.factors, by);
        let from = Reached { end: j, size: 0 };
        j = divide_by(numbers, other, marks, &step, fit, from).end;
        if count <= j {
            return Some(by);
        }
    }
    None
}

/// Whether what a step makes of numbers of at most these sizes fits, before it is divided.
pub fn fit(factors: Factors, own: u128, other: u128) -> bool
    ensures { result ≡ true → AreFit factors.times factors.less own other }
{
    step_fits(1, factors, own, other)
}

/// Goes on with a step of the numbers of a row from the place that is reached: k times themselves minus t times those
/// of another one, divided by a guess of what all have in common, or by a lesser number. `fit`: what is divided fits.
/// Gives up where a number doesn't fit.
pub fn divide(
    numbers: &mut [i128],
    other: &[i128],
    marks: &[u64],
    s: &BroadStep,
    fit: bool,
    from: Reached,
) -> Option<Divided>
    requires beside { AreBeside numbers.old other.now marks.now }
    requires from { from.end ≤ length numbers.old }
    requires topped { IsPartTopped 0 from.end numbers.old from.size }
    requires fit { fit ≡ true → (j : ℕ) → from.end ≤ j → AreFit s.now.factors.times s.now.factors.less
        (unsigned_abs (number_at numbers.old j)) (unsigned_abs (number_at other.now j)) }
    ensures ok { IfSome result (λ d. (old : List ℤ) → IsDividedPart old other.now s.now.factors.times
        s.now.factors.less s.now.divider.by 0 from.end numbers.old → IsDivided old other.now s.now.factors.times
        s.now.factors.less d.by numbers.new) }
    ensures top { IfSome result (λ d. AreWithinTop numbers.new d.top) }
    ensures marked { AreMarked numbers.new marks.now }
{
    let count = numbers.len();
    let reached = divide_by(numbers, other, marks, s, fit, from);
    if count <= reached.end {
        return Some(Divided {
            by: s.divider.by,
            top: reached.size,
        });
    }
    let by = divide_on(numbers, other, marks, s, fit, reached.end)?;
    let top = top_of(numbers, count);
    Some(Divided { by, top })
}
