//! The greatest common divisor of numbers without a sign, by halves: at 128 bits until both numbers have 64, and then
//! at 64 bits. A remainder costs many times what a shift does.

ghost use Rattle.std.specs.Prelude.{◌≡◌, ◌<◌, ◌%◌, ◌*◌, ◌^◌};
ghost use Rattle.std.specs.Int.{IsGcd, trailing_zeros, w64, w128};

/// A positive number without its factors of 2.
fn odd_part(n: u64) -> u64
    requires { 0 < n }
    ensures product { result * 2 ^ trailing_zeros w64 n ≡ n }
    ensures odd { result % 2 ≡ 1 }
{
    n >> n.trailing_zeros()
}

/// The greatest common divisor of an odd number and another one, by differences: a choice without a branch is faster
/// than the step that takes the lesser number from the greater.
fn divisor_of_odd(odd: u64, other: u64) -> u64
    requires { odd % 2 ≡ 1 }
    ensures { IsGcd odd other result }
{
    let mut x = odd;
    let mut y = other;
    'steps: while y != 0 {
        let part = odd_part(y);
        y = x.abs_diff(part);
        x = x.min(part);
    }
    x
}

/// The greatest common divisor of two numbers of 64 bits; that of 0 and b is b.
pub fn divisor_of_words(a: u64, b: u64) -> u64
    ensures { IsGcd a b result }
{
    if a == 0 {
        return b;
    }
    divisor_of_odd(odd_part(a), b) << a.trailing_zeros().min(b.trailing_zeros())
}

/// A positive number of 128 bits without its factors of 2.
fn broad_odd_part(n: u128) -> u128
    requires { 0 < n }
    ensures product { result * 2 ^ trailing_zeros w128 n ≡ n }
    ensures odd { result % 2 ≡ 1 }
{
    n >> n.trailing_zeros()
}

/// The greatest common divisor of an odd number and another one of 128 bits, by differences: at 64 bits from where both
/// numbers have no more.
fn broad_divisor_of_odd(odd: u128, other: u128) -> u128
    requires { odd % 2 ≡ 1 }
    ensures { IsGcd odd other result }
{
    let mut x = odd;
    let mut y = other;
    'steps: while x > u128::from(u64::MAX) || y > u128::from(u64::MAX) {
        if y == 0 {
            return x;
        }
        let part = broad_odd_part(y);
        y = x.abs_diff(part);
        x = x.min(part);
    }
    u128::from(divisor_of_odd(x as u64, y as u64))
}

/// The greatest common divisor of two numbers; that of 0 and b is b.
pub fn divisor_of(a: u128, b: u128) -> u128
    ensures { IsGcd a b result }
{
    if a == 0 {
        return b;
    }
    broad_divisor_of_odd(broad_odd_part(a), b) << a.trailing_zeros().min(b.trailing_zeros())
}
