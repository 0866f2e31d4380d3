//! Numbers of a certificate.

ghost use Rattle.std.specs.Prelude.{◌≡◌, IfSome, IfNone, ℤ};
ghost use Rattle.stack_certificate.specs.Numbers.{IsNumber};

use itoa::Buffer;

/// The number that the bytes spell, at most 2^127 - 1 in size. None exactly if they spell none. A number has one
/// spelling, so it's printed again and compared.
pub fn read_number(bytes: &[u8]) -> Option<i128>
    ensures some { IfSome result (λ z. IsNumber z bytes.now) }
    ensures none { IfNone result ((z : ℤ) → ¬ IsNumber z bytes.now) }
{
    let Ok(text) = std::str::from_utf8(bytes) else {
        return None;
    };
    let Ok(number) = text.parse::<i128>() else {
        return None;
    };
    if number == i128::MIN {
        return None;
    }
    let mut buffer = Buffer::new();
    if buffer.format(number).as_bytes() == bytes {
        Some(number)
    } else {
        None
    }
}
