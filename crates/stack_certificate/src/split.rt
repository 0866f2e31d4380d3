//! Bytes cut at a byte or after a word.

ghost use Rattle.std.specs.Prelude.{◌≡◌, ◌≢◌, ◌++◌, ◌∷◌, List, ℕ, IfSome, IfNone, true};
ghost use Rattle.stack_certificate.specs.Lines.{lacks};

/// The bytes before the first `byte`, and those after it. None where there is none.
pub fn split_once(bytes: &[u8], byte: u8) -> Option<(&[u8], &[u8])>
    ensures some { IfSome result (λ r. (bytes.now ≡ r.0.now ++ byte ∷ r.1.now) × (lacks byte r.0.now ≡ true)) }
    ensures none { IfNone result (lacks byte bytes.now ≡ true) }
{
    for (i, b) in bytes.iter().enumerate() {
        if *b == byte {
            return Some((&bytes[..i], &bytes[i + 1..]));
        }
    }
    None
}

/// The bytes after `word`, where they begin with it. None where they don't.
pub fn after<'a>(bytes: &'a [u8], word: &[u8]) -> Option<&'a [u8]>
    ensures some { IfSome result (λ r. bytes.now ≡ word.now ++ r.now) }
    ensures none { IfNone result ((rest : List ℕ) → bytes.now ≢ word.now ++ rest) }
{
    bytes.strip_prefix(word)
}
