//! Laws of the text of certificates.

ghost use Rattle.std.specs.Prelude.{◌≡◌, List, ℕ, ℤ};
ghost use Rattle.std.specs.Fmt.{signed_decimal};
ghost use Rattle.stack_certificate.specs.Certificate.{CertificateValue};
ghost use Rattle.stack_certificate.specs.CertificateText.{CertificateFits, certificate_text, IsCertificateText};
ghost use Rattle.stack_certificate.specs.CertificateText.{FewHaveShortTexts};
ghost use Rattle.stack_certificate.specs.CertificateOf.{certificate_of};
ghost use Rattle.stack_certificate.specs.FaultLine.{IsFaultLine};
ghost use Rattle.stack_certificate.specs.Digits.{IsWritten};
ghost use Rattle.stack_whole.specs.Whole.{IsFitting};

/// As a function of the bytes, reading gives a certificate exactly if they are its text, and a line exactly if it's
/// their faulty one.
pub fn one_reading()
    ensures reads { (c : CertificateValue) (bytes : List ℕ) → IsCertificateText c bytes → certificate_of bytes ≡ Ok c }
    ensures is { (c : CertificateValue) (bytes : List ℕ) → certificate_of bytes ≡ Ok c → IsCertificateText c bytes }
    ensures refuses { (n : ℕ) (bytes : List ℕ) → IsFaultLine n bytes → certificate_of bytes ≡ Err n }
    ensures faulty { (n : ℕ) (bytes : List ℕ) → certificate_of bytes ≡ Err n → IsFaultLine n bytes }
{}

/// Two different certificates have different texts.
pub fn one_certificate()
    ensures { (c d : CertificateValue) (bytes : List ℕ) → IsCertificateText c bytes → IsCertificateText d bytes → c
        ≡ d }
{}

/// A certificate whose numbers fit has exactly one text.
pub fn one_text()
    ensures some { (c : CertificateValue) → CertificateFits c → IsCertificateText c (certificate_text c) }
    ensures one { (c : CertificateValue) (a b : List ℕ) → IsCertificateText c a → IsCertificateText c b → a ≡ b }
{}

/// The text of a certificate whose numbers fit, with at most 1,024 parts in each list of forces and 128 moves in a
/// motion, has fewer than 180,000 bytes.
pub fn short_text()
    ensures { FewHaveShortTexts }
{}

/// The spelling of a number is 0, or digits of which the first isn't 0, behind a - where it is negative, and
/// no other.
pub fn spelled_by_digits()
    ensures one { (z : ℤ) (bytes : List ℕ) → IsFitting z → IsWritten z bytes → bytes ≡ signed_decimal z }
    ensures is { (z : ℤ) → IsFitting z → IsWritten z (signed_decimal z) }
{}
