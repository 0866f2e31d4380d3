//! What the numbers of a certificate are tested for.

ghost use Rattle.std.specs.Prelude.{◌≡◌};
ghost use Rattle.stack_checker.specs.Signs.{has_sign, standing, loaded, rising};

use stack_whole::Whole;

/// What a number is tested for.
#[derive(Clone, Copy)]
pub enum WantedSign {
    Zero,
    NotNegative,
    Positive,
}

impl WantedSign {
    /// Whether the number has the sign that is wanted.
    pub fn is_of(self, number: Whole) -> bool
        ensures { result ≡ has_sign self number.value }
    {
        match self {
            WantedSign::Zero => number.value == 0,
            WantedSign::NotNegative => 0 <= number.value,
            WantedSign::Positive => 0 < number.value,
        }
    }
}

/// What the scale and the factor of a list of forces are tested for.
#[derive(Clone, Copy)]
pub struct Signs {
    pub scale: WantedSign,
    pub factor: WantedSign,
}

impl Signs {
    /// What forces that carry the dead loads alone are tested for: a positive scale, and the factor 0.
    pub fn standing() -> Signs
        ensures { result ≡ standing }
    {
        Signs {
            scale: WantedSign::Positive,
            factor: WantedSign::Zero,
        }
    }

    /// What forces that carry the live loads with a factor are tested for: a positive scale, and no negative factor.
    pub fn loaded() -> Signs
        ensures { result ≡ loaded }
    {
        Signs {
            scale: WantedSign::Positive,
            factor: WantedSign::NotNegative,
        }
    }

    /// What forces that carry the live loads alone are tested for: the scale 0, and a positive factor.
    pub fn rising() -> Signs
        ensures { result ≡ rising }
    {
        Signs {
            scale: WantedSign::Zero,
            factor: WantedSign::Positive,
        }
    }
}
