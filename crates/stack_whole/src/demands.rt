//! Demands: tests that must hold.

ghost use Rattle.std.specs.Prelude.{◌≡◌};
ghost use Rattle.stack_whole.specs.Demands.{unless as unless_of};

/// `Ok` if the test holds, and otherwise this fault. Takes no memory.
pub fn unless<E: Copy>(holds: bool, fault: E) -> Result<(), E>
    ensures { result ≡ unless_of holds fault }
{
    if holds { Ok(()) } else { Err(fault) }
}
