//! What the written check shows.

ghost use Rattle.stack_checker.specs.Verdict.{AcceptedIsTrue, RejectedIsFalse, TrueIsAccepted};

/// Does nothing: its contract is the laws of the written check.
pub fn check_laws()
    ensures accepted { AcceptedIsTrue }
    ensures rejected { RejectedIsFalse }
    ensures true_one { TrueIsAccepted }
{}
