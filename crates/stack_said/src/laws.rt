//! Laws on the definitions, as contracts of functions that do nothing.

ghost use Rattle.std.specs.Prelude.{◌≡◌, ℕ, List, [], ◌∷◌, Some, Ok};
ghost use Rattle.stack_contact.specs.Surveyed.{Surveyed};
ghost use Rattle.stack_statics.specs.Scene.{IsProper};
ghost use Rattle.stack_equilibrium.specs.SurveyScene.{scene_of};
ghost use Rattle.stack_work.specs.Work.{Holds, Ends};
ghost use Rattle.stack_work.specs.Surveying.{surveyed_file};
ghost use Rattle.stack_work.specs.OneEnd.{WordsHaveOneEnd};
ghost use Rattle.stack_work.specs.AcceptedModel.{IsAcceptedModel};
ghost use Rattle.stack_said.specs.Printed.{PrintedIsAccepted, PrintedIsShort};
ghost use Rattle.stack_said.specs.Accepted.{AcceptedIsTrueOfFiles, RejectedIsFalseOfFiles, FilesHoldOne};

use stack_certificate::{one_reading, short_text};

/// The order of work comes to a survey exactly for the files that are accepted models, and to each survey that such a
/// file has.
pub fn goes_on_with_accepted_models()
    ensures only { (holds : Holds) (name bytes : List ℕ) (v : Surveyed) (names : List (List ℕ)) → holds name
        ≡ Some bytes
        → Ends holds (surveyed_file name) names (Ok v) → IsAcceptedModel bytes v }
    ensures all { (holds : Holds) (name bytes : List ℕ) (v : Surveyed) → holds name ≡ Some bytes
        → IsAcceptedModel bytes v → Ends holds (surveyed_file name) (name ∷ []) (Ok v) }
{}

/// The work on words over files that are told has one end, unless memory runs out or a device fails: one answer that is
/// due, or one refusal.
pub fn words_have_one_end()
    ensures { WordsHaveOneEnd }
{}

/// What `stand` and `load` print under a model is accepted by `check` with that model, and has fewer than 180,000
/// bytes, so that it is read.
pub fn printed_is_accepted()
    ensures accepted { PrintedIsAccepted }
    ensures short { PrintedIsShort }
{
    one_reading();
    short_text();
}

/// If the files are told, what `check` accepts is a certificate that is true of the model, and what it rejects is one
/// that isn't; and the two files hold at most one survey and one certificate.
pub fn accepted_is_true_of_files()
    ensures accepted { AcceptedIsTrueOfFiles }
    ensures rejected { RejectedIsFalseOfFiles }
    ensures one { FilesHoldOne }
{}

/// A model that is accepted is within the limits, so the certificates that are true of it show what they say of
/// factors.
pub fn accepted_models_are_proper()
    ensures { (bytes : List ℕ) (v : Surveyed) → IsAcceptedModel bytes v → IsProper (scene_of v) }
{}
