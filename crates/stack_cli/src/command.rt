//! The top call.

ghost use Rattle.std.specs.Prelude.{◌≡◌, ◌≢◌, ◌≤◌, ◌⊎◌, Ok, Err, IfSome, IfNone};
ghost use Rattle.std.specs.Option.{option_map};
ghost use Rattle.stack_outside.specs.Faults.{counted};
ghost use Rattle.stack_outside.specs.Seen.{seen_shelf, seen_stream};
ghost use Rattle.stack_lines.specs.Refusals.{refusal_view, refusal_line};
ghost use Rattle.stack_work.specs.Progress.{Works};
ghost use Rattle.stack_cli.specs.Words.{form_of, texts};
ghost use Rattle.stack_said.specs.Delivery.{with_line_feed, TakesMemory, Delivers, SaysLine};
ghost use Rattle.stack_said.specs.OnePut.{PutsAnswer, PutsLine};
ghost use Rattle.stack_said.specs.Runs.{Runs};

use crate::words::parse_form;
use stack_forms::answer_form;
use stack_lines::{Answer, Refusal};
use stack_outside::{Shelf, Sink, SinkFailed};
use stack_said::printed_is_accepted;
use stack_walls::walls_can_be_surveyed;
use std::alloc::Global;

/// The line of a refusal that says nothing but which it is, with its line feed. It takes no memory.
fn constant_line(refusal: &Refusal) -> Option<&'static str>
    ensures some { IfSome result (λ line. line.now ≡ with_line_feed (refusal_line (refusal_view refusal.now))) }
    ensures none { IfNone result (TakesMemory (refusal_view refusal.now)) }
{
    match refusal {
        Refusal::Words => Some("words\n"),
        Refusal::Output => Some("output\n"),
        Refusal::Memory => Some("memory\n"),
        _ => None,
    }
}

/// Puts the refusal's line on `err`, in one put, and gives the refusal; if there is no memory for the line,
/// `Memory`.
#[tactic(auto, using(stack_said::proofs::Returned::line_put))]
fn say<E: Sink>(alloc: Global, refusal: Refusal, err: &mut E) -> Refusal
    ensures which { (result ≡ refusal) ⊎ (TakesMemory (refusal_view refusal) × (result ≡ Refusal.Memory)) }
    ensures line { SaysLine (refusal_view result) (seen_stream E.Sink err.old err.new) }
    ensures call { E.calls err.new ≡ option_map counted (E.calls err.old) }
    ensures later { E.faults err.old ≤ E.faults err.new }
{
    if let Some(constant) = constant_line(&refusal) {
        let _ = err.put(constant.as_bytes());
        return refusal;
    }
    if let Ok(line) = format!(in alloc; "{refusal}\n") {
        let _ = err.put(line.as_bytes());
        return refusal;
    }
    let _ = err.put(b"memory\n");
    Refusal::Memory
}

/// Writes the answer in one put on `out`, or the line of the failed output on `err`, and gives the status.
#[tactic(auto, using(stack_said::proofs::Returned::line_put))]
fn write_answer<O: Sink, E: Sink>(alloc: Global, answer: &Answer, out: &mut O, err: &mut E) -> u8
    ensures delivers { Delivers (Ok answer.now) result (seen_stream O.Sink out.old out.new)
        (seen_stream E.Sink err.old err.new) }
    ensures one_put { PutsAnswer result (seen_stream O.Sink out.old out.new) }
    ensures one_line { PutsLine result (seen_stream E.Sink err.old err.new) }
    ensures out_later { O.faults out.old ≤ O.faults out.new }
    ensures err_later { E.faults err.old ≤ E.faults err.new }
{
    match out.put(answer.text.as_slice()) {
        Ok(()) => answer.verdict.status(),
        Err(SinkFailed) => say(alloc, Refusal::Output, err).status(),
    }
}

/// Writes the answer in one put on `out`, or the line of the refusal on `err`, and gives the status. That the output
/// failed is no refusal of work.
pub fn deliver<O: Sink, E: Sink>(
    alloc: Global,
    worked: Result<Answer, Refusal>,
    out: &mut O,
    err: &mut E,
) -> u8
    ensures delivers { Delivers worked result (seen_stream O.Sink out.old out.new)
        (seen_stream E.Sink err.old err.new) }
    ensures one_put { worked ≢ Err Refusal.Output → PutsAnswer result (seen_stream O.Sink out.old out.new) }
    ensures one_line { PutsLine result (seen_stream E.Sink err.old err.new) }
    ensures out_later { O.faults out.old ≤ O.faults out.new }
    ensures err_later { E.faults err.old ≤ E.faults err.new }
{
    match worked {
        Ok(answer) => write_answer(alloc, &answer, out, err),
        Err(refusal) => say(alloc, refusal, err).status(),
    }
}

/// The answer to the words, or the first step of the order of work that refuses.
pub fn answer_words<F: Shelf>(
    alloc: Global,
    words: &[String],
    shelf: &mut F,
) -> Result<Answer, Refusal>
    ensures { Works (form_of (texts words.now)) (seen_shelf F.Shelf shelf.old shelf.new) result }
{
    match parse_form(words) {
        Some(form) => answer_form(alloc, form, shelf),
        None => Err(Refusal::Words),
    }
}

/// Does what the words ask for, and gives the status with which the program ends.
///
/// The whole answer is built before it is written, in one put on `out`. A refusal puts one line on `err`, and nothing
/// on `out` unless `out` failed; if `err` fails, the status is that of the refusal or 11. Status 11, for memory that
/// ran out, is left open by each promise of an answer.
///
/// Its clause has one field for each promise (`Runs`). The field `says` has them in plain words (`RunSays`): of `stand`
/// and `load` the headline, that what is printed is true and is accepted by `check`; what each other form prints means,
/// and when it comes; and how faulty files and files that are too long are refused. The field `meets` is about the
/// order of work, from which they follow. The fields `one_put` and `one_line`: `out` is called once for an answer, also
/// for one whose write fails, and never for another refusal; `err` is called once for a refusal, and never for an
/// answer.
pub fn run<F: Shelf, O: Sink, E: Sink>(
    alloc: Global,
    words: &[String],
    shelf: &mut F,
    out: &mut O,
    err: &mut E,
) -> u8
    ensures { Runs result (form_of (texts words.now)) (seen_shelf F.Shelf shelf.old shelf.new)
        (seen_stream O.Sink out.old out.new) (seen_stream E.Sink err.old err.new) }
{
    printed_is_accepted();
    walls_can_be_surveyed();
    let worked = answer_words(alloc, words, shelf);
    deliver(alloc, worked, out, err)
}
