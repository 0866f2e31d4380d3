//! The forms of words.

ghost use Rattle.std.specs.Prelude.{◌≡◌, ◌≢◌, IfSome};
ghost use Rattle.std.specs.Option.{option_map};
ghost use Rattle.stack_cli.specs.Words.{form_of, texts, question_of as question_of_word};
ghost use Rattle.stack_cli.specs.Words.{number_spelled as number_of_word, budget_of as budget_of_word};
ghost use Rattle.stack_cli.specs.Words.{judging as judging_of, stack_kind as kind_of_word, stacking as stacking_of};
ghost use Rattle.stack_cli.specs.Words.{form_of_two as form_of_two_words, form_of_three as form_of_three_words};
ghost use Rattle.stack_cli.specs.Words.{form_of_four as form_of_four_words, ranging as ranging_of};
ghost use Rattle.stack_cli.specs.Words.{staging as staging_of, yielding as yielding_of};
ghost use Rattle.stack_cli.specs.Words.{form_of_five as form_of_five_words, form_of_six as form_of_six_words};
ghost use Rattle.stack_work.specs.Forms.{form_view, HasBudget};

use itoa::Buffer;
use stack_equilibrium::Question;
use stack_forms::{DEFAULT_BUDGET, Form, Kind};

/// The question that a word asks: `stand` about the dead loads, `load` about the live loads.
fn question_of(word: &str) -> Option<Question>
    ensures { result ≡ question_of_word word.now }
{
    if word == "stand" {
        Some(Question::Dead)
    } else if word == "load" {
        Some(Question::Live)
    } else {
        None
    }
}

/// The number that a word spells: decimal, from 0 to 4,294,967,295, without sign or leading zeros. A number has one
/// such spelling, so it's printed again and compared.
fn number_of(word: &str) -> Option<u32>
    ensures { result ≡ number_of_word word.now }
{
    let Ok(number) = word.parse::<u32>() else {
        return None;
    };
    let mut buffer = Buffer::new();
    if buffer.format(number) == word {
        Some(number)
    } else {
        None
    }
}

/// The budget that a word spells: such a number, but not 0.
fn budget_of(word: &str) -> Option<u32>
    ensures is { result ≡ budget_of_word word.now }
    ensures some { IfSome result (λ n. n ≢ 0) }
{
    match number_of(word) {
        Some(budget) if budget > 0 => Some(budget),
        _ => None,
    }
}

/// The form of a question about a model, if the word asks one and the budget is one.
fn judging<'a>(question: Option<Question>, model: &'a str, budget: Option<u32>) -> Option<Form<'a>>
    requires { IfSome budget (λ n. n ≢ 0) }
    ensures is { option_map form_view result ≡ judging_of question model.now budget }
    ensures budget { IfSome result HasBudget }
{
    match (question, budget) {
        (Some(question), Some(budget)) => Some(Form::Judge {
            question,
            model,
            budget,
        }),
        _ => None,
    }
}

/// The form of the range of a model, if the budget is one.
fn ranging<'a>(model: &'a str, budget: Option<u32>) -> Option<Form<'a>>
    requires { IfSome budget (λ n. n ≢ 0) }
    ensures is { option_map form_view result ≡ ranging_of model.now budget }
    ensures budget { IfSome result HasBudget }
{
    match budget {
        Some(budget) => Some(Form::Range { model, budget }),
        None => None,
    }
}

/// The form of the stages of an order, if the budget is one.
fn staging<'a>(model: &'a str, order: &'a str, budget: Option<u32>) -> Option<Form<'a>>
    requires { IfSome budget (λ n. n ≢ 0) }
    ensures is { option_map form_view result ≡ staging_of model.now order.now budget }
    ensures budget { IfSome result HasBudget }
{
    match budget {
        Some(budget) => Some(Form::Stages {
            model,
            order,
            budget,
        }),
        None => None,
    }
}

/// The form of the region of two loads, if both have a number and the budget is one.
fn yielding<'a>(
    model: &'a str,
    first: Option<u32>,
    second: Option<u32>,
    directions: &'a str,
    budget: Option<u32>,
) -> Option<Form<'a>>
    requires { IfSome budget (λ n. n ≢ 0) }
    ensures is { option_map form_view result ≡ yielding_of model.now first second directions.now budget }
    ensures budget { IfSome result HasBudget }
{
    match (first, second, budget) {
        (Some(first), Some(second), Some(budget)) => Some(Form::Yield {
            model,
            first,
            second,
            directions,
            budget,
        }),
        _ => None,
    }
}

/// The kind of stack that a word names.
fn kind_of(word: &str) -> Option<Kind>
    ensures { result ≡ kind_of_word word.now }
{
    if word == "harmonic" {
        Some(Kind::Harmonic)
    } else if word == "triangle" {
        Some(Kind::Triangle)
    } else if word == "slab" {
        Some(Kind::Slab)
    } else {
        None
    }
}

/// The form of a built-in stack, if the word names a kind and the size is a number.
fn stacking<'a>(kind: Option<Kind>, size: Option<u32>) -> Option<Form<'a>>
    ensures is { option_map form_view result ≡ stacking_of kind size }
    ensures budget { IfSome result HasBudget }
{
    match (kind, size) {
        (Some(kind), Some(size)) => Some(Form::Stack { kind, size }),
        _ => None,
    }
}

/// The form of a word before one more.
fn form_of_two<'a>(word: &str, last: &'a str) -> Option<Form<'a>>
    ensures is { option_map form_view result ≡ form_of_two_words word.now last.now }
    ensures budget { IfSome result HasBudget }
{
    if word == "contacts" {
        return Some(Form::Contacts { model: last });
    }
    if word == "sample" {
        return number_of(last).map(|number| Form::Sample { number });
    }
    if word == "range" {
        return ranging(last, Some(DEFAULT_BUDGET));
    }
    judging(question_of(word), last, Some(DEFAULT_BUDGET))
}

/// The form of a word before two more.
fn form_of_three<'a>(word: &str, next: &'a str, last: &'a str) -> Option<Form<'a>>
    ensures is { option_map form_view result ≡ form_of_three_words word.now next.now last.now }
    ensures budget { IfSome result HasBudget }
{
    if word == "check" {
        return Some(Form::Check {
            model: next,
            certificate: last,
        });
    }
    if word == "table" {
        return Some(Form::Table {
            model: next,
            certificate: last,
        });
    }
    if word == "stack" {
        return stacking(kind_of(next), number_of(last));
    }
    if word == "range" {
        return ranging(next, budget_of(last));
    }
    if word == "stages" {
        return staging(next, last, Some(DEFAULT_BUDGET));
    }
    judging(question_of(word), next, budget_of(last))
}

/// The form of a word before three more.
fn form_of_four<'a>(word: &str, next: &'a str, third: &'a str, last: &str) -> Option<Form<'a>>
    ensures is { option_map form_view result ≡ form_of_four_words word.now next.now third.now last.now }
    ensures budget { IfSome result HasBudget }
{
    if word == "stages" {
        return staging(next, third, budget_of(last));
    }
    None
}

/// The form of a word before four more.
fn form_of_five<'a>(
    word: &str,
    next: &'a str,
    third: &str,
    fourth: &str,
    last: &'a str,
) -> Option<Form<'a>>
    ensures is { option_map form_view result
        ≡ form_of_five_words word.now next.now third.now fourth.now last.now }
    ensures budget { IfSome result HasBudget }
{
    if word == "yield" {
        return yielding(
            next,
            number_of(third),
            number_of(fourth),
            last,
            Some(DEFAULT_BUDGET),
        );
    }
    None
}

/// The form of a word before five more.
fn form_of_six<'a>(
    word: &str,
    next: &'a str,
    third: &str,
    fourth: &str,
    fifth: &'a str,
    last: &str,
) -> Option<Form<'a>>
    ensures is { option_map form_view result
        ≡ form_of_six_words word.now next.now third.now fourth.now fifth.now last.now }
    ensures budget { IfSome result HasBudget }
{
    if word == "yield" {
        return yielding(
            next,
            number_of(third),
            number_of(fourth),
            fifth,
            budget_of(last),
        );
    }
    None
}

/// The form of the words, exactly if they have one. Takes no memory.
pub fn parse_form(words: &[String]) -> Option<Form<'_>>
    ensures is { option_map form_view result ≡ form_of (texts words.now) }
    ensures budget { IfSome result HasBudget }
{
    match words {
        [word, last] => form_of_two(word.as_str(), last.as_str()),
        [word, next, last] => form_of_three(word.as_str(), next.as_str(), last.as_str()),
        [word, next, third, last] => {
            form_of_four(word.as_str(), next.as_str(), third.as_str(), last.as_str())
        }
        [word, next, third, fourth, last] => form_of_five(
            word.as_str(),
            next.as_str(),
            third.as_str(),
            fourth.as_str(),
            last.as_str(),
        ),
        [word, next, third, fourth, fifth, last] => form_of_six(
            word.as_str(),
            next.as_str(),
            third.as_str(),
            fourth.as_str(),
            fifth.as_str(),
            last.as_str(),
        ),
        _ => None,
    }
}
