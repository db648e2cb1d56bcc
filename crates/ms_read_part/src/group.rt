// Sets and aggregates, from their braces on.
ghost use Rattle.std.specs.Prelude.{◌≡◌, List, Option, Some, IfOk, ⊤};
ghost use Rattle.ms_grammar.specs.declared.part.Counted.{Counted};
ghost use Rattle.ms_grammar.specs.declared.statement.TextGuard.{TextGuard};
ghost use Rattle.ms_grammar.specs.declared.statement.SetElement.{SetElement};
ghost use Rattle.ms_grammar.specs.declared.statement.AggElement.{AggElement};
ghost use Rattle.ms_grammar.specs.Statements.{with_value, beside, row_of, Guard, right_words, guard_spelled, SetPart, set_part_spelled, TuplePart, tuple_part_spelled};
ghost use Rattle.ms_grammar.specs.Reading.{EndsPart, EndsTerm};
ghost use Rattle.ms_read_part.specs.declared.group.Group.{Group};
ghost use Rattle.ms_read_part.specs.Pieces.{GroupPart, group_words, group_spelled, guarded_words, guarded_spelled, bound_spelled, set_words, set_spelled, tuples_words, aggregate_group_spelled, closed_by};
ghost use Rattle.ms_read_part.specs.declared.group.Group.TheVariants.{Set, Agg};
ghost use Rattle.ms_grammar.specs.Terms.{Term, term_words};
ghost use Rattle.ms_read_part.specs.Cuts.{Reads};

use crate::counted::{alone, beside};
use crate::element::{read_set_elements, read_tuple_elements};
use crate::input::{Found, Input};
use crate::kinds::{Opening, cmp_at, ends_at, opened_by};
use crate::term::read_bounded;
use ms_grammar::part::Counted;
use ms_grammar::statement::{AggElements, AggFn, Cmp, SetElements, TextGuard};
use ms_grammar::term::TextTerm;
use ms_text::token::TokenKind;

/// What stands in braces.
#[derive(Drop)]
pub(crate) enum Group {
    Set(SetElements),
    Agg(AggFn, AggElements),
}

/// A group with the guard behind it.
pub(crate) type Guarded = (Group, Option<TextGuard>);

/// The guard that bounds by the term.
pub(crate) fn guard(cmp: Cmp, bound: Counted<TextTerm>) -> Counted<Option<TextGuard>>
    ensures { result ≡ with_value (λ t. Some (record { cmp = cmp; bound = t })) bound }
{
    Counted {
        value: Some(TextGuard {
            cmp,
            bound: bound.value,
        }),
        choices: bound.choices,
        elements: bound.elements,
    }
}

/// The guard behind a brace at the front, if one is there.
fn read_right_guard<'a>(input: Input<'a>) -> Found<'a, Counted<Option<TextGuard>>>
    ensures { IfOk result (Reads (Option Guard) (Counted (Option TextGuard)) right_words guard_spelled EndsPart input.entry) }
{
    let front = input.front();
    if ends_at(front) {
        return Ok(Some((alone(None), input)));
    }
    match cmp_at(front) {
        Some(cmp) => read_bound(cmp, input.after_front()),
        None => read_bound(Cmp::Le, input),
    }
}

/// The term at the front, as a bound.
fn read_bound<'a>(cmp: Cmp, input: Input<'a>) -> Found<'a, Counted<Option<TextGuard>>>
    ensures { IfOk result (Reads Term (Counted (Option TextGuard)) term_words (bound_spelled cmp) EndsTerm input.entry) }
{
    let Some((bound, rest)) = read_bounded(input)? else {
        return Ok(None);
    };
    Ok(Some((guard(cmp, bound), rest)))
}

/// The elements of a set in braces at the front.
fn read_set<'a>(input: Input<'a>) -> Found<'a, Counted<SetElements>>
    ensures { IfOk result (Reads (List SetPart) (Counted (List SetElement)) set_words (row_of set_part_spelled) (λ ws. ⊤) input.entry) }
{
    if !input.begins_with(TokenKind::LeftBrace) {
        return Ok(None);
    }
    let Some((elements, rest)) = read_set_elements(input.after_front())? else {
        return Ok(None);
    };
    Ok(closed(elements, rest))
}

/// The elements of an aggregate in braces at the front.
fn read_tuples<'a>(input: Input<'a>) -> Found<'a, Counted<AggElements>>
    ensures { IfOk result (Reads (List TuplePart) (Counted (List AggElement)) tuples_words (row_of tuple_part_spelled) (λ ws. ⊤) input.entry) }
{
    if !input.begins_with(TokenKind::LeftBrace) {
        return Ok(None);
    }
    let Some((elements, rest)) = read_tuple_elements(input.after_front())? else {
        return Ok(None);
    };
    Ok(closed(elements, rest))
}

/// The elements, if a brace stands behind them.
fn closed<'a, T: Drop>(elements: T, rest: Input<'a>) -> Option<(T, Input<'a>)>
    ensures { result ≡ closed_by elements rest.entry }
{
    if rest.begins_with(TokenKind::RightBrace) {
        Some((elements, rest.after_front()))
    } else {
        None
    }
}

/// The group at the front.
fn read_group<'a>(input: Input<'a>) -> Found<'a, Counted<Group>>
    ensures { IfOk result (Reads GroupPart (Counted Group) group_words group_spelled (λ ws. ⊤) input.entry) }
{
    match opened_by(input.front()) {
        Some(Opening::Set) => read_set_group(input),
        Some(Opening::Aggregate(function)) => read_aggregate_group(function, input.after_front()),
        None => Ok(None),
    }
}

/// The set at the front, as a group.
fn read_set_group<'a>(input: Input<'a>) -> Found<'a, Counted<Group>>
    ensures { IfOk result (Reads (List SetPart) (Counted Group) set_words set_spelled (λ ws. ⊤) input.entry) }
{
    let Some((elements, rest)) = read_set(input)? else {
        return Ok(None);
    };
    Ok(Some((set(elements), rest)))
}

/// The elements of the function at the front, as a group.
fn read_aggregate_group<'a>(function: AggFn, input: Input<'a>) -> Found<'a, Counted<Group>>
    ensures { IfOk result (Reads (List TuplePart) (Counted Group) tuples_words (aggregate_group_spelled function) (λ ws. ⊤) input.entry) }
{
    let Some((elements, rest)) = read_tuples(input)? else {
        return Ok(None);
    };
    Ok(Some((aggregate(function, elements), rest)))
}

fn set(elements: Counted<SetElements>) -> Counted<Group>
    ensures { result ≡ with_value Set elements }
{
    Counted {
        value: Group::Set(elements.value),
        choices: elements.choices,
        elements: elements.elements,
    }
}

fn aggregate(function: AggFn, elements: Counted<AggElements>) -> Counted<Group>
    ensures { result ≡ with_value (Agg function) elements }
{
    Counted {
        value: Group::Agg(function, elements.value),
        choices: elements.choices,
        elements: elements.elements,
    }
}

/// The group at the front, with the guard behind it.
pub(crate) fn read_guarded<'a>(input: Input<'a>) -> Found<'a, Counted<Guarded>>
    ensures { IfOk result (Reads (GroupPart × Option Guard) (Counted (Group × Option TextGuard)) guarded_words guarded_spelled EndsPart input.entry) }
{
    let Some((group, rest)) = read_group(input)? else {
        return Ok(None);
    };
    let Some((right, rest)) = read_right_guard(rest)? else {
        return Ok(None);
    };
    Ok(Some((beside(group, right), rest)))
}
