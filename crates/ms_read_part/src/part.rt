// Parts of bodies, with and without `not`, and heads.
ghost use Rattle.std.specs.Prelude.{◌≡◌, Option, Some, None, IfOk};
ghost use Rattle.ms_grammar.specs.declared.part.Counted.{Counted};
ghost use Rattle.ms_grammar.specs.declared.statement.TextGuard.{TextGuard};
ghost use Rattle.ms_grammar.specs.declared.statement.BodyLit.{BodyLit};
ghost use Rattle.ms_grammar.specs.declared.statement.BodyLit.TheVariants.{Lit};
ghost use Rattle.ms_grammar.specs.declared.statement.Head.{Head as HeadForm};
ghost use Rattle.ms_grammar.specs.Statements.{with_value, Guard, BodyPart, body_part_words, body_part_spelled, HeadPart, head_words, head_spelled};
ghost use Rattle.ms_text.specs.declared.token.TokenKind.{TokenKind};
ghost use Rattle.ms_grammar.specs.Terms.{Term};
ghost use Rattle.ms_grammar.specs.Reading.{EndsPart};
ghost use Rattle.ms_read_part.specs.declared.part.Tail.{Tail};
ghost use Rattle.ms_read_part.specs.Pieces.{TailPart, tail_words, tail_spelled, PlainPart, plain_words, plain_spelled, comparison_words, GroupPart, guarded_words, literal_tail_spelled, guarded_tail_spelled, unled_spelled, led_words, led_spelled, group_from, with_left, part_of, negated_part, head_from, counted_map};
ghost use Rattle.ms_read_part.specs.Cuts.{Reads};

use crate::counted::{alone, beside};
use crate::group::{Group, Guarded, guard, read_guarded};
use crate::input::{Found, Input};
use crate::kinds::{cmp_at, ends_at, opens};
use crate::literal::{Comparison, literal_of, negated_literal, read_comparison};
use crate::term::{Lead, read_lead};
use ms_grammar::part::Counted;
use ms_grammar::statement::{BodyLit, Cmp, Head, TextAgg, TextGuard, TextLit, TextSet};
use ms_text::token::TokenKind;

/// What stands behind a term at the front of a part.
#[derive(Drop)]
pub(crate) enum Tail {
    Literal(Option<Comparison>),
    /// The term bounds what stands in braces.
    Guarded(Cmp, Counted<Guarded>),
}

/// What stands behind a term.
fn read_tail<'a>(input: Input<'a>) -> Found<'a, Tail>
    ensures { IfOk result (Reads TailPart Tail tail_words tail_spelled EndsPart input.entry) }
{
    let front = input.front();
    if opens(front) {
        return read_guarded_tail(Cmp::Le, input);
    }
    let Some(cmp) = cmp_at(front) else {
        return read_literal_tail(input);
    };
    if opens(input.second()) {
        read_guarded_tail(cmp, input.after_front())
    } else {
        read_literal_tail(input)
    }
}

fn read_literal_tail<'a>(input: Input<'a>) -> Found<'a, Tail>
    ensures { IfOk result (Reads (Option (TokenKind × Term)) Tail comparison_words literal_tail_spelled EndsPart input.entry) }
{
    let Some((comparison, rest)) = read_comparison(input)? else {
        return Ok(None);
    };
    Ok(Some((Tail::Literal(comparison), rest)))
}

fn read_guarded_tail<'a>(cmp: Cmp, input: Input<'a>) -> Found<'a, Tail>
    ensures { IfOk result (Reads (GroupPart × Option Guard) Tail guarded_words (guarded_tail_spelled cmp) EndsPart input.entry) }
{
    let Some((group, rest)) = read_guarded(input)? else {
        return Ok(None);
    };
    Ok(Some((Tail::Guarded(cmp, group), rest)))
}

/// What a term is with what stands behind it.
fn part_of(lead: Lead, tail: Tail) -> Option<Counted<BodyLit>>
    ensures { result ≡ part_of lead tail }
{
    match tail {
        Tail::Literal(comparison) => Some(literal(literal_of(lead, comparison)?)),
        Tail::Guarded(cmp, group) => Some(with_left(guard(cmp, lead.into_term()?), group)),
    }
}

fn literal(literal: Counted<TextLit>) -> Counted<BodyLit>
    ensures { result ≡ with_value Lit literal }
{
    Counted {
        value: BodyLit::Lit(literal.value),
        choices: literal.choices,
        elements: literal.elements,
    }
}

/// The set or aggregate with its left guard.
fn with_left(left: Counted<Option<TextGuard>>, group: Counted<Guarded>) -> Counted<BodyLit>
    ensures { result ≡ with_left left group }
{
    let both = beside(left, group);
    let (left, (group, right)) = both.value;
    Counted {
        value: group_from(left, group, right),
        choices: both.choices,
        elements: both.elements,
    }
}

fn group_from(left: Option<TextGuard>, group: Group, right: Option<TextGuard>) -> BodyLit
    ensures { result ≡ group_from left (group, right) }
{
    match group {
        Group::Set(elements) => BodyLit::Set {
            negated: false,
            set: TextSet {
                left,
                elements,
                right,
            },
        },
        Group::Agg(function, elements) => BodyLit::Agg {
            negated: false,
            agg: TextAgg {
                function,
                left,
                elements,
                right,
            },
        },
    }
}

/// The part of a body without `not` at the front.
fn read_plain_part<'a>(input: Input<'a>) -> Found<'a, Counted<BodyLit>>
    ensures { IfOk result (Reads PlainPart (Counted BodyLit) plain_words plain_spelled EndsPart input.entry) }
{
    if opens(input.front()) {
        read_unled(input)
    } else {
        read_led(input)
    }
}

/// The set or aggregate without a left guard at the front.
fn read_unled<'a>(input: Input<'a>) -> Found<'a, Counted<BodyLit>>
    ensures { IfOk result (Reads (GroupPart × Option Guard) (Counted BodyLit) guarded_words unled_spelled EndsPart input.entry) }
{
    let Some((group, rest)) = read_guarded(input)? else {
        return Ok(None);
    };
    Ok(Some((with_left(alone(None), group), rest)))
}

/// The part at the front that begins with a term.
fn read_led<'a>(input: Input<'a>) -> Found<'a, Counted<BodyLit>>
    ensures { IfOk result (Reads (Term × TailPart) (Counted BodyLit) led_words led_spelled EndsPart input.entry) }
{
    let Some((lead, rest)) = read_lead(input)? else {
        return Ok(None);
    };
    let Some((tail, rest)) = read_tail(rest)? else {
        return Ok(None);
    };
    Ok(rest.behind(part_of(lead, tail)))
}

/// The part of a body at the front.
pub(crate) fn read_part<'a>(input: Input<'a>) -> Found<'a, Counted<BodyLit>>
    ensures { IfOk result (Reads BodyPart (Counted BodyLit) body_part_words body_part_spelled EndsPart input.entry) }
{
    if !input.begins_with(TokenKind::Not) {
        return read_plain_part(input);
    }
    let Some((part, rest)) = read_plain_part(input.after_front())? else {
        return Ok(None);
    };
    Ok(rest.behind(counted_negated(part)))
}

fn counted_negated(part: Counted<BodyLit>) -> Option<Counted<BodyLit>>
    ensures { result ≡ counted_map negated_part part }
{
    let Counted {
        value,
        choices,
        elements,
    } = part;
    Some(Counted {
        value: negated(value)?,
        choices,
        elements,
    })
}

/// The part with `not` in front, which a test can't have.
fn negated(part: BodyLit) -> Option<BodyLit>
    ensures { result ≡ negated_part part }
{
    match part {
        BodyLit::Lit(literal) => Some(BodyLit::Lit(negated_literal(literal)?)),
        BodyLit::Set { set, .. } => Some(BodyLit::Set { negated: true, set }),
        BodyLit::Agg { agg, .. } => Some(BodyLit::Agg { negated: true, agg }),
    }
}

/// The head at the front.
pub(crate) fn read_head_form<'a>(input: Input<'a>) -> Found<'a, Counted<Head>>
    ensures { IfOk result (Reads HeadPart (Counted HeadForm) head_words head_spelled EndsPart input.entry) }
{
    if ends_at(input.front()) {
        return Ok(Some((alone(Head::Empty), input)));
    }
    let Some((part, rest)) = read_plain_part(input)? else {
        return Ok(None);
    };
    Ok(rest.behind(counted_head(part)))
}

fn counted_head(part: Counted<BodyLit>) -> Option<Counted<Head>>
    ensures { result ≡ counted_map head_from part }
{
    let Counted {
        value,
        choices,
        elements,
    } = part;
    Some(Counted {
        value: head_from(value)?,
        choices,
        elements,
    })
}

/// The head that the part is. Only an atom or a set may be one.
fn head_from(part: BodyLit) -> Option<Head>
    ensures { result ≡ head_from part }
{
    match part {
        BodyLit::Lit(TextLit::Positive(atom)) => Some(Head::Atom(atom)),
        BodyLit::Set { set, .. } => Some(Head::Set(set)),
        BodyLit::Lit(_) | BodyLit::Agg { .. } => None,
    }
}
