// Literals, and the conditions of elements.
ghost use Rattle.std.specs.Prelude.{◌≡◌, List, Option, IfOk};
ghost use Rattle.ms_text.specs.declared.token.TokenKind.{TokenKind};
ghost use Rattle.ms_text.specs.declared.token.TokenKind.TheVariants.{Comma};
ghost use Rattle.ms_grammar.specs.declared.part.Counted.{Counted};
ghost use Rattle.ms_grammar.specs.declared.term.TextTerm.{TextTerm};
ghost use Rattle.ms_grammar.specs.declared.statement.Cmp.{Cmp};
ghost use Rattle.ms_grammar.specs.declared.statement.TextLit.{TextLit};
ghost use Rattle.ms_grammar.specs.Words.{sign};
ghost use Rattle.ms_grammar.specs.Terms.{Term};
ghost use Rattle.ms_grammar.specs.Statements.{Literal, literal_words, literal_spelled, Conditions, conditions_words, conditions_spelled, with_value, beside};
ghost use Rattle.ms_grammar.specs.declared.statement.TextLit.TheVariants.{Positive, Test};
ghost use Rattle.ms_grammar.specs.Reading.{EndsPart};
ghost use Rattle.ms_read_part.specs.Kinds.{EndsElement};
ghost use Rattle.ms_read_part.specs.Pieces.{comparison_words, comparison_spelled, literal_of, plain_literal_words, plain_literal_spelled, negated_literal, counted_map, row_words, row_spelled};
ghost use Rattle.ms_read_part.specs.Cuts.{Reads};

use crate::counted::{alone, beside, push};
use crate::input::{Found, Input};
use crate::kinds::{cmp_at, ends_element};
use crate::term::{Lead, read_bounded, read_lead};
use ms_base::seq::Seq;
use ms_grammar::part::Counted;
use ms_grammar::statement::{Cmp, TextLit, TextLits};
use ms_grammar::term::TextTerm;
use ms_text::token::TokenKind;

/// A comparison with the term behind it.
pub(crate) type Comparison = (Cmp, Counted<TextTerm>);

/// The comparison at the front, if one is there.
pub(crate) fn read_comparison<'a>(input: Input<'a>) -> Found<'a, Option<Comparison>>
    ensures { IfOk result (Reads (Option (TokenKind × Term)) (Option (Cmp × Counted TextTerm)) comparison_words comparison_spelled EndsPart input.entry) }
{
    let Some(cmp) = cmp_at(input.front()) else {
        return Ok(Some((None, input)));
    };
    let Some((right, rest)) = read_bounded(input.after_front())? else {
        return Ok(None);
    };
    Ok(Some((Some((cmp, right)), rest)))
}

/// What a term is with the comparison behind it: an atom, or a test.
pub(crate) fn literal_of(lead: Lead, comparison: Option<Comparison>) -> Option<Counted<TextLit>>
    ensures { result ≡ literal_of lead comparison }
{
    match comparison {
        None => Some(positive(lead.into_atom()?)),
        Some((cmp, right)) => Some(test(lead.into_term()?, cmp, right)),
    }
}

fn positive(atom: Counted<TextTerm>) -> Counted<TextLit>
    ensures { result ≡ with_value Positive atom }
{
    Counted {
        value: TextLit::Positive(atom.value),
        choices: atom.choices,
        elements: atom.elements,
    }
}

fn test(left: Counted<TextTerm>, cmp: Cmp, right: Counted<TextTerm>) -> Counted<TextLit>
    ensures { result ≡ beside (λ t u. Test t cmp u) left right }
{
    let both = beside(left, right);
    let (left, right) = both.value;
    Counted {
        value: TextLit::Test { left, cmp, right },
        choices: both.choices,
        elements: both.elements,
    }
}

/// The literal without `not` at the front.
fn read_plain_literal<'a>(input: Input<'a>) -> Found<'a, Counted<TextLit>>
    ensures { IfOk result (Reads (Term × Option (TokenKind × Term)) (Counted TextLit) plain_literal_words plain_literal_spelled EndsPart input.entry) }
{
    let Some((lead, rest)) = read_lead(input)? else {
        return Ok(None);
    };
    let Some((comparison, rest)) = read_comparison(rest)? else {
        return Ok(None);
    };
    Ok(rest.behind(literal_of(lead, comparison)))
}

/// The literal with `not` in front, which only an atom may have.
pub(crate) fn negated_literal(literal: TextLit) -> Option<TextLit>
    ensures { result ≡ negated_literal literal }
{
    match literal {
        TextLit::Positive(atom) => Some(TextLit::Negated(atom)),
        TextLit::Negated(_) | TextLit::Test { .. } => None,
    }
}

fn counted_negated(literal: Counted<TextLit>) -> Option<Counted<TextLit>>
    ensures { result ≡ counted_map negated_literal literal }
{
    let Counted {
        value,
        choices,
        elements,
    } = literal;
    Some(Counted {
        value: negated_literal(value)?,
        choices,
        elements,
    })
}

/// The literal at the front.
fn read_literal<'a>(input: Input<'a>) -> Found<'a, Counted<TextLit>>
    ensures { IfOk result (Reads Literal (Counted TextLit) literal_words literal_spelled EndsPart input.entry) }
{
    if !input.begins_with(TokenKind::Not) {
        return read_plain_literal(input);
    }
    let Some((literal, rest)) = read_plain_literal(input.after_front())? else {
        return Ok(None);
    };
    Ok(rest.behind(counted_negated(literal)))
}

/// The literals at the front, with commas between them.
fn read_literals<'a>(input: Input<'a>) -> Found<'a, Counted<TextLits>>
    ensures { IfOk result (Reads (Literal × List Literal) (Counted (List TextLit)) (row_words (sign Comma) literal_words) (row_spelled literal_spelled) EndsElement input.entry) }
{
    let mut literals = alone(Seq::new(input.alloc));
    let mut left = input;
    loop {
        let Some((literal, rest)) = read_literal(left)? else {
            return Ok(None);
        };
        push(&mut literals, literal)?;
        if !rest.begins_with(TokenKind::Comma) {
            return Ok(Some((literals, rest)));
        }
        left = rest.after_front();
    }
}

/// The conditions at the front, if a colon is there.
pub(crate) fn read_conditions<'a>(input: Input<'a>) -> Found<'a, Counted<TextLits>>
    ensures { IfOk result (Reads Conditions (Counted (List TextLit)) conditions_words conditions_spelled EndsElement input.entry) }
{
    if !input.begins_with(TokenKind::Colon) {
        return Ok(Some((alone(Seq::new(input.alloc)), input)));
    }
    let rest = input.after_front();
    if ends_element(rest.front()) {
        return Ok(Some((alone(Seq::new(rest.alloc)), rest)));
    }
    read_literals(rest)
}
