// Elements of sets and aggregates.
ghost use Rattle.std.specs.Prelude.{◌≡◌, List, map, IfOk};
ghost use Rattle.ms_text.specs.declared.token.TokenKind.TheVariants.{Comma, Semicolon};
ghost use Rattle.ms_grammar.specs.declared.part.Counted.{Counted};
ghost use Rattle.ms_grammar.specs.declared.term.TextTerm.{TextTerm};
ghost use Rattle.ms_grammar.specs.declared.statement.SetElement.{SetElement};
ghost use Rattle.ms_grammar.specs.declared.statement.AggElement.{AggElement};
ghost use Rattle.ms_grammar.specs.Words.{sign, separated};
ghost use Rattle.ms_grammar.specs.Terms.{Term, term_words};
ghost use Rattle.ms_grammar.specs.Statements.{term_spelled, as_element, beside, row_of, SetPart, set_part_words, set_part_spelled, TuplePart, tuple_part_words, tuple_part_spelled};
ghost use Rattle.ms_read_part.specs.Kinds.{EndsElement, EndsElements, EndsTuple};
ghost use Rattle.ms_read_part.specs.Pieces.{row_words, row_spelled};
ghost use Rattle.ms_read_part.specs.Cuts.{Reads};

use crate::counted::{alone, as_element, beside, push, push_term};
use crate::input::{Found, Input};
use crate::literal::read_conditions;
use crate::term::{read_atom, read_bounded};
use ms_base::seq::Seq;
use ms_grammar::part::Counted;
use ms_grammar::statement::{AggElement, AggElements, SetElement, SetElements, TextLits};
use ms_grammar::term::{TextTerm, TextTerms};
use ms_text::token::TokenKind;
use sqlite_items::Items;

/// The element of a set at the front.
fn read_set_element<'a>(input: Input<'a>) -> Found<'a, Counted<SetElement>>
    ensures { IfOk result (Reads SetPart (Counted SetElement) set_part_words set_part_spelled EndsElement input.entry) }
{
    let Some((atom, rest)) = read_atom(input)? else {
        return Ok(None);
    };
    let Some((conds, rest)) = read_conditions(rest)? else {
        return Ok(None);
    };
    Ok(Some((set_element(atom, conds), rest)))
}

fn set_element(atom: Counted<TextTerm>, conds: Counted<TextLits>) -> Counted<SetElement>
    ensures { result ≡ as_element (beside (λ a conds. record { atom = a; conds = conds }) atom conds) }
{
    let both = beside(atom, conds);
    let (atom, conds) = both.value;
    as_element(Counted {
        value: SetElement { atom, conds },
        choices: both.choices,
        elements: both.elements,
    })
}

/// The elements of a set at the front, with semicolons between them.
fn read_some_set_elements<'a>(input: Input<'a>) -> Found<'a, Counted<SetElements>>
    ensures { IfOk result (Reads (SetPart × List SetPart) (Counted (List SetElement)) (row_words (sign Semicolon) set_part_words) (row_spelled set_part_spelled) EndsElements input.entry) }
{
    let mut elements = alone(Seq::new(input.alloc));
    let mut left = input;
    loop {
        let Some((element, rest)) = read_set_element(left)? else {
            return Ok(None);
        };
        push(&mut elements, element)?;
        if !rest.begins_with(TokenKind::Semicolon) {
            return Ok(Some((elements, rest)));
        }
        left = rest.after_front();
    }
}

/// The terms of a tuple at the front, with commas between them.
fn read_tuple<'a>(input: Input<'a>) -> Found<'a, Counted<TextTerms>>
    ensures { IfOk result (Reads (Term × List Term) (Counted (List TextTerm)) (row_words (sign Comma) term_words) (row_spelled term_spelled) EndsTuple input.entry) }
{
    let mut tuple = alone(Items::new(input.alloc));
    let mut left = input;
    loop {
        let Some((term, rest)) = read_bounded(left)? else {
            return Ok(None);
        };
        push_term(&mut tuple, term)?;
        if !rest.begins_with(TokenKind::Comma) {
            return Ok(Some((tuple, rest)));
        }
        left = rest.after_front();
    }
}

/// The element of an aggregate at the front.
fn read_tuple_element<'a>(input: Input<'a>) -> Found<'a, Counted<AggElement>>
    ensures { IfOk result (Reads TuplePart (Counted AggElement) tuple_part_words tuple_part_spelled EndsElement input.entry) }
{
    let Some((tuple, rest)) = read_tuple(input)? else {
        return Ok(None);
    };
    let Some((conds, rest)) = read_conditions(rest)? else {
        return Ok(None);
    };
    Ok(Some((tuple_element(tuple, conds), rest)))
}

fn tuple_element(tuple: Counted<TextTerms>, conds: Counted<TextLits>) -> Counted<AggElement>
    ensures { result ≡ as_element (beside (λ tuple conds. record { tuple = tuple; conds = conds }) tuple conds) }
{
    let both = beside(tuple, conds);
    let (tuple, conds) = both.value;
    as_element(Counted {
        value: AggElement { tuple, conds },
        choices: both.choices,
        elements: both.elements,
    })
}

/// The elements of an aggregate at the front, with semicolons between them.
fn read_some_tuple_elements<'a>(input: Input<'a>) -> Found<'a, Counted<AggElements>>
    ensures { IfOk result (Reads (TuplePart × List TuplePart) (Counted (List AggElement)) (row_words (sign Semicolon) tuple_part_words) (row_spelled tuple_part_spelled) EndsElements input.entry) }
{
    let mut elements = alone(Seq::new(input.alloc));
    let mut left = input;
    loop {
        let Some((element, rest)) = read_tuple_element(left)? else {
            return Ok(None);
        };
        push(&mut elements, element)?;
        if !rest.begins_with(TokenKind::Semicolon) {
            return Ok(Some((elements, rest)));
        }
        left = rest.after_front();
    }
}

/// The elements of a set at the front, if any, up to the brace behind them.
pub(crate) fn read_set_elements<'a>(input: Input<'a>) -> Found<'a, Counted<SetElements>>
    ensures { IfOk result (Reads (List SetPart) (Counted (List SetElement)) (λ es. separated (sign Semicolon) (map set_part_words es)) (row_of set_part_spelled) EndsElements input.entry) }
{
    if input.begins_with(TokenKind::RightBrace) {
        return Ok(Some((alone(Seq::new(input.alloc)), input)));
    }
    read_some_set_elements(input)
}

/// The elements of an aggregate at the front, if any, up to the brace behind them.
pub(crate) fn read_tuple_elements<'a>(input: Input<'a>) -> Found<'a, Counted<AggElements>>
    ensures { IfOk result (Reads (List TuplePart) (Counted (List AggElement)) (λ es. separated (sign Semicolon) (map tuple_part_words es)) (row_of tuple_part_spelled) EndsElements input.entry) }
{
    if input.begins_with(TokenKind::RightBrace) {
        return Ok(Some((alone(Seq::new(input.alloc)), input)));
    }
    read_some_tuple_elements(input)
}
