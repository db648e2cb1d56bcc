// A statement.
ghost use Rattle.std.specs.Prelude.{◌≡◌, length, IfOk, IfSome};
ghost use Rattle.ms_text.specs.Tokens.{LieWithin};
ghost use Rattle.ms_grammar.specs.declared.statement.Statement.{Statement};
ghost use Rattle.ms_grammar.specs.declared.statement.Form.TheVariants.{External};
ghost use Rattle.ms_grammar.specs.Words.{words_of};
ghost use Rattle.ms_grammar.specs.Statements.{IsStatement, alone, with_value};
ghost use Rattle.ms_parse.specs.Content.{IsContent, statement_from};

use crate::counts::has_few_copies;
use crate::directive::{is_incmode, read_const, read_external, read_show};
use crate::piece::{is_dot, line_of};
use crate::program::read_program;
use crate::rule::read_rule;
use ms_base::memory::OutOfMemory;
use ms_grammar::part::Counted;
use ms_grammar::statement::{Form, Statement};
use ms_grammar::term::TextTerm;
use ms_text::token::{Token, TokenKind};
use std::alloc::Global;

/// The statement that the tokens of a piece spell, if they spell one.
pub(crate) fn read_statement(
    alloc: Global,
    text: &[u8],
    piece: &[Token],
) -> Result<Option<Statement>, OutOfMemory>
    requires { LieWithin (length text.now) piece.now }
    ensures spelled { IfOk result (λ found. IfSome found (IsStatement text.now piece.now)) }
    ensures only { IfOk result
        (λ found. (s : Statement) → IsStatement text.now piece.now s → found ≡ Some s) }
{
    let Some((last, content)) = piece.split_last() else {
        return Ok(None);
    };
    if !is_dot(last) {
        return Ok(None);
    }
    let found = read_content(alloc, text, content)?;
    Ok(statement_from(found, line_of(piece)))
}

// The statement that begins in the line and has this form, where its copies are few.
fn statement_from(found: Option<Counted<Form>>, line: u64) -> Option<Statement>
    ensures { result ≡ statement_from found line }
{
    let form = found?;
    if !has_few_copies(&form) {
        return None;
    }
    Some(Statement {
        line,
        form: form.value,
    })
}

// What the tokens before the dot spell.
fn read_content(
    alloc: Global,
    text: &[u8],
    content: &[Token],
) -> Result<Option<Counted<Form>>, OutOfMemory>
    requires { LieWithin (length text.now) content.now }
    ensures { IfOk result (IsContent (words_of text.now content.now)) }
{
    let Some((first, after)) = content.split_first() else {
        return Ok(None);
    };
    match first.kind {
        TokenKind::Program => Ok(read_program(alloc, text, after)?.map(alone)),
        TokenKind::External => Ok(read_external(alloc, text, after)?.map(external)),
        TokenKind::Const => Ok(read_const(alloc, text, after)?.map(alone)),
        TokenKind::Show => Ok(read_show(alloc, text, after)?.map(alone)),
        TokenKind::Include => Ok(is_incmode(text, after).then_some(alone(Form::IncludeIncmode))),
        _ => read_rule(alloc, text, content),
    }
}

// A form without pools.
fn alone(value: Form) -> Counted<Form>
    ensures { result ≡ alone value }
{
    Counted {
        value,
        choices: 1,
        elements: 0,
    }
}

fn external(atom: Counted<TextTerm>) -> Counted<Form>
    ensures { result ≡ with_value External atom }
{
    Counted {
        choices: atom.choices,
        elements: atom.elements,
        value: Form::External { atom: atom.value },
    }
}
