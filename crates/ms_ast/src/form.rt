// Statements as they are printed.
ghost use Rattle.std.specs.Prelude.{◌≡◌, ◌++◌, [], ◌∷◌, map, OnOk};
ghost use Rattle.ms_grammar.specs.Words.{name};
ghost use Rattle.ms_ast.specs.Ink.{Ink, word, ink_text, side_by_side, comma};
ghost use Rattle.ms_ast.specs.Statements.{params_ink, form_ink, statement_text};

use crate::rule::print_rule;
use crate::term::print_term;
use crate::value::print_value;
use crate::word::print_number;
use ms_base::memory::OutOfMemory;
use ms_base::seq::Bytes;
use ms_grammar::statement::Form;

/// Appends a statement.
pub(crate) fn print_statement(form: &Form, into: &mut Vec<u8>) -> Result<(), OutOfMemory>
    ensures { OnOk result (into.new.items ≡ into.old.items ++ statement_text form.now) }
{
    print_form(form, into)?;
    into.push(b'.')?;
    Ok(())
}

fn print_form(form: &Form, into: &mut Vec<u8>) -> Result<(), OutOfMemory>
    ensures { OnOk result (into.new.items ≡ into.old.items ++ ink_text (form_ink form.now)) }
{
    match form {
        Form::Rule { head, body } => print_rule(head, body.as_slice(), into),
        Form::Program { name, params } => {
            into.extend_from_slice(b"#program ")?;
            into.extend_from_slice(name.as_slice())?;
            print_params(params.as_slice(), into)?;
            Ok(())
        }
        Form::External { atom } => {
            into.extend_from_slice(b"#external ")?;
            print_term(atom, into)?;
            Ok(())
        }
        Form::Const { name, value } => {
            into.extend_from_slice(b"#const ")?;
            into.extend_from_slice(name.as_slice())?;
            into.push(b'=')?;
            print_value(value, into)?;
            Ok(())
        }
        Form::Show { name, arity } => {
            into.extend_from_slice(b"#show ")?;
            into.extend_from_slice(name.as_slice())?;
            into.push(b'/')?;
            print_number(*arity, into)?;
            Ok(())
        }
        Form::ShowNone => {
            into.extend_from_slice(b"#show")?;
            Ok(())
        }
        Form::IncludeIncmode => {
            into.extend_from_slice(b"#include <incmode>")?;
            Ok(())
        }
    }
}

/// Appends the parameters of a program part, where there are some.
fn print_params(params: &[Bytes], into: &mut Vec<u8>) -> Result<(), OutOfMemory>
    ensures { OnOk result (into.new.items ≡ into.old.items ++ ink_text (params_ink params.now)) }
{
    if params.is_empty() {
        return Ok(());
    }
    into.push(b'(')?;
    print_names(params, into)?;
    into.push(b')')?;
    Ok(())
}

fn print_names(names: &[Bytes], into: &mut Vec<u8>) -> Result<(), OutOfMemory>
    ensures { OnOk result (into.new.items ≡ into.old.items ++ ink_text (side_by_side comma (map (λ n. word (name n) ∷ []) names.now))) }
{
    let mut between = b"".as_slice();
    for name in names {
        into.extend_from_slice(between)?;
        into.extend_from_slice(name.as_slice())?;
        between = b",";
    }
    Ok(())
}
