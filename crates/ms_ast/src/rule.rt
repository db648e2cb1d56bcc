// Rules as they are printed.
ghost use Rattle.std.specs.Prelude.{◌≡◌, ◌++◌, OnOk};
ghost use Rattle.ms_ast.specs.Ink.{ink_text};
ghost use Rattle.ms_ast.specs.Statements.{negation_ink, part_ink, body_ink, behind_head, rule_ink};

use crate::literal::print_literal;
use crate::set::{print_agg, print_set};
use crate::term::print_term;
use ms_base::memory::OutOfMemory;
use ms_grammar::statement::{BodyLit, Head};

/// Appends a rule without its dot. One without a head has its `:-` always.
pub(crate) fn print_rule(
    head: &Head,
    body: &[BodyLit],
    into: &mut Vec<u8>,
) -> Result<(), OutOfMemory>
    ensures { OnOk result (into.new.items ≡ into.old.items ++ ink_text (rule_ink head.now body.now)) }
{
    match head {
        Head::Empty => {
            into.extend_from_slice(b":- ")?;
            print_body(body, into)?;
            Ok(())
        }
        Head::Atom(atom) => {
            print_term(atom, into)?;
            print_behind_head(body, into)?;
            Ok(())
        }
        Head::Set(set) => {
            print_set(set, into)?;
            print_behind_head(body, into)?;
            Ok(())
        }
    }
}

/// Appends `:-` and the body, where it isn't empty.
fn print_behind_head(body: &[BodyLit], into: &mut Vec<u8>) -> Result<(), OutOfMemory>
    ensures { OnOk result (into.new.items ≡ into.old.items ++ ink_text (behind_head body.now)) }
{
    if body.is_empty() {
        return Ok(());
    }
    into.extend_from_slice(b" :- ")?;
    print_body(body, into)?;
    Ok(())
}

fn print_body(body: &[BodyLit], into: &mut Vec<u8>) -> Result<(), OutOfMemory>
    ensures { OnOk result (into.new.items ≡ into.old.items ++ ink_text (body_ink body.now)) }
{
    let mut between = b"".as_slice();
    for part in body {
        into.extend_from_slice(between)?;
        print_part(part, into)?;
        between = b", ";
    }
    Ok(())
}

fn print_part(part: &BodyLit, into: &mut Vec<u8>) -> Result<(), OutOfMemory>
    ensures { OnOk result (into.new.items ≡ into.old.items ++ ink_text (part_ink part.now)) }
{
    match part {
        BodyLit::Lit(literal) => print_literal(literal, into),
        BodyLit::Set { negated, set } => {
            print_negation(*negated, into)?;
            print_set(set, into)?;
            Ok(())
        }
        BodyLit::Agg { negated, agg } => {
            print_negation(*negated, into)?;
            print_agg(agg, into)?;
            Ok(())
        }
    }
}

fn print_negation(negated: bool, into: &mut Vec<u8>) -> Result<(), OutOfMemory>
    ensures { OnOk result (into.new.items ≡ into.old.items ++ ink_text (negation_ink negated)) }
{
    if negated {
        into.extend_from_slice(b"not ")?;
    }
    Ok(())
}
