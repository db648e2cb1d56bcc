// Literals and conditions as they are printed.
ghost use Rattle.std.specs.Prelude.{◌≡◌, ◌++◌, map, OnOk};
ghost use Rattle.ms_ast.specs.Ink.{ink_text, side_by_side, comma_blank, apart};
ghost use Rattle.ms_ast.specs.Terms.{term_ink};
ghost use Rattle.ms_ast.specs.Statements.{cmp_kind, literal_ink, conditions_ink};

use crate::term::print_term;
use ms_base::memory::OutOfMemory;
use ms_grammar::statement::{Cmp, TextLit};
use ms_grammar::term::TextTerm;

/// Appends a literal.
pub(crate) fn print_literal(literal: &TextLit, into: &mut Vec<u8>) -> Result<(), OutOfMemory>
    ensures { OnOk result (into.new.items ≡ into.old.items ++ ink_text (literal_ink literal.now)) }
{
    match literal {
        TextLit::Positive(atom) => print_term(atom, into),
        TextLit::Negated(atom) => {
            into.extend_from_slice(b"not ")?;
            print_term(atom, into)?;
            Ok(())
        }
        TextLit::Test { left, cmp, right } => print_comparison(left, *cmp, right, into),
    }
}

fn print_comparison(
    left: &TextTerm,
    cmp: Cmp,
    right: &TextTerm,
    into: &mut Vec<u8>,
) -> Result<(), OutOfMemory>
    ensures { OnOk result (into.new.items ≡ into.old.items ++ ink_text (term_ink left.now ++ (apart (cmp_kind cmp) ++ term_ink right.now))) }
{
    print_term(left, into)?;
    into.extend_from_slice(cmp_text(cmp))?;
    print_term(right, into)?;
    Ok(())
}

/// A comparison with a blank on both sides.
pub(crate) fn cmp_text(cmp: Cmp) -> &'static [u8]
    ensures { result.now ≡ ink_text (apart (cmp_kind cmp)) }
{
    match cmp {
        Cmp::Eq => b" = ",
        Cmp::Ne => b" != ",
        Cmp::Lt => b" < ",
        Cmp::Le => b" <= ",
        Cmp::Gt => b" > ",
        Cmp::Ge => b" >= ",
    }
}

/// Appends a colon and the conditions, where there are some.
pub(crate) fn print_conditions(conds: &[TextLit], into: &mut Vec<u8>) -> Result<(), OutOfMemory>
    ensures { OnOk result (into.new.items ≡ into.old.items ++ ink_text (conditions_ink conds.now)) }
{
    if conds.is_empty() {
        return Ok(());
    }
    into.extend_from_slice(b" : ")?;
    print_literals(conds, into)?;
    Ok(())
}

fn print_literals(literals: &[TextLit], into: &mut Vec<u8>) -> Result<(), OutOfMemory>
    ensures { OnOk result (into.new.items ≡ into.old.items ++ ink_text (side_by_side comma_blank (map literal_ink literals.now))) }
{
    let mut between = b"".as_slice();
    for literal in literals {
        into.extend_from_slice(between)?;
        print_literal(literal, into)?;
        between = b", ";
    }
    Ok(())
}
