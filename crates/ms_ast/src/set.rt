// Sets and aggregates as they are printed.
ghost use Rattle.std.specs.Prelude.{◌≡◌, ◌++◌, [], ◌∷◌, map, OnOk};
ghost use Rattle.ms_text.specs.declared.token.TokenKind.TheVariants.{LeftBrace};
ghost use Rattle.ms_grammar.specs.Statements.{function_kind};
ghost use Rattle.ms_ast.specs.Ink.{ink_text, mark, side_by_side, semicolon_blank};
ghost use Rattle.ms_ast.specs.Statements.{set_element_ink, agg_element_ink, left_ink, right_ink, set_ink, agg_ink};

use crate::literal::{cmp_text, print_conditions};
use crate::term::{print_list, print_term};
use ms_base::memory::OutOfMemory;
use ms_grammar::statement::{AggElement, AggFn, SetElement, TextAgg, TextGuard, TextSet};

/// Appends a set with its guards.
pub(crate) fn print_set(set: &TextSet, into: &mut Vec<u8>) -> Result<(), OutOfMemory>
    ensures { OnOk result (into.new.items ≡ into.old.items ++ ink_text (set_ink set.now)) }
{
    print_left(&set.left, into)?;
    into.push(b'{')?;
    print_set_elements(set.elements.as_slice(), into)?;
    into.push(b'}')?;
    print_right(&set.right, into)?;
    Ok(())
}

/// Appends an aggregate with its guards.
pub(crate) fn print_agg(agg: &TextAgg, into: &mut Vec<u8>) -> Result<(), OutOfMemory>
    ensures { OnOk result (into.new.items ≡ into.old.items ++ ink_text (agg_ink agg.now)) }
{
    print_left(&agg.left, into)?;
    into.extend_from_slice(opening(agg.function))?;
    print_agg_elements(agg.elements.as_slice(), into)?;
    into.push(b'}')?;
    print_right(&agg.right, into)?;
    Ok(())
}

/// A function and the brace behind it.
fn opening(function: AggFn) -> &'static [u8]
    ensures { result.now ≡ ink_text (mark (function_kind function) ∷ mark LeftBrace ∷ []) }
{
    match function {
        AggFn::Count => b"#count{",
        AggFn::Sum => b"#sum{",
    }
}

/// Appends a guard on the left.
fn print_left(guard: &Option<TextGuard>, into: &mut Vec<u8>) -> Result<(), OutOfMemory>
    ensures { OnOk result (into.new.items ≡ into.old.items ++ ink_text (left_ink guard.now)) }
{
    let Some(guard) = guard else {
        return Ok(());
    };
    print_term(&guard.bound, into)?;
    into.extend_from_slice(cmp_text(guard.cmp))?;
    Ok(())
}

/// Appends a guard on the right.
fn print_right(guard: &Option<TextGuard>, into: &mut Vec<u8>) -> Result<(), OutOfMemory>
    ensures { OnOk result (into.new.items ≡ into.old.items ++ ink_text (right_ink guard.now)) }
{
    let Some(guard) = guard else {
        return Ok(());
    };
    into.extend_from_slice(cmp_text(guard.cmp))?;
    print_term(&guard.bound, into)?;
    Ok(())
}

fn print_set_elements(elements: &[SetElement], into: &mut Vec<u8>) -> Result<(), OutOfMemory>
    ensures { OnOk result (into.new.items ≡ into.old.items ++ ink_text (side_by_side semicolon_blank (map set_element_ink elements.now))) }
{
    let mut between = b"".as_slice();
    for element in elements {
        into.extend_from_slice(between)?;
        print_set_element(element, into)?;
        between = b"; ";
    }
    Ok(())
}

fn print_set_element(element: &SetElement, into: &mut Vec<u8>) -> Result<(), OutOfMemory>
    ensures { OnOk result (into.new.items ≡ into.old.items ++ ink_text (set_element_ink element.now)) }
{
    print_term(&element.atom, into)?;
    print_conditions(element.conds.as_slice(), into)?;
    Ok(())
}

fn print_agg_elements(elements: &[AggElement], into: &mut Vec<u8>) -> Result<(), OutOfMemory>
    ensures { OnOk result (into.new.items ≡ into.old.items ++ ink_text (side_by_side semicolon_blank (map agg_element_ink elements.now))) }
{
    let mut between = b"".as_slice();
    for element in elements {
        into.extend_from_slice(between)?;
        print_agg_element(element, into)?;
        between = b"; ";
    }
    Ok(())
}

fn print_agg_element(element: &AggElement, into: &mut Vec<u8>) -> Result<(), OutOfMemory>
    ensures { OnOk result (into.new.items ≡ into.old.items ++ ink_text (agg_element_ink element.now)) }
{
    print_list(element.tuple.as_slice(), into)?;
    print_conditions(element.conds.as_slice(), into)?;
    Ok(())
}
