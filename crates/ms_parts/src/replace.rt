// Parameters and constants are replaced in terms.
ghost use Rattle.std.specs.Prelude.{◌≡◌, IfOk, [], ◌∷◌, map};
ghost use Rattle.ms_core.specs.Replacing.{value_term, replaced, replaced_name, replace_step, replaced_atom};
ghost use Rattle.ms_grammar.specs.declared.term.TextTerm.TheOpen.{TextTerm-F};
ghost use Rattle.ms_parts.specs.Meanings.{meant};

use crate::duplicate::{Duplicate, duplicate_bytes};
use crate::meaning::Meanings;
use ms_base::memory::OutOfMemory;
use ms_base::seq::Bytes;
use ms_grammar::term::{TermLists, TextTerm, TextTerms};
use ms_grammar::value::Value;
use sqlite_items::{Boxed, Items};
use std::alloc::Global;

/// A value as a term.
#[cycle(value)]
fn value_term(alloc: Global, value: &Value) -> Result<TextTerm, OutOfMemory>
    ensures { IfOk result (λ term. term ≡ value_term value.now) }
{
    match value {
        Value::Number(n) => Ok(TextTerm::Number(*n)),
        Value::Text(bytes) => Ok(TextTerm::Text(duplicate_bytes(alloc, bytes)?)),
        Value::Function(name, args) => {
            let mut lists = Items::new(alloc);
            lists.push(value_terms(alloc, args.as_slice())?)?;
            Ok(TextTerm::Function(duplicate_bytes(alloc, name)?, lists))
        }
    }
}

#[cycle(value)]
fn value_terms(alloc: Global, values: &[Value]) -> Result<TextTerms, OutOfMemory>
    ensures { IfOk result (λ terms. terms ≡ map value_term values.now) }
{
    let mut terms = Items::new(alloc);
    for value in values {
        terms.push(value_term(alloc, value)?)?;
    }
    Ok(terms)
}

/// A term with each name without arguments that stands for a value replaced.
#[cycle(replaced)]
pub(crate) fn replaced(
    alloc: Global,
    means: &Meanings,
    term: &TextTerm,
) -> Result<TextTerm, OutOfMemory>
    ensures { IfOk result (λ made. made ≡ replaced (meant means.now) term.now) }
{
    match term {
        TextTerm::Number(n) => Ok(TextTerm::Number(*n)),
        TextTerm::Text(bytes) => Ok(TextTerm::Text(duplicate_bytes(alloc, bytes)?)),
        TextTerm::Function(name, lists) => {
            named(
                alloc,
                means,
                name,
                replaced_lists(alloc, means, lists.as_slice())?,
            )
        }
        TextTerm::Pool(terms) => Ok(TextTerm::Pool(replaced_terms(
            alloc,
            means,
            terms.as_slice(),
        )?)),
        TextTerm::Interval(low, high) => Ok(TextTerm::Interval(
            replaced_inner(alloc, means, low)?,
            replaced_inner(alloc, means, high)?,
        )),
        TextTerm::Neg(of) => Ok(TextTerm::Neg(replaced_inner(alloc, means, of)?)),
        TextTerm::Abs(of) => Ok(TextTerm::Abs(replaced_inner(alloc, means, of)?)),
        TextTerm::Binary(op, left, right) => Ok(TextTerm::Binary(
            *op,
            replaced_inner(alloc, means, left)?,
            replaced_inner(alloc, means, right)?,
        )),
    }
}

#[cycle(replaced)]
fn replaced_inner(
    alloc: Global,
    means: &Meanings,
    term: &Boxed<TextTerm>,
) -> Result<Boxed<TextTerm>, OutOfMemory>
    ensures { IfOk result (λ made. made ≡ replaced (meant means.now) term.now) }
{
    Ok(Boxed::new(alloc, replaced(alloc, means, term.get())?)?)
}

#[cycle(replaced)]
pub(crate) fn replaced_terms(
    alloc: Global,
    means: &Meanings,
    terms: &[TextTerm],
) -> Result<TextTerms, OutOfMemory>
    ensures { IfOk result (λ made. made ≡ map (replaced (meant means.now)) terms.now) }
{
    let mut made = Items::new(alloc);
    for term in terms {
        made.push(replaced(alloc, means, term)?)?;
    }
    Ok(made)
}

#[cycle(replaced)]
fn replaced_lists(
    alloc: Global,
    means: &Meanings,
    lists: &[TextTerms],
) -> Result<TermLists, OutOfMemory>
    ensures { IfOk result (λ made. made ≡ map (map (replaced (meant means.now))) lists.now) }
{
    let mut made = Items::new(alloc);
    for list in lists {
        made.push(replaced_terms(alloc, means, list.as_slice())?)?;
    }
    Ok(made)
}

/// The term of a name with lists of arguments in which names have been replaced.
fn named(
    alloc: Global,
    means: &Meanings,
    name: &Bytes,
    lists: TermLists,
) -> Result<TextTerm, OutOfMemory>
    ensures { IfOk result (λ made. made ≡ replace_step (meant means.now) (TextTerm-F.Function name.now lists)) }
{
    let value = match lists.as_slice() {
        [list] if list.is_empty() => means.of(name.as_slice()),
        _ => None,
    };
    match value {
        Some(value) => value_term(alloc, value),
        None => Ok(TextTerm::Function(duplicate_bytes(alloc, name)?, lists)),
    }
}

/// An atom with names replaced in its arguments.
pub(crate) fn replaced_atom(
    alloc: Global,
    means: &Meanings,
    atom: &TextTerm,
) -> Result<TextTerm, OutOfMemory>
    ensures { IfOk result (λ made. made ≡ replaced_atom (meant means.now) atom.now) }
{
    match atom {
        TextTerm::Function(name, lists) => Ok(TextTerm::Function(
            duplicate_bytes(alloc, name)?,
            replaced_lists(alloc, means, lists.as_slice())?,
        )),
        other => other.duplicate(alloc),
    }
}
