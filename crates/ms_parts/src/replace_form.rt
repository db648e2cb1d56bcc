// Parameters and constants are replaced in statements.
ghost use Rattle.std.specs.Prelude.{◌≡◌, IfOk, map};
ghost use Rattle.std.specs.Option.{option_map};
ghost use Rattle.ms_core.specs.Replacing.{replaced_literal, replaced_guard, replaced_set, replaced_aggregate, replaced_part, replaced_head};
ghost use Rattle.ms_parts.specs.Meanings.{meant, replaced_set_element, replaced_element};

use crate::meaning::Meanings;
use crate::replace::{replaced, replaced_atom, replaced_terms};
use ms_base::memory::OutOfMemory;
use ms_base::seq::Seq;
use ms_grammar::statement::{
    AggElement, AggElements, BodyLit, BodyLits, Head, SetElement, SetElements, TextAgg, TextGuard,
    TextLit, TextLits, TextSet,
};
use std::alloc::Global;

fn replaced_literal(
    alloc: Global,
    means: &Meanings,
    literal: &TextLit,
) -> Result<TextLit, OutOfMemory>
    ensures { IfOk result (λ made. made ≡ replaced_literal (meant means.now) literal.now) }
{
    match literal {
        TextLit::Positive(atom) => Ok(TextLit::Positive(replaced_atom(alloc, means, atom)?)),
        TextLit::Negated(atom) => Ok(TextLit::Negated(replaced_atom(alloc, means, atom)?)),
        TextLit::Test { left, cmp, right } => Ok(TextLit::Test {
            left: replaced(alloc, means, left)?,
            cmp: *cmp,
            right: replaced(alloc, means, right)?,
        }),
    }
}

fn replaced_literals(
    alloc: Global,
    means: &Meanings,
    literals: &[TextLit],
) -> Result<TextLits, OutOfMemory>
    ensures { IfOk result (λ made. made ≡ map (replaced_literal (meant means.now)) literals.now) }
{
    let mut made = Seq::new(alloc);
    for literal in literals {
        made.push(replaced_literal(alloc, means, literal)?)?;
    }
    Ok(made)
}

fn replaced_guard(
    alloc: Global,
    means: &Meanings,
    guard: &Option<TextGuard>,
) -> Result<Option<TextGuard>, OutOfMemory>
    ensures { IfOk result (λ made. made ≡ option_map (replaced_guard (meant means.now)) guard.now) }
{
    match guard {
        None => Ok(None),
        Some(guard) => Ok(Some(TextGuard {
            cmp: guard.cmp,
            bound: replaced(alloc, means, &guard.bound)?,
        })),
    }
}

fn replaced_set(alloc: Global, means: &Meanings, set: &TextSet) -> Result<TextSet, OutOfMemory>
    ensures { IfOk result (λ made. made ≡ replaced_set (meant means.now) set.now) }
{
    Ok(TextSet {
        left: replaced_guard(alloc, means, &set.left)?,
        elements: replaced_set_elements(alloc, means, set.elements.as_slice())?,
        right: replaced_guard(alloc, means, &set.right)?,
    })
}

fn replaced_set_elements(
    alloc: Global,
    means: &Meanings,
    elements: &[SetElement],
) -> Result<SetElements, OutOfMemory>
    ensures { IfOk result (λ made. made ≡ map (replaced_set_element (meant means.now)) elements.now) }
{
    let mut made = Seq::new(alloc);
    for element in elements {
        made.push(replaced_set_element(alloc, means, element)?)?;
    }
    Ok(made)
}

fn replaced_set_element(
    alloc: Global,
    means: &Meanings,
    element: &SetElement,
) -> Result<SetElement, OutOfMemory>
    ensures { IfOk result (λ made. made ≡ replaced_set_element (meant means.now) element.now) }
{
    Ok(SetElement {
        atom: replaced_atom(alloc, means, &element.atom)?,
        conds: replaced_literals(alloc, means, element.conds.as_slice())?,
    })
}

fn replaced_aggregate(
    alloc: Global,
    means: &Meanings,
    aggregate: &TextAgg,
) -> Result<TextAgg, OutOfMemory>
    ensures { IfOk result (λ made. made ≡ replaced_aggregate (meant means.now) aggregate.now) }
{
    Ok(TextAgg {
        function: aggregate.function,
        left: replaced_guard(alloc, means, &aggregate.left)?,
        elements: replaced_elements(alloc, means, aggregate.elements.as_slice())?,
        right: replaced_guard(alloc, means, &aggregate.right)?,
    })
}

fn replaced_elements(
    alloc: Global,
    means: &Meanings,
    elements: &[AggElement],
) -> Result<AggElements, OutOfMemory>
    ensures { IfOk result (λ made. made ≡ map (replaced_element (meant means.now)) elements.now) }
{
    let mut made = Seq::new(alloc);
    for element in elements {
        made.push(replaced_element(alloc, means, element)?)?;
    }
    Ok(made)
}

fn replaced_element(
    alloc: Global,
    means: &Meanings,
    element: &AggElement,
) -> Result<AggElement, OutOfMemory>
    ensures { IfOk result (λ made. made ≡ replaced_element (meant means.now) element.now) }
{
    Ok(AggElement {
        tuple: replaced_terms(alloc, means, element.tuple.as_slice())?,
        conds: replaced_literals(alloc, means, element.conds.as_slice())?,
    })
}

fn replaced_part(alloc: Global, means: &Meanings, part: &BodyLit) -> Result<BodyLit, OutOfMemory>
    ensures { IfOk result (λ made. made ≡ replaced_part (meant means.now) part.now) }
{
    match part {
        BodyLit::Lit(literal) => Ok(BodyLit::Lit(replaced_literal(alloc, means, literal)?)),
        BodyLit::Set { negated, set } => Ok(BodyLit::Set {
            negated: *negated,
            set: replaced_set(alloc, means, set)?,
        }),
        BodyLit::Agg { negated, agg } => Ok(BodyLit::Agg {
            negated: *negated,
            agg: replaced_aggregate(alloc, means, agg)?,
        }),
    }
}

pub(crate) fn replaced_body(
    alloc: Global,
    means: &Meanings,
    parts: &[BodyLit],
) -> Result<BodyLits, OutOfMemory>
    ensures { IfOk result (λ made. made ≡ map (replaced_part (meant means.now)) parts.now) }
{
    let mut made = Seq::new(alloc);
    for part in parts {
        made.push(replaced_part(alloc, means, part)?)?;
    }
    Ok(made)
}

pub(crate) fn replaced_head(
    alloc: Global,
    means: &Meanings,
    head: &Head,
) -> Result<Head, OutOfMemory>
    ensures { IfOk result (λ made. made ≡ replaced_head (meant means.now) head.now) }
{
    match head {
        Head::Empty => Ok(Head::Empty),
        Head::Atom(atom) => Ok(Head::Atom(replaced_atom(alloc, means, atom)?)),
        Head::Set(set) => Ok(Head::Set(replaced_set(alloc, means, set)?)),
    }
}
