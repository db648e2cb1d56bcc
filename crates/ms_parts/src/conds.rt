// Literals of bodies and conditions become conditions of core rules.
ghost use Rattle.std.specs.Prelude.{◌≡◌, IfOk, map};
ghost use Rattle.ms_core.specs.Ranges.{with_literal, with_literals, only_ranges};
ghost use Rattle.ms_core.specs.CoreRules.{counted_element, core_element};

use crate::ranges::{all_ranged, ranged};
use ms_base::memory::OutOfMemory;
use ms_base::seq::Seq;
use ms_core::rule::{Conds, Element, Elements, Ranges, Test};
use ms_grammar::statement::{AggElement, SetElement, TextLit};
use sqlite_items::Items;
use std::alloc::Global;

/// The condition with one more literal, where its ranges are numbered from `first` on.
pub(crate) fn with_literal(
    alloc: Global,
    first: usize,
    conds: Conds,
    literal: &TextLit,
) -> Result<Conds, OutOfMemory>
    ensures { IfOk result (λ made. made ≡ with_literal first conds literal.now) }
{
    let Conds {
        mut pos,
        mut neg,
        mut tests,
        mut ranges,
    } = conds;
    match literal {
        TextLit::Positive(atom) => pos.push(ranged(alloc, first, &mut ranges, atom)?)?,
        TextLit::Negated(atom) => neg.push(ranged(alloc, first, &mut ranges, atom)?)?,
        TextLit::Test { left, cmp, right } => {
            let left = ranged(alloc, first, &mut ranges, left)?;
            let right = ranged(alloc, first, &mut ranges, right)?;
            let cmp = *cmp;
            tests.push(Test { left, cmp, right })?;
        }
    }
    Ok(Conds {
        pos,
        neg,
        tests,
        ranges,
    })
}

/// The condition with all literals, where its ranges are numbered from `first` on.
pub(crate) fn with_literals(
    alloc: Global,
    first: usize,
    conds: Conds,
    literals: &[TextLit],
) -> Result<Conds, OutOfMemory>
    ensures { IfOk result (λ made. made ≡ with_literals first conds literals.now) }
{
    let mut conds = conds;
    for literal in literals {
        conds = with_literal(alloc, first, conds, literal)?;
    }
    Ok(conds)
}

/// A condition of ranges alone.
pub(crate) fn only_ranges(alloc: Global, ranges: Ranges) -> Conds
    ensures { result ≡ only_ranges ranges }
{
    Conds {
        pos: Items::new(alloc),
        neg: Items::new(alloc),
        tests: Seq::new(alloc),
        ranges,
    }
}

/// The elements of a count for the elements of a set.
pub(crate) fn counted_elements(
    alloc: Global,
    first: usize,
    elements: &[SetElement],
) -> Result<Elements, OutOfMemory>
    ensures { IfOk result (λ made. made ≡ map (counted_element first) elements.now) }
{
    let mut made = Seq::new(alloc);
    for element in elements {
        made.push(counted_element(alloc, first, element)?)?;
    }
    Ok(made)
}

/// The atom is the tuple and a condition, with one choice of its ranges.
fn counted_element(
    alloc: Global,
    first: usize,
    element: &SetElement,
) -> Result<Element, OutOfMemory>
    ensures { IfOk result (λ made. made ≡ counted_element first element.now) }
{
    let mut tuple = Items::new(alloc);
    tuple.push(ranged(alloc, first, &mut Seq::new(alloc), &element.atom)?)?;
    let mut ranges = Seq::new(alloc);
    let atom = ranged(alloc, first, &mut ranges, &element.atom)?;
    let mut conds = only_ranges(alloc, ranges);
    conds.pos.push(atom)?;
    let conds = with_literals(alloc, first, conds, element.conds.as_slice())?;
    Ok(Element { tuple, conds })
}

/// The elements of an aggregate.
pub(crate) fn core_elements(
    alloc: Global,
    first: usize,
    elements: &[AggElement],
) -> Result<Elements, OutOfMemory>
    ensures { IfOk result (λ made. made ≡ map (core_element first) elements.now) }
{
    let mut made = Seq::new(alloc);
    for element in elements {
        made.push(core_element(alloc, first, element)?)?;
    }
    Ok(made)
}

fn core_element(alloc: Global, first: usize, element: &AggElement) -> Result<Element, OutOfMemory>
    ensures { IfOk result (λ made. made ≡ core_element first element.now) }
{
    let mut ranges = Seq::new(alloc);
    let tuple = all_ranged(alloc, first, &mut ranges, element.tuple.as_slice())?;
    let conds = only_ranges(alloc, ranges);
    let conds = with_literals(alloc, first, conds, element.conds.as_slice())?;
    Ok(Element { tuple, conds })
}
