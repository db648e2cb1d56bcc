// Pools in statements are copied. An element is copied by itself.
ghost use Rattle.std.specs.Prelude.{◌≡◌, map, IfOk, Some};
ghost use Rattle.std.specs.List.{flat_map};
ghost use Rattle.ms_core.specs.Pools.{pairs_with, copies_of_all, literal_copies, guard_copies, set_element_copies, element_copies, set_copies, aggregate_copies, part_copies, head_copies};
ghost use Rattle.ms_parts.specs.Sides.{guard_of, set_of, aggregate_of};

use crate::duplicate::Duplicate;
use crate::pools::{copies, copies_of_terms};
use crate::rows::{extended, only, pairs, single};
use ms_base::memory::OutOfMemory;
use ms_base::seq::Seq;
use ms_grammar::statement::{
    AggElement, AggElements, AggFn, BodyLit, Cmp, Head, SetElement, SetElements, TextAgg,
    TextGuard, TextLit, TextSet,
};
use ms_grammar::term::TextTerm;
use sqlite_items::Items;
use std::alloc::Global;

type Guards = (Option<TextGuard>, Option<TextGuard>);

fn literal_copies(alloc: Global, literal: &TextLit) -> Result<Seq<TextLit>, OutOfMemory>
    ensures { IfOk result (λ made. made ≡ literal_copies literal.now) }
{
    match literal {
        TextLit::Positive(atom) => positives(alloc, copies(alloc, atom)?),
        TextLit::Negated(atom) => negatives(alloc, copies(alloc, atom)?),
        TextLit::Test { left, cmp, right } => tests(
            alloc,
            *cmp,
            copies(alloc, left)?,
            copies(alloc, right)?,
        ),
    }
}

fn positives(alloc: Global, atoms: Seq<TextTerm>) -> Result<Seq<TextLit>, OutOfMemory>
    ensures { IfOk result (λ made. made ≡ map TextLit.Positive atoms) }
{
    let mut made = Seq::new(alloc);
    for atom in atoms.into_vec() {
        made.push(TextLit::Positive(atom))?;
    }
    Ok(made)
}

fn negatives(alloc: Global, atoms: Seq<TextTerm>) -> Result<Seq<TextLit>, OutOfMemory>
    ensures { IfOk result (λ made. made ≡ map TextLit.Negated atoms) }
{
    let mut made = Seq::new(alloc);
    for atom in atoms.into_vec() {
        made.push(TextLit::Negated(atom))?;
    }
    Ok(made)
}

fn tests(
    alloc: Global,
    cmp: Cmp,
    lefts: Seq<TextTerm>,
    rights: Seq<TextTerm>,
) -> Result<Seq<TextLit>, OutOfMemory>
    ensures { IfOk result (λ made. made ≡ pairs_with (λ l r. TextLit.Test l cmp r) lefts rights) }
{
    let mut made = Seq::new(alloc);
    for (left, right) in pairs(alloc, lefts, rights)?.into_vec() {
        made.push(TextLit::Test { left, cmp, right })?;
    }
    Ok(made)
}

/// The lists that have a copy of each literal, at its place.
fn copies_of_literals(alloc: Global, literals: &[TextLit]) -> Result<Seq<Seq<TextLit>>, OutOfMemory>
    ensures { IfOk result (λ made. made ≡ copies_of_all literal_copies literals.now) }
{
    let mut rows = single(alloc, Seq::new(alloc))?;
    for literal in literals {
        rows = extended(alloc, rows, literal_copies(alloc, literal)?)?;
    }
    Ok(rows)
}

fn guard_copies(
    alloc: Global,
    guard: &Option<TextGuard>,
) -> Result<Seq<Option<TextGuard>>, OutOfMemory>
    ensures { IfOk result (λ made. made ≡ guard_copies guard.now) }
{
    match guard {
        None => single(alloc, None),
        Some(guard) => guards(alloc, guard.cmp, copies(alloc, &guard.bound)?),
    }
}

fn guards(
    alloc: Global,
    cmp: Cmp,
    bounds: Seq<TextTerm>,
) -> Result<Seq<Option<TextGuard>>, OutOfMemory>
    ensures { IfOk result (λ made. made ≡ map (guard_of cmp) bounds) }
{
    let mut made = Seq::new(alloc);
    for bound in bounds.into_vec() {
        made.push(Some(TextGuard { cmp, bound }))?;
    }
    Ok(made)
}

fn set_element_copies(alloc: Global, element: &SetElement) -> Result<Seq<SetElement>, OutOfMemory>
    ensures { IfOk result (λ made. made ≡ set_element_copies element.now) }
{
    let atoms = copies(alloc, &element.atom)?;
    let conds = copies_of_literals(alloc, element.conds.as_slice())?;
    set_elements(alloc, atoms, conds)
}

fn set_elements(
    alloc: Global,
    atoms: Seq<TextTerm>,
    conds: Seq<Seq<TextLit>>,
) -> Result<Seq<SetElement>, OutOfMemory>
    ensures { IfOk result (λ made. made ≡ pairs_with (λ a c. record { atom = a; conds = c }) atoms conds) }
{
    let mut made = Seq::new(alloc);
    for (atom, conds) in pairs(alloc, atoms, conds)?.into_vec() {
        made.push(SetElement { atom, conds })?;
    }
    Ok(made)
}

fn element_copies(alloc: Global, element: &AggElement) -> Result<Seq<AggElement>, OutOfMemory>
    ensures { IfOk result (λ made. made ≡ element_copies element.now) }
{
    let tuples = copies_of_terms(alloc, element.tuple.as_slice())?;
    let conds = copies_of_literals(alloc, element.conds.as_slice())?;
    elements(alloc, tuples, conds)
}

fn elements(
    alloc: Global,
    tuples: Seq<Seq<TextTerm>>,
    conds: Seq<Seq<TextLit>>,
) -> Result<Seq<AggElement>, OutOfMemory>
    ensures { IfOk result (λ made. made ≡ pairs_with (λ t c. record { tuple = t; conds = c }) tuples conds) }
{
    let mut made = Seq::new(alloc);
    for (tuple, conds) in pairs(alloc, tuples, conds)?.into_vec() {
        let tuple = Items::from_vec(tuple.into_vec());
        made.push(AggElement { tuple, conds })?;
    }
    Ok(made)
}

fn set_elements_copies(alloc: Global, elements: &[SetElement]) -> Result<SetElements, OutOfMemory>
    ensures { IfOk result (λ made. made ≡ flat_map set_element_copies elements.now) }
{
    let mut made = Vec::new(alloc);
    for element in elements {
        let mut more = set_element_copies(alloc, element)?.into_vec();
        made.append(&mut more)?;
    }
    Ok(Seq::from_vec(made))
}

fn elements_copies(alloc: Global, elements: &[AggElement]) -> Result<AggElements, OutOfMemory>
    ensures { IfOk result (λ made. made ≡ flat_map element_copies elements.now) }
{
    let mut made = Vec::new(alloc);
    for element in elements {
        let mut more = element_copies(alloc, element)?.into_vec();
        made.append(&mut more)?;
    }
    Ok(Seq::from_vec(made))
}

fn set_copies(alloc: Global, set: &TextSet) -> Result<Seq<TextSet>, OutOfMemory>
    ensures { IfOk result (λ made. made ≡ set_copies set.now) }
{
    let lefts = guard_copies(alloc, &set.left)?;
    let rights = guard_copies(alloc, &set.right)?;
    let elements = set_elements_copies(alloc, set.elements.as_slice())?;
    sets(alloc, pairs(alloc, lefts, rights)?, elements)
}

/// The elements between each two guards.
fn sets(
    alloc: Global,
    guards: Seq<Guards>,
    elements: SetElements,
) -> Result<Seq<TextSet>, OutOfMemory>
    ensures { IfOk result (λ made. made ≡ map (set_of elements) guards) }
{
    match only(guards) {
        Ok((left, right)) => single(
            alloc,
            TextSet {
                left,
                elements,
                right,
            },
        ),
        Err(guards) => sets_of_copies(alloc, guards, &elements),
    }
}

fn sets_of_copies(
    alloc: Global,
    guards: Seq<Guards>,
    elements: &SetElements,
) -> Result<Seq<TextSet>, OutOfMemory>
    ensures { IfOk result (λ made. made ≡ map (set_of elements.now) guards) }
{
    let mut made = Seq::new(alloc);
    for (left, right) in guards.into_vec() {
        made.push(TextSet {
            left,
            elements: elements.duplicate(alloc)?,
            right,
        })?;
    }
    Ok(made)
}

fn aggregate_copies(alloc: Global, aggregate: &TextAgg) -> Result<Seq<TextAgg>, OutOfMemory>
    ensures { IfOk result (λ made. made ≡ aggregate_copies aggregate.now) }
{
    let lefts = guard_copies(alloc, &aggregate.left)?;
    let rights = guard_copies(alloc, &aggregate.right)?;
    let elements = elements_copies(alloc, aggregate.elements.as_slice())?;
    aggregates(
        alloc,
        aggregate.function,
        pairs(alloc, lefts, rights)?,
        elements,
    )
}

/// The elements between each two guards.
fn aggregates(
    alloc: Global,
    function: AggFn,
    guards: Seq<Guards>,
    elements: AggElements,
) -> Result<Seq<TextAgg>, OutOfMemory>
    ensures { IfOk result (λ made. made ≡ map (aggregate_of function elements) guards) }
{
    match only(guards) {
        Ok((left, right)) => single(
            alloc,
            TextAgg {
                function,
                left,
                elements,
                right,
            },
        ),
        Err(guards) => aggregates_of_copies(alloc, function, guards, &elements),
    }
}

fn aggregates_of_copies(
    alloc: Global,
    function: AggFn,
    guards: Seq<Guards>,
    elements: &AggElements,
) -> Result<Seq<TextAgg>, OutOfMemory>
    ensures { IfOk result (λ made. made ≡ map (aggregate_of function elements.now) guards) }
{
    let mut made = Seq::new(alloc);
    for (left, right) in guards.into_vec() {
        made.push(TextAgg {
            function,
            left,
            elements: elements.duplicate(alloc)?,
            right,
        })?;
    }
    Ok(made)
}

fn part_copies(alloc: Global, part: &BodyLit) -> Result<Seq<BodyLit>, OutOfMemory>
    ensures { IfOk result (λ made. made ≡ part_copies part.now) }
{
    match part {
        BodyLit::Lit(literal) => literal_parts(alloc, literal_copies(alloc, literal)?),
        BodyLit::Set { negated, set } => set_parts(alloc, *negated, set_copies(alloc, set)?),
        BodyLit::Agg { negated, agg } => {
            aggregate_parts(alloc, *negated, aggregate_copies(alloc, agg)?)
        }
    }
}

fn literal_parts(alloc: Global, literals: Seq<TextLit>) -> Result<Seq<BodyLit>, OutOfMemory>
    ensures { IfOk result (λ made. made ≡ map BodyLit.Lit literals) }
{
    let mut made = Seq::new(alloc);
    for literal in literals.into_vec() {
        made.push(BodyLit::Lit(literal))?;
    }
    Ok(made)
}

fn set_parts(alloc: Global, negated: bool, sets: Seq<TextSet>) -> Result<Seq<BodyLit>, OutOfMemory>
    ensures { IfOk result (λ made. made ≡ map (BodyLit.Set negated) sets) }
{
    let mut made = Seq::new(alloc);
    for set in sets.into_vec() {
        made.push(BodyLit::Set { negated, set })?;
    }
    Ok(made)
}

fn aggregate_parts(
    alloc: Global,
    negated: bool,
    aggregates: Seq<TextAgg>,
) -> Result<Seq<BodyLit>, OutOfMemory>
    ensures { IfOk result (λ made. made ≡ map (BodyLit.Agg negated) aggregates) }
{
    let mut made = Seq::new(alloc);
    for agg in aggregates.into_vec() {
        made.push(BodyLit::Agg { negated, agg })?;
    }
    Ok(made)
}

/// The bodies that have a copy of each part, at its place.
pub(crate) fn body_copies(
    alloc: Global,
    parts: &[BodyLit],
) -> Result<Seq<Seq<BodyLit>>, OutOfMemory>
    ensures { IfOk result (λ made. made ≡ copies_of_all part_copies parts.now) }
{
    let mut rows = single(alloc, Seq::new(alloc))?;
    for part in parts {
        rows = extended(alloc, rows, part_copies(alloc, part)?)?;
    }
    Ok(rows)
}

pub(crate) fn head_copies(alloc: Global, head: &Head) -> Result<Seq<Head>, OutOfMemory>
    ensures { IfOk result (λ made. made ≡ head_copies head.now) }
{
    match head {
        Head::Empty => single(alloc, Head::Empty),
        Head::Atom(atom) => atom_heads(alloc, copies(alloc, atom)?),
        Head::Set(set) => set_heads(alloc, set_copies(alloc, set)?),
    }
}

fn atom_heads(alloc: Global, atoms: Seq<TextTerm>) -> Result<Seq<Head>, OutOfMemory>
    ensures { IfOk result (λ made. made ≡ map Head.Atom atoms) }
{
    let mut made = Seq::new(alloc);
    for atom in atoms.into_vec() {
        made.push(Head::Atom(atom))?;
    }
    Ok(made)
}

fn set_heads(alloc: Global, sets: Seq<TextSet>) -> Result<Seq<Head>, OutOfMemory>
    ensures { IfOk result (λ made. made ≡ map Head.Set sets) }
{
    let mut made = Seq::new(alloc);
    for set in sets.into_vec() {
        made.push(Head::Set(set))?;
    }
    Ok(made)
}
