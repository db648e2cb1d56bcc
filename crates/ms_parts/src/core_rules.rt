// Statements without pools become core rules.
ghost use Rattle.std.specs.Prelude.{◌≡◌, ◌++◌, ◌∷◌, [], map, true, None, IfOk, OnOk};
ghost use Rattle.std.specs.Option.{option_copied};
ghost use Rattle.ms_grammar.specs.declared.statement.BodyLit.TheVariants.{Set as BodySet};
ghost use Rattle.ms_grammar.specs.declared.statement.Form.TheVariants.{Rule};
ghost use Rattle.ms_core.specs.declared.rule.RuleKind.TheVariants.{Constraint};
ghost use Rattle.ms_core.specs.CoreRules.{numbered_rule, core_rule, numbered_choice, core_choice, bound, core_rules};

use crate::body::{Body, body_of, with_parts, with_set};
use crate::conds::with_literals;
use crate::ranges::ranged;
use ms_base::memory::OutOfMemory;
use ms_base::seq::Seq;
use ms_core::rule::{Conds, CoreRule, RuleKind};
use ms_grammar::statement::{BodyLit, Head, SetElement, TextSet};
use ms_grammar::term::TextTerm;
use std::alloc::Global;

/// The rule of a body whose elements' ranges are numbered from `first` on.
fn numbered_rule(
    alloc: Global,
    kind: RuleKind,
    head: Option<&TextTerm>,
    parts: &[BodyLit],
    first: usize,
) -> Result<CoreRule, OutOfMemory>
    ensures { IfOk result (λ made. made ≡ numbered_rule kind (option_copied head.entry) parts.now first) }
{
    let mut ranges = Seq::new(alloc);
    let head = match head {
        Some(atom) => Some(ranged(alloc, 0, &mut ranges, atom)?),
        None => None,
    };
    let Body { conds, aggs } = with_parts(alloc, first, body_of(alloc, ranges), parts)?;
    Ok(CoreRule {
        kind,
        head,
        conds,
        aggs,
    })
}

/// The core rule of a head, if there is one, and a body. The ranges of elements go on after the rule's, whose
/// number doesn't depend on them.
pub(crate) fn core_rule(
    alloc: Global,
    kind: RuleKind,
    head: Option<&TextTerm>,
    parts: &[BodyLit],
) -> Result<CoreRule, OutOfMemory>
    ensures { IfOk result (λ made. made ≡ core_rule kind (option_copied head.entry) parts.now) }
{
    let rule = numbered_rule(alloc, kind, head, parts, 0)?;
    let ranges = rule.conds.ranges.len();
    if ranges == 0 {
        return Ok(rule);
    }
    numbered_rule(alloc, kind, head, parts, ranges)
}

/// The choice of one atom whose elements' ranges are numbered from `first` on.
fn numbered_choice(
    alloc: Global,
    parts: &[BodyLit],
    element: &SetElement,
    first: usize,
) -> Result<CoreRule, OutOfMemory>
    ensures { IfOk result (λ made. made ≡ numbered_choice parts.now element.now first) }
{
    let body = body_of(alloc, Seq::new(alloc));
    let Body { conds, aggs } = with_parts(alloc, first, body, parts)?;
    let Conds {
        pos,
        neg,
        tests,
        mut ranges,
    } = conds;
    let atom = ranged(alloc, 0, &mut ranges, &element.atom)?;
    let conds = Conds {
        pos,
        neg,
        tests,
        ranges,
    };
    let conds = with_literals(alloc, 0, conds, element.conds.as_slice())?;
    Ok(CoreRule {
        kind: RuleKind::Choice,
        head: Some(atom),
        conds,
        aggs,
    })
}

/// The choice of one atom, with the conditions of its element.
fn core_choice(
    alloc: Global,
    parts: &[BodyLit],
    element: &SetElement,
) -> Result<CoreRule, OutOfMemory>
    ensures { IfOk result (λ made. made ≡ core_choice parts.now element.now) }
{
    let rule = numbered_choice(alloc, parts, element, 0)?;
    let ranges = rule.conds.ranges.len();
    if ranges == 0 {
        return Ok(rule);
    }
    numbered_choice(alloc, parts, element, ranges)
}

/// The constraint whose elements' ranges are numbered from `first` on.
fn numbered_bound(
    alloc: Global,
    parts: &[BodyLit],
    set: &TextSet,
    first: usize,
) -> Result<CoreRule, OutOfMemory>
    ensures { IfOk result (λ made. made ≡ numbered_rule Constraint None (parts.now ++ BodySet true set.now ∷ []) first) }
{
    let body = body_of(alloc, Seq::new(alloc));
    let body = with_parts(alloc, first, body, parts)?;
    let Body { conds, aggs } = with_set(alloc, first, body, true, set)?;
    Ok(CoreRule {
        kind: RuleKind::Constraint,
        head: None,
        conds,
        aggs,
    })
}

/// The constraint that the number of chosen atoms isn't outside the bounds where the body holds.
fn core_bound(alloc: Global, parts: &[BodyLit], set: &TextSet) -> Result<CoreRule, OutOfMemory>
    ensures { IfOk result (λ made. made ≡ core_rule Constraint None (parts.now ++ BodySet true set.now ∷ [])) }
{
    let rule = numbered_bound(alloc, parts, set, 0)?;
    let ranges = rule.conds.ranges.len();
    if ranges == 0 {
        return Ok(rule);
    }
    numbered_bound(alloc, parts, set, ranges)
}

/// Appends the core rules of a rule without pools.
pub(crate) fn append_rules(
    alloc: Global,
    head: &Head,
    parts: &[BodyLit],
    into: &mut Seq<CoreRule>,
) -> Result<(), OutOfMemory>
    ensures { OnOk result (into.new ≡ into.old ++ core_rules (Rule head.now parts.now)) }
{
    match head {
        Head::Empty => into.push(core_rule(alloc, RuleKind::Constraint, None, parts)?)?,
        Head::Atom(atom) => into.push(core_rule(alloc, RuleKind::Normal, Some(atom), parts)?)?,
        Head::Set(set) => {
            append_choices(alloc, set.elements.as_slice(), parts, into)?;
            append_bound(alloc, set, parts, into)?;
        }
    }
    Ok(())
}

/// Appends a choice for each element.
fn append_choices(
    alloc: Global,
    elements: &[SetElement],
    parts: &[BodyLit],
    into: &mut Seq<CoreRule>,
) -> Result<(), OutOfMemory>
    ensures { OnOk result (into.new ≡ into.old ++ map (core_choice parts.now) elements.now) }
{
    for element in elements {
        into.push(core_choice(alloc, parts, element)?)?;
    }
    Ok(())
}

/// Appends the constraint on the number of chosen atoms, where a guard is given.
fn append_bound(
    alloc: Global,
    set: &TextSet,
    parts: &[BodyLit],
    into: &mut Seq<CoreRule>,
) -> Result<(), OutOfMemory>
    ensures { OnOk result (into.new ≡ into.old ++ bound set.now parts.now) }
{
    if set.left.is_some() || set.right.is_some() {
        into.push(core_bound(alloc, parts, set)?)?;
    }
    Ok(())
}
