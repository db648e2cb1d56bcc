// What one copy says, under the names of a table.
ghost use Rattle.std.specs.Prelude.{IfOk};
ghost use Rattle.std.specs.List.{list_all};
ghost use Rattle.ms_instances.specs.Listing.{holds, head_value, said_of};
ghost use Rattle.ms_instances.specs.Naming.{Tells, GivesHead, GivesInstance};

use crate::instance::Instance;
use ms_base::seq::Seq;
use ms_core::pattern::Pattern;
use ms_core::rule::{CoreRule, Test};
use ms_term::{OutOfMemory, TermId, Terms};
use ms_value::{evaluate, evaluate_all, holds, integers_hold};
use std::alloc::Global;

/// What a rule says under a choice, or `None` exactly where a comparison doesn't hold or a term has no value.
pub(crate) fn instance_of(
    alloc: Global,
    terms: &mut Terms,
    rule: &CoreRule,
    chosen: &[i64],
) -> Result<Option<Instance>, OutOfMemory>
    ensures { IfOk result (GivesInstance terms.old terms.new (said_of rule.now chosen.now)) }
{
    if !all_hold(alloc, terms, rule.conds.tests.as_slice(), chosen)? {
        return Ok(None);
    }
    let Some(head) = name_head(alloc, terms, &rule.head, chosen)? else {
        return Ok(None);
    };
    let Some(pos) = evaluate_all(alloc, terms, rule.conds.pos.as_slice(), chosen)? else {
        return Ok(None);
    };
    let Some(neg) = evaluate_all(alloc, terms, rule.conds.neg.as_slice(), chosen)? else {
        return Ok(None);
    };
    Ok(Some(Instance {
        kind: rule.kind,
        head,
        pos: Seq::from_vec(pos),
        neg: Seq::from_vec(neg),
    }))
}

/// Whether each comparison holds, with a value on both sides.
fn all_hold(
    alloc: Global,
    terms: &mut Terms,
    tests: &[Test],
    chosen: &[i64],
) -> Result<bool, OutOfMemory>
    ensures { IfOk result (λ all. Tells terms.old terms.new all (list_all (holds chosen.now) tests.now)) }
{
    for test in tests {
        if !test_holds(alloc, terms, test, chosen)? {
            return Ok(false);
        }
    }
    Ok(true)
}

/// Whether a comparison holds, with a value on both sides. Terms are named only where one of them is no integer.
fn test_holds(
    alloc: Global,
    terms: &mut Terms,
    test: &Test,
    chosen: &[i64],
) -> Result<bool, OutOfMemory>
    ensures { IfOk result (λ it. Tells terms.old terms.new it (holds chosen.now test.now)) }
{
    match integers_hold(test, chosen) {
        Some(it) => Ok(it),
        None => terms_hold(alloc, terms, test, chosen),
    }
}

/// The same by the names of the terms.
fn terms_hold(
    alloc: Global,
    terms: &mut Terms,
    test: &Test,
    chosen: &[i64],
) -> Result<bool, OutOfMemory>
    ensures { IfOk result (λ it. Tells terms.old terms.new it (holds chosen.now test.now)) }
{
    let Some(left) = evaluate(alloc, terms, &test.left, chosen)? else {
        return Ok(false);
    };
    let Some(right) = evaluate(alloc, terms, &test.right, chosen)? else {
        return Ok(false);
    };
    Ok(holds(terms, test.cmp, left, right))
}

/// The name of a head's value, or `None` exactly where there is a head without a value.
fn name_head(
    alloc: Global,
    terms: &mut Terms,
    head: &Option<Pattern>,
    chosen: &[i64],
) -> Result<Option<Option<TermId>>, OutOfMemory>
    ensures { IfOk result (GivesHead terms.old terms.new (head_value chosen.now head.now)) }
{
    match head {
        None => Ok(Some(None)),
        Some(pattern) => match evaluate(alloc, terms, pattern, chosen)? {
            None => Ok(None),
            Some(name) => Ok(Some(Some(name))),
        },
    }
}
