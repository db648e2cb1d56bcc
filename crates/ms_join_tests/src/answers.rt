ghost use Rattle.std.specs.Prelude.{IfOk, ◌<◌};
ghost use Rattle.ms_join.specs.AnswerSets.{AreRulesOver, IsRuleOver};

use ms_answers::{Ending, answer_sets};
use ms_base::seq::Seq;
use ms_join::assumption::AtomLit;
use ms_rules::{AtomId, GroundKind, GroundRule, OutOfMemory, Rules};
use std::alloc::Global;
use std::process::Abort;
use std::test::Fail;

fn choice(alloc: Global, atom: AtomId) -> Result<GroundRule, OutOfMemory>
    requires { atom < 2 }
    ensures { IfOk result (IsRuleOver 2) }
{
    Ok(GroundRule {
        kind: GroundKind::Choice,
        head: Some(atom),
        pos: Seq::new(alloc),
        neg: Seq::new(alloc),
        aggs: Seq::new(alloc),
    })
}

/// `{a}. {b}.`
fn two_choices(alloc: Global) -> Result<Rules, OutOfMemory>
    ensures { IfOk result (AreRulesOver 2) }
{
    let mut rules = Seq::new(alloc);
    rules.push(choice(alloc, AtomId(0))?)?;
    rules.push(choice(alloc, AtomId(1))?)?;
    Ok(Rules {
        rules,
        inputs: Seq::new(alloc),
    })
}

const fn lit(atom: u32, truth: bool) -> AtomLit {
    AtomLit {
        atom: AtomId(atom),
        truth,
    }
}

/// Asks for so many answer sets under assumptions. `wanted` has what is to be found, in its order.
fn check_found(
    rt: &impl Abort,
    alloc: Global,
    assume: &[AtomLit],
    asked: u64,
    ending: Ending,
    wanted: &[&[AtomId]],
) -> Result<(), Fail> {
    let join = two_choices(alloc)?;
    let found = answer_sets(alloc, 2, &join, assume, asked)?;
    assert_eq!(rt; found.ending, ending, "the ending at {asked}");
    assert_eq!(rt; found.sets.len(), wanted.len(), "the count at {asked}");
    for (set, other) in found.sets.as_slice().iter().zip(wanted) {
        assert_eq!(rt; set.as_slice(), *other, "a set at {asked}");
    }
    Ok(())
}

#[test]
fn found_in_two_choices(rt: HostRuntime) -> Result<(), Fail> {
    let alloc = rt.alloc();
    let a = [AtomId(0)];
    let b = [AtomId(1)];
    let both = [AtomId(0), AtomId(1)];

    let all: [&[AtomId]; 4] = [&[], &b, &a, &both];
    check_found(&rt, alloc, &[], 5, Ending::Complete, &all)?;
    check_found(&rt, alloc, &[], 4, Ending::StillOpen, &all)?;
    check_found(&rt, alloc, &[], 0, Ending::StillOpen, &[])?;
    let with_a = [lit(0, true)];
    check_found(&rt, alloc, &with_a, 5, Ending::Complete, &[&a, &both])?;
    let only_a = [lit(0, true), lit(1, false)];
    check_found(&rt, alloc, &only_a, 5, Ending::Complete, &[&a])?;
    let never = [lit(0, true), lit(0, false)];
    check_found(&rt, alloc, &never, 5, Ending::Complete, &[])?;
    Ok(())
}
