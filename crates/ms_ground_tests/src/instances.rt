use ms_base::seq::Seq;
use ms_core::pattern::Pattern;
use ms_core::rule::{Cmp, Conds, CoreRule, Range, RuleKind, Test};
use ms_instances::{OutOfMemory, Terms, instances};
use sqlite_items::Items;
use std::alloc::Global;
use std::test::Fail;

/// A rule whose head is the integer of its range, which goes from 1 to 3 and is less than 3.
fn counting_rule(alloc: Global) -> Result<CoreRule, OutOfMemory> {
    let mut ranges = Seq::new(alloc);
    ranges.push(Range {
        low: Pattern::Number(1),
        high: Pattern::Number(3),
    })?;
    let mut tests = Seq::new(alloc);
    tests.push(Test {
        left: Pattern::Range(0),
        cmp: Cmp::Lt,
        right: Pattern::Number(3),
    })?;
    Ok(CoreRule {
        kind: RuleKind::Normal,
        head: Some(Pattern::Range(0)),
        conds: Conds {
            pos: Items::new(alloc),
            neg: Items::new(alloc),
            tests,
            ranges,
        },
        aggs: Seq::new(alloc),
    })
}

#[test]
fn a_copy_is_made_where_the_comparison_holds(rt: HostRuntime) -> Result<(), Fail> {
    let rules = [counting_rule(rt.alloc())?];
    let mut terms = Terms::new(rt.alloc());
    let list = instances(rt.alloc(), &mut terms, &rules)?;
    assert_eq!(rt; list.len(), 2, "1 and 2 are less than 3");
    assert_eq!(rt; terms.len(), 2, "and only these are named");
    Ok(())
}
