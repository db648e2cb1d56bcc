// Both tests of answer sets, over all sets of the atoms a, b, c and d.
ghost use Rattle.std.specs.Prelude.{All, IfOk, ◌<◌};
ghost use Rattle.ms_join.specs.AnswerSets.{AreRulesOver, IsAtomSet, IsRuleOver};

use ms_base::seq::Seq;
use ms_rules::{
    AtomId, AtomIds, GroundKind, GroundRule, Input, Inputs, OutOfMemory, RuleScratch, Rules,
    Scratch, is_answer, is_answer_by,
};
use std::alloc::Global;
use std::process::Abort;
use std::test::Fail;

const A: u8 = 1;

const B: u8 = 2;

const C: u8 = 4;

const D: u8 = 8;

/// A rule, with a bit for each atom of its body.
#[derive(Clone, Copy)]
struct Row {
    kind: GroundKind,
    /// The number of its head, where it has one.
    head: u8,
    pos: u8,
    neg: u8,
}

const fn normal(head: u8, pos: u8, neg: u8) -> Row {
    let kind = GroundKind::Normal;
    Row {
        kind,
        head,
        pos,
        neg,
    }
}

const fn choice(head: u8, pos: u8, neg: u8) -> Row {
    let kind = GroundKind::Choice;
    Row {
        kind,
        head,
        pos,
        neg,
    }
}

const fn constraint(pos: u8, neg: u8) -> Row {
    let kind = GroundKind::Constraint;
    Row {
        kind,
        head: 0,
        pos,
        neg,
    }
}

/// The atoms whose bits are set.
fn atoms_of(alloc: Global, bits: u8) -> Result<AtomIds, OutOfMemory>
    ensures { IfOk result (IsAtomSet 4) }
{
    let mut atoms = Seq::new(alloc);
    for number in 0..4 {
        if (bits >> number) & 1 == 1 {
            atoms.push(AtomId(number))?;
        }
    }
    Ok(atoms)
}

fn rule_of(alloc: Global, row: Row) -> Result<GroundRule, OutOfMemory>
    ensures { IfOk result (IsRuleOver 4) }
{
    let pos = atoms_of(alloc, row.pos)?;
    let neg = atoms_of(alloc, row.neg)?;
    let atom = AtomId(u32::from(row.head % 4));
    let head = match row.kind {
        GroundKind::Normal | GroundKind::Choice => Some(atom),
        GroundKind::Constraint => None,
    };
    Ok(GroundRule {
        kind: row.kind,
        head,
        pos,
        neg,
        aggs: Seq::new(alloc),
    })
}

/// The first atoms as inputs, with these values.
fn inputs_of(alloc: Global, values: &[Option<bool>]) -> Result<Inputs, OutOfMemory>
    ensures { IfOk result (All (λ i. i.atom < 4)) }
{
    let mut inputs = Seq::new(alloc);
    for (number, value) in values.iter().enumerate() {
        inputs.push(Input {
            atom: AtomId((number % 4) as u32),
            value: *value,
        })?;
    }
    Ok(inputs)
}

fn join_of(alloc: Global, rows: &[Row], values: &[Option<bool>]) -> Result<Rules, OutOfMemory>
    ensures { IfOk result (AreRulesOver 4) }
{
    let mut rules = Seq::new(alloc);
    for row in rows {
        rules.push(rule_of(alloc, *row)?)?;
    }
    let inputs = inputs_of(alloc, values)?;
    Ok(Rules { rules, inputs })
}

/// Whether the set is an answer set, by both tests.
fn answers(alloc: Global, join: &Rules, bits: u8) -> Result<(bool, bool), OutOfMemory>
    requires { AreRulesOver 4 join.now }
{
    let set = atoms_of(alloc, bits)?;
    let mut scratch = Scratch::new(alloc, 4)?;
    let plain = is_answer(join, &set, &mut scratch);
    let mut room = RuleScratch::new(alloc, 4, join.rules.len())?;
    let linear = is_answer_by(join, &set, &mut room);
    Ok((plain, linear))
}

/// Asks about each set. `wanted` has those that are answer sets.
fn check_all_sets(
    rt: &impl Abort,
    alloc: Global,
    text: &str,
    rows: &[Row],
    values: &[Option<bool>],
    wanted: &[u8],
) -> Result<(), Fail> {
    let join = join_of(alloc, rows, values)?;
    for bits in 0..16u8 {
        let wants = wanted.contains(&bits);
        let (plain, linear) = answers(alloc, &join, bits)?;
        assert_eq!(rt; plain, wants, "{bits} by {text}");
        assert_eq!(rt; linear, wants, "{bits} by propagation by {text}");
    }
    Ok(())
}

#[test]
fn rules_with_long_bodies(rt: HostRuntime) -> Result<(), Fail> {
    let alloc = rt.alloc();
    check_all_sets(
        &rt,
        alloc,
        "{a}. {b}. c :- a, b. d :- a, c.",
        &[
            choice(0, 0, 0),
            choice(1, 0, 0),
            normal(2, A | B, 0),
            normal(3, A | C, 0),
        ],
        &[],
        &[0, A, B, A | B | C | D],
    )?;
    check_all_sets(
        &rt,
        alloc,
        "d :- a, b, c. c :- a, b. b :- a. a.",
        &[
            normal(3, A | B | C, 0),
            normal(2, A | B, 0),
            normal(1, A, 0),
            normal(0, 0, 0),
        ],
        &[],
        &[A | B | C | D],
    )?;
    check_all_sets(
        &rt,
        alloc,
        "{a}. {b}. {c}. :- a, b. :- not a, not b, not c. d :- b, c.",
        &[
            choice(0, 0, 0),
            choice(1, 0, 0),
            choice(2, 0, 0),
            constraint(A | B, 0),
            constraint(0, A | B | C),
            normal(3, B | C, 0),
        ],
        &[],
        &[A, B, C, A | C, B | C | D],
    )
}

#[test]
fn loops(rt: HostRuntime) -> Result<(), Fail> {
    let alloc = rt.alloc();
    check_all_sets(
        &rt,
        alloc,
        "a :- b. b :- a. a :- c. {c}. d :- a, b, c.",
        &[
            normal(0, B, 0),
            normal(1, A, 0),
            normal(0, C, 0),
            choice(2, 0, 0),
            normal(3, A | B | C, 0),
        ],
        &[],
        &[0, A | B | C | D],
    )?;
    check_all_sets(
        &rt,
        alloc,
        "{d}. a :- b, d. b :- a, d. c :- not a.",
        &[
            choice(3, 0, 0),
            normal(0, B | D, 0),
            normal(1, A | D, 0),
            normal(2, 0, A),
        ],
        &[],
        &[C, C | D],
    )?;
    check_all_sets(
        &rt,
        alloc,
        "a :- not b. b :- not a. {d} :- a. c :- a, d.",
        &[
            normal(0, 0, B),
            normal(1, 0, A),
            choice(3, A, 0),
            normal(2, A | D, 0),
        ],
        &[],
        &[A, A | C | D, B],
    )
}

#[test]
fn inputs(rt: HostRuntime) -> Result<(), Fail> {
    let alloc = rt.alloc();
    check_all_sets(
        &rt,
        alloc,
        "d :- a, b. d :- c. with a true, b free, c false",
        &[normal(3, A | B, 0), normal(3, C, 0)],
        &[Some(true), None, Some(false)],
        &[A, A | B | D],
    )
}
