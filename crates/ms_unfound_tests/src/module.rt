// Modules of four atoms: three heads and an input.
ghost use Rattle.std.specs.Prelude.{All, IfOk, ◌<◌, ◌≢◌};
ghost use Rattle.ms_join.specs.declared.ground_rule.GroundKind.{GroundKind};
ghost use Rattle.ms_join.specs.Modules.{IsWellFormed};
ghost use Rattle.ms_unfound_tests.specs.Tiny.{IsTinyRule, IsTinySet};

use ms_base::atom_id::AtomId;
use ms_base::seq::Seq;
use ms_join::ground_module::GroundModule;
use ms_join::ground_rule::{AtomIds, GroundKind, GroundRule, GroundRules};
use ms_term::TermId;
use ms_unfound::OutOfMemory;
use std::alloc::Global;

/// An atom that a module heads.
#[derive(Clone, Copy, PartialEq)]
pub(crate) enum Head {
    A,
    B,
    C,
}

/// A rule: with one positive atom, which may be the input, or a choice without a body.
#[derive(Clone, Copy, PartialEq)]
pub(crate) enum TinyRule {
    From(Head, Head),
    FromInput(Head),
    Choice(Head),
}

fn number_of(head: Head) -> AtomId
    ensures { result < 3 }
{
    match head {
        Head::A => AtomId(0),
        Head::B => AtomId(1),
        Head::C => AtomId(2),
    }
}

fn set_of(alloc: Global, atom: AtomId) -> Result<AtomIds, OutOfMemory>
    requires { atom < 4 }
    ensures { IfOk result IsTinySet }
{
    let mut atoms = Seq::new(alloc);
    atoms.push(atom)?;
    Ok(atoms)
}

fn body_of(alloc: Global, row: TinyRule) -> Result<AtomIds, OutOfMemory>
    ensures { IfOk result IsTinySet }
{
    match row {
        TinyRule::From(_, atom) => set_of(alloc, number_of(atom)),
        TinyRule::FromInput(_) => set_of(alloc, AtomId(3)),
        TinyRule::Choice(_) => Ok(Seq::new(alloc)),
    }
}

fn head_of(row: TinyRule) -> (GroundKind, AtomId)
    ensures head { result.1 < 3 }
    ensures kind { result.0 ≢ GroundKind.Constraint }
{
    match row {
        TinyRule::From(head, _) | TinyRule::FromInput(head) => {
            (GroundKind::Normal, number_of(head))
        }
        TinyRule::Choice(head) => (GroundKind::Choice, number_of(head)),
    }
}

fn rule_of(alloc: Global, row: TinyRule) -> Result<GroundRule, OutOfMemory>
    ensures { IfOk result IsTinyRule }
{
    let pos = body_of(alloc, row)?;
    let (kind, head) = head_of(row);
    Ok(GroundRule {
        kind,
        head: Some(head),
        pos,
        neg: Seq::new(alloc),
        aggs: Seq::new(alloc),
    })
}

fn rules_of(alloc: Global, rows: &[TinyRule]) -> Result<GroundRules, OutOfMemory>
    ensures { IfOk result (All IsTinyRule) }
{
    let mut rules = Seq::new(alloc);
    for row in rows {
        rules.push(rule_of(alloc, *row)?)?;
    }
    Ok(rules)
}

/// The module of these rules.
pub(crate) fn module_of(alloc: Global, rows: &[TinyRule]) -> Result<GroundModule, OutOfMemory>
    ensures { IfOk result (IsWellFormed 0) }
{
    let rules = rules_of(alloc, rows)?;
    Ok(GroundModule {
        first_new: 0,
        fresh: 4,
        names: Seq::copied(alloc, &[TermId(0), TermId(1), TermId(2), TermId(3)])?,
        rules,
        externals: Seq::copied(alloc, &[AtomId(3)])?,
        heads: Seq::copied(alloc, &[AtomId(0), AtomId(1), AtomId(2)])?,
    })
}
