ghost use Rattle.std.specs.Prelude.{All, IfOk, ◌<◌};
ghost use Rattle.ms_join.specs.AnswerSets.{IsRuleOver};
ghost use Rattle.ms_cone.specs.Dependencies.{IsBelow};

use ms_base::seq::Seq;
use ms_cone::{AtomId, Cone, Dependencies, OutOfMemory};
use ms_join::ground_rule::{AtomIds, GroundKind, GroundRule, GroundRules};
use std::alloc::Global;
use std::test::Fail;

/// Rules over six atoms, each a head with a positive atom, the atoms around which a cone is made, and a letter for each atom,
/// which those of one component have in common.
#[derive(Clone, Copy)]
struct Row {
    message: &'static str,
    old: &'static [(u32, u32)],
    new: &'static [(u32, u32)],
    starts: &'static [u32],
    components: &'static [u8],
}

/// The atoms below six.
fn atoms(alloc: Global, numbers: &[u32]) -> Result<AtomIds, OutOfMemory>
    ensures { IfOk result (All (λ a. a < 6)) }
{
    let mut atoms = Seq::new(alloc);
    for number in numbers {
        if *number < 6 {
            atoms.push(AtomId(*number))?;
        }
    }
    Ok(atoms)
}

/// A rule with a head below six.
fn rule(alloc: Global, head: u32, atom: u32) -> Result<GroundRule, OutOfMemory>
    ensures { IfOk result (IsRuleOver 6) }
{
    Ok(GroundRule {
        kind: GroundKind::Normal,
        head: Some(AtomId(head % 6)),
        pos: atoms(alloc, &[atom])?,
        neg: Seq::new(alloc),
        aggs: Seq::new(alloc),
    })
}

fn rules(alloc: Global, pairs: &[(u32, u32)]) -> Result<GroundRules, OutOfMemory>
    ensures { IfOk result (All (IsRuleOver 6)) }
{
    let mut rules = Seq::new(alloc);
    for (head, atom) in pairs {
        rules.push(rule(alloc, *head, *atom)?)?;
    }
    Ok(rules)
}

fn dependencies(alloc: Global, pairs: &[(u32, u32)]) -> Result<Dependencies, OutOfMemory>
    ensures { IfOk result (IsBelow 6) }
{
    let rules = rules(alloc, pairs)?;
    let mut dependencies = Dependencies::new(alloc);
    dependencies.add(rules.as_slice())?;
    Ok(dependencies)
}

fn cone_of(alloc: Global, row: Row) -> Result<Cone, OutOfMemory> {
    let old = dependencies(alloc, row.old)?;
    let new = rules(alloc, row.new)?;
    let starts = atoms(alloc, row.starts)?;
    Cone::around(alloc, &old, new.as_slice(), 6, starts.as_slice())
}

/// The letter of an atom.
fn letter_of(components: &[u8], atom: u32) -> u8 {
    components.get(atom as usize).copied().unwrap_or(b'.')
}

/// The start is there, and the atoms in one component with it are those with its letter.
fn agrees(cone: &Cone, components: &[u8], start: u32) -> bool {
    let number = cone.component(AtomId(start));
    if number.is_none() {
        return false;
    }
    let letter = letter_of(components, start);
    for a in 0..6 {
        let together = cone.component(AtomId(a)) == number;
        if together != (letter == letter_of(components, a)) {
            return false;
        }
    }
    true
}

#[test]
fn components_around_starts(rt: HostRuntime) -> Result<(), Fail> {
    let rows = [
        Row {
            message: "a start without rules",
            old: &[],
            new: &[],
            starts: &[0],
            components: b"abcdef",
        },
        Row {
            message: "what depends on the start, and what it depends on",
            old: &[(1, 0), (0, 2)],
            new: &[],
            starts: &[0],
            components: b"abcdef",
        },
        Row {
            message: "a loop through an old and a new rule",
            old: &[(1, 0)],
            new: &[(0, 1)],
            starts: &[0],
            components: b"aacdef",
        },
        Row {
            message: "new rules above an old loop",
            old: &[(0, 1), (1, 0)],
            new: &[(2, 1), (3, 2), (3, 5)],
            starts: &[0],
            components: b"aacdef",
        },
        Row {
            message: "a longer loop",
            old: &[(1, 0), (2, 1), (3, 2)],
            new: &[(0, 3), (4, 0), (3, 5)],
            starts: &[2],
            components: b"aaaaef",
        },
        Row {
            message: "two starts",
            old: &[(1, 0)],
            new: &[(5, 4), (4, 5)],
            starts: &[0, 4, 0],
            components: b"abcdee",
        },
    ];
    for row in &rows {
        let cone = cone_of(rt.alloc(), *row)?;
        for start in row.starts {
            assert!(rt;
                agrees(&cone, row.components, *start),
                "{}: atom {start}",
                row.message
            );
        }
    }
    Ok(())
}

/// Each atom depends on the one before it.
const CHAIN: &[(u32, u32)] = &[(1, 0), (2, 1), (3, 2), (4, 3), (5, 4)];

/// How many atoms are found around the starts.
#[derive(Clone, Copy)]
struct Size {
    message: &'static str,
    old: &'static [(u32, u32)],
    starts: &'static [u32],
    size: usize,
}

#[test]
fn the_smaller_part_is_found(rt: HostRuntime) -> Result<(), Fail> {
    let rows = [
        Size {
            message: "nothing around no atoms",
            old: CHAIN,
            starts: &[],
            size: 0,
        },
        Size {
            message: "what the start depends on",
            old: CHAIN,
            starts: &[1],
            size: 2,
        },
        Size {
            message: "what depends on the start",
            old: CHAIN,
            starts: &[4],
            size: 2,
        },
        Size {
            message: "one rule against four with the start in their bodies",
            old: &[(0, 1), (2, 0), (3, 0), (4, 0), (5, 0)],
            starts: &[0],
            size: 2,
        },
        Size {
            message: "one rule against four with the start as their head",
            old: &[(1, 0), (0, 2), (0, 3), (0, 4), (0, 5)],
            starts: &[0],
            size: 2,
        },
    ];
    for row in &rows {
        let cone = cone_of(
            rt.alloc(),
            Row {
                message: row.message,
                old: row.old,
                new: &[],
                starts: row.starts,
                components: b"",
            },
        )?;
        assert_eq!(rt; cone.len(), row.size, "{}", row.message);
    }
    Ok(())
}

#[test]
fn members_in_their_places(rt: HostRuntime) -> Result<(), Fail> {
    let row = Row {
        message: "",
        old: &[(1, 0)],
        new: &[(2, 1), (0, 2), (0, 3)],
        starts: &[0],
        components: b"",
    };
    let cone = cone_of(rt.alloc(), row)?;
    assert_eq!(rt; cone.len(), 3, "three atoms");
    for place in 0..cone.len() {
        let number = cone.component(cone.member(place));
        assert_eq!(rt; number, Some(cone.number(place)), "place {place}");
    }
    Ok(())
}
