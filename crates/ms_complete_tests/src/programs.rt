ghost use Rattle.std.specs.Prelude.{◌≡◌, ◌+◌, [], ℕ, ◌<◌, All, Contains, IfOk, IfSome, OnOk, ◌^◌, ◌≤◌, length};
ghost use Rattle.ms_join.specs.Things.{Thing};
ghost use Rattle.ms_complete.specs.Notes.{AreNamed};
ghost use Rattle.ms_complete.specs.Numbering.{IsFrom};
ghost use Rattle.ms_complete_tests.specs.Programs.{IsRuleBelow, IsPartAfter, HasNames};

use crate::rows::{LOOP, PROGRAMS, Part, Program, Row};
use ms_base::atom_id::AtomId;
use ms_base::seq::Seq;
use ms_complete::{Complete, OutOfMemory};
use ms_join::aggregate::TermIds;
use ms_join::ground_module::GroundModule;
use ms_join::ground_rule::{AtomIds, GroundKind, GroundRule, GroundRules};
use ms_lits::{Lit, Lits, Note};
use ms_nogood::Nogoods;
use ms_term::{TermId, Terms};
use std::alloc::Global;
use std::test::Fail;

/// Those of the atoms that are below a number.
fn atoms(alloc: Global, numbers: &[u32], count: u32) -> Result<AtomIds, OutOfMemory>
    ensures { IfOk result (All (λ a. a < count)) }
{
    let mut atoms = Seq::new(alloc);
    for number in numbers {
        if *number < count {
            atoms.push(AtomId(*number))?;
        }
    }
    Ok(atoms)
}

fn head_below(head: Option<u32>, count: u32) -> Option<AtomId>
    ensures { IfSome result (λ h. h < count) }
{
    match head {
        Some(h) if h < count => Some(AtomId(h)),
        _ => None,
    }
}

fn rule(alloc: Global, row: Row, count: u32) -> Result<GroundRule, OutOfMemory>
    ensures { IfOk result (IsRuleBelow count) }
{
    let (kind, head, pos, neg) = match row {
        Row::Normal(head, pos, neg) => (GroundKind::Normal, Some(head), pos, neg),
        Row::Choice(head, pos, neg) => (GroundKind::Choice, Some(head), pos, neg),
        Row::Constraint(pos, neg) => (GroundKind::Constraint, None, pos, neg),
    };
    Ok(GroundRule {
        kind,
        head: head_below(head, count),
        pos: atoms(alloc, pos, count)?,
        neg: atoms(alloc, neg, count)?,
        aggs: Seq::new(alloc),
    })
}

fn rules(alloc: Global, rows: &[Row], count: u32) -> Result<GroundRules, OutOfMemory>
    ensures { IfOk result (All (IsRuleBelow count)) }
{
    let mut rules = Seq::new(alloc);
    for row in rows {
        rules.push(rule(alloc, *row, count)?)?;
    }
    Ok(rules)
}

/// The module whose new atoms have these names, after so many.
fn module(
    alloc: Global,
    part: &Part,
    first: u32,
    names: &[TermId],
) -> Result<GroundModule, OutOfMemory>
    requires { first + length names.now < 2 ^ 32 }
    ensures { IfOk result (IsPartAfter first names.now) }
{
    let fresh = names.len() as u32;
    let count = first + fresh;
    Ok(GroundModule {
        first_new: first,
        fresh,
        names: Seq::copied(alloc, names)?,
        rules: rules(alloc, part.rules, count)?,
        externals: atoms(alloc, part.externals, count)?,
        heads: atoms(alloc, part.heads, count)?,
    })
}

/// The terms a to d.
fn names(alloc: Global, terms: &mut Terms) -> Result<Vec<TermId>, OutOfMemory>
    ensures below { IfOk result (λ names. All (λ name. name < length terms.new) names.items) }
    ensures few { IfOk result (λ names. length names.items ≤ 4) }
{
    let a = terms.function(b"a", &[])?;
    let b = terms.function(b"b", &[])?;
    let c = terms.function(b"c", &[])?;
    let d = terms.function(b"d", &[])?;
    Ok(vec![in alloc; a, b, c, d]?)
}

/// Takes the module whose new atoms have these names, after so many.
fn take(
    alloc: Global,
    part: &Part,
    first: u32,
    names: &[TermId],
    complete: &mut Complete,
    store: &mut Nogoods,
) -> Result<(), OutOfMemory>
    requires { first + length names.now < 2 ^ 32 }
    ensures { OnOk result ((terms : ℕ) → HasNames first terms complete.old → All (λ name. name < terms) names.now → HasNames (first + length names.now) terms complete.new) }
{
    let m = module(alloc, part, first, names)?;
    complete.extend(&m, store)?;
    Ok(())
}

/// Takes modules one after the other. The names of their new atoms are the first of these.
fn take_all(
    alloc: Global,
    parts: &[Part],
    names: &[TermId],
    complete: &mut Complete,
    store: &mut Nogoods,
) -> Result<(), OutOfMemory>
    requires few { length names.now ≤ 4 }
    requires empty { complete.old ≡ record { things = []; names = [] } }
    ensures { OnOk result ((terms : ℕ) → All (λ name. name < terms) names.now → (count : ℕ) × HasNames count terms complete.new) }
{
    let mut first = 0;
    for part in parts {
        let end = names.len().min(first + part.fresh as usize);
        take(
            alloc,
            part,
            first as u32,
            &names[first..end],
            complete,
            store,
        )?;
        first = end;
    }
    Ok(())
}

fn push_lits(
    text: &mut String,
    mut between: &'static str,
    lits: &[Lit],
) -> Result<(), OutOfMemory> {
    for lit in lits {
        let sign = if lit.truth { "" } else { "-" };
        write!(text, "{between}{sign}{}", u64::from(lit.var) + 1)?;
        between = " ";
    }
    Ok(())
}

fn push_note(text: &mut String, note: &Note) -> Result<(), OutOfMemory> {
    match note {
        Note::Atom(name) => {
            text.push_str("a ")?;
            for byte in name.as_slice() {
                text.push(char::from(*byte))?;
            }
        }
        Note::Body(lits) => {
            text.push('b')?;
            push_lits(text, " ", lits.as_slice())?;
        }
        _ => text.push('?')?,
    }
    text.push(';')?;
    Ok(())
}

/// The declarations of the things.
fn lines(alloc: Global, complete: &Complete, terms: &Terms) -> Result<String, OutOfMemory>
    requires { AreNamed complete.now terms.now }
{
    let mut text = String::new(alloc);
    let notes = complete.notes_from(terms, 0)?;
    for note in notes.as_slice() {
        push_note(&mut text, note)?;
    }
    Ok(text)
}

/// The nogoods of the store, sorted.
fn nogoods(alloc: Global, store: &Nogoods) -> Result<String, OutOfMemory> {
    let mut all: Vec<Lits> = Vec::new(alloc);
    for key in store.fresh() {
        if store.contains(*key) {
            all.push(Seq::copied(alloc, store.get(*key))?)?;
        }
    }
    all.sort_unstable();
    let mut text = String::new(alloc);
    for lits in &all {
        push_lits(&mut text, "", lits.as_slice())?;
        text.push(';')?;
    }
    Ok(text)
}

/// The lines of a program, and its nogoods.
fn texts(alloc: Global, program: &Program) -> Result<(String, String), OutOfMemory> {
    let mut terms = Terms::new(alloc);
    let names = names(alloc, &mut terms)?;
    let mut complete = Complete::new(alloc);
    let mut store = Nogoods::new(alloc);
    take_all(
        alloc,
        program.parts,
        names.as_slice(),
        &mut complete,
        &mut store,
    )?;
    let lines = lines(alloc, &complete, &terms)?;
    let nogoods = nogoods(alloc, &store)?;
    Ok((lines, nogoods))
}

#[test]
fn completions(rt: HostRuntime) -> Result<(), Fail> {
    for program in PROGRAMS {
        let (lines, nogoods) = texts(rt.alloc(), program)?;
        let message = program.message;
        assert_eq!(rt; lines.as_str(), program.lines, "{message}");
        assert_eq!(rt; nogoods.as_str(), program.nogoods, "{message}");
    }
    Ok(())
}

/// The numbers of the heads of a module that was taken.
fn head_numbers(
    alloc: Global,
    complete: &Complete,
    m: &GroundModule,
) -> Result<Vec<u32>, OutOfMemory>
    requires { (t : Thing) → IsFrom m.now t → Contains complete.now.things t }
{
    let mut numbers = Vec::new(alloc);
    for a in m.heads.as_slice() {
        numbers.push(complete.thing_of(*a))?;
    }
    Ok(numbers)
}

/// The numbers of the bodies of its rules.
fn body_numbers(
    alloc: Global,
    complete: &Complete,
    m: &GroundModule,
) -> Result<Vec<u32>, OutOfMemory>
    requires taken { (t : Thing) → IsFrom m.now t → Contains complete.now.things t }
    requires plain { All (λ rule. rule.aggs ≡ []) m.now.rules }
{
    let mut numbers = Vec::new(alloc);
    for rule in m.rules.as_slice() {
        numbers.push(complete.body_of(rule)?)?;
    }
    Ok(numbers)
}

#[test]
fn numbers(rt: HostRuntime) -> Result<(), Fail> {
    let alloc = rt.alloc();
    let m = module(alloc, &LOOP, 0, &[TermId(0), TermId(1), TermId(2)])?;
    let mut complete = Complete::new(alloc);
    let mut store = Nogoods::new(alloc);
    complete.extend(&m, &mut store)?;
    assert_eq!(rt; complete.things(), 7);
    let heads = head_numbers(alloc, &complete, &m)?;
    assert_eq!(rt; heads.as_slice(), [0, 1, 2].as_slice());
    let bodies = body_numbers(alloc, &complete, &m)?;
    assert_eq!(rt; bodies.as_slice(), [3, 4, 5, 6].as_slice());
    Ok(())
}
