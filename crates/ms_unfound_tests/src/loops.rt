ghost use Rattle.std.specs.Prelude.{◌≡◌, ◌<◌, ◌≤◌, [], IfOk};

use crate::bench::Bench;
use crate::module::{TinyRule, module_of};
use crate::rows::{CHOSEN, SAID, SOLVED};
use ms_complete::Complete;
use ms_lits::{Lit, Trail};
use ms_nogood::{Nogoods, Theory, Verdict};
use ms_search::Run;
use ms_unfound::{OutOfMemory, Unfounded};
use std::alloc::Global;
use std::test::Fail;

/// The theory of a module, the number of its things, and the nogoods of its completion.
fn theory_of(alloc: Global, rules: &[TinyRule]) -> Result<(Unfounded, u32, Nogoods), OutOfMemory>
    ensures vars { IfOk result (λ made. made.0.vars ≡ made.1) }
    ensures seen { IfOk result (λ made. made.0.seen ≡ []) }
{
    let m = module_of(alloc, rules)?;
    let mut store = Nogoods::new(alloc);
    let mut complete = Complete::new(alloc);
    complete.extend(&m, &mut store)?;
    let mut theory = Unfounded::new(alloc);
    theory.extend(&m, &complete)?;
    Ok((theory, complete.things(), store))
}

/// Assigns those of the literals whose variables are unassigned.
fn fill(trail: &mut Trail, lits: &[Lit])
    ensures { trail.new.room ≡ trail.old.room }
{
    for lit in lits {
        if lit.var < trail.room() && trail.value(lit.var).is_none() {
            trail.assign(*lit, None);
        }
    }
}

/// The literals numbered from 1, or `quiet`.
fn text_of(alloc: Global, verdict: &Verdict) -> Result<String, OutOfMemory> {
    let mut text = String::new(alloc);
    match verdict {
        Verdict::Quiet => text.push_str("quiet")?,
        Verdict::Nogood(lits) => push_lits(&mut text, lits.as_slice())?,
    }
    Ok(text)
}

fn push_lits(text: &mut String, lits: &[Lit]) -> Result<(), OutOfMemory> {
    let mut between = "";
    for lit in lits {
        let sign = if lit.truth { "" } else { "-" };
        write!(text, "{between}{sign}{}", u64::from(lit.var) + 1)?;
        between = " ";
    }
    Ok(())
}

/// What the theory says of a trail with these literals, of which it has seen nothing.
fn said(
    alloc: Global,
    theory: &mut Unfounded,
    things: u32,
    lits: &[Lit],
) -> Result<String, OutOfMemory>
    requires { theory.old.vars ≤ things }
    ensures { theory.new.vars ≡ theory.old.vars }
{
    theory.back_to(0);
    let mut trail = Trail::new(alloc);
    trail.grow(things)?;
    fill(&mut trail, lits);
    let verdict = theory.check(&trail)?;
    text_of(alloc, &verdict)
}

#[test]
fn verdicts(rt: HostRuntime) -> Result<(), Fail> {
    let alloc = rt.alloc();
    for row in SAID {
        let message = row.message;
        let (mut theory, things, _store) = theory_of(alloc, row.rules)?;
        let found = said(alloc, &mut theory, things, row.trail)?;
        assert_eq!(rt; found.as_str(), row.says, "{message}");
    }
    Ok(())
}

#[test]
fn one_theory_for_all_trails(rt: HostRuntime) -> Result<(), Fail> {
    let alloc = rt.alloc();
    let (mut theory, things, _store) = theory_of(alloc, CHOSEN)?;
    for row in SAID {
        if row.rules == CHOSEN {
            let message = row.message;
            let found = said(alloc, &mut theory, things, row.trail)?;
            assert_eq!(rt; found.as_str(), row.says, "{message}");
        }
    }
    Ok(())
}

/// The answer sets that the search finds with a theory.
fn solved(
    alloc: Global,
    theory: &mut Unfounded,
    things: u32,
    store: &Nogoods,
    assume: &[Lit],
) -> Result<String, OutOfMemory>
    requires { theory.old.vars ≤ things }
{
    let mut bench = Bench::new(alloc, things)?;
    bench.add_all(store)?;
    let run = bench.run(theory, 100, assume)?;
    sets_text(alloc, &run)
}

#[test]
fn answers(rt: HostRuntime) -> Result<(), Fail> {
    let alloc = rt.alloc();
    for row in SOLVED {
        let message = row.message;
        let (mut theory, things, store) = theory_of(alloc, row.rules)?;
        let found = solved(alloc, &mut theory, things, &store, row.assume)?;
        assert_eq!(rt; found.as_str(), row.answers, "{message}");
        let mut none = Unfounded::new(alloc);
        let found = solved(alloc, &mut none, things, &store, row.assume)?;
        assert_eq!(rt;
            found.as_str(),
            row.completion,
            "{message}: completion alone"
        );
    }
    Ok(())
}

/// The answers of a run as sets, in the order of their numbers.
fn sets_text(alloc: Global, run: &Run) -> Result<String, OutOfMemory> {
    let mut sets = [false; 16];
    for answer in run.answers.as_slice() {
        sets[number_of(answer.as_slice())] = true;
    }
    let mut text = String::new(alloc);
    for (number, has) in sets.iter().enumerate() {
        if *has {
            push_set(&mut text, number)?;
        }
    }
    Ok(text)
}

/// The number of a set: a counts 1, b 2, c 4, and the input 8.
fn number_of(atoms: &[u32]) -> usize
    ensures { result < 16 }
{
    weight(atoms, 0, 1) + weight(atoms, 1, 2) + weight(atoms, 2, 4) + weight(atoms, 3, 8)
}

fn weight(atoms: &[u32], atom: u32, weight: usize) -> usize
    ensures { result ≤ weight }
{
    if atoms.contains(&atom) { weight } else { 0 }
}

fn push_set(text: &mut String, number: usize) -> Result<(), OutOfMemory> {
    text.push('{')?;
    for (bit, name) in [(1, 'a'), (2, 'b'), (4, 'c'), (8, 'i')] {
        if number / bit % 2 == 1 {
            text.push(name)?;
        }
    }
    text.push('}')?;
    Ok(())
}
