ghost use Rattle.std.specs.Prelude.{◌≡◌, ◌≢◌, ◌<◌, ◌≤◌, [], All, AllPairs, IfOk, IfSome, IsTrue, false, true};
ghost use Rattle.ms_lits.specs.declared.lit.Lit.{Lit};
ghost use Rattle.ms_nogood.specs.Propagation.{IsWholeAt, IsWithin};
ghost use Rattle.ms_refutation.specs.Sets.{AreReasoned};
ghost use Rattle.ms_analyze.specs.Analysis.{HasLevel, IsOnlyDecision};

use ms_analyze::{Learned, OutOfMemory, analyze};
use ms_lits::{Lit, Trail};
use ms_nogood::{Kind, Nogoods, Scan};
use std::alloc::Global;
use std::test::Fail;

/// The number of variables of the tests.
const VARS: u32 = 16;

fn is(var: u32) -> Lit
    ensures { result ≡ record { var = var; truth = true } }
{
    Lit { var, truth: true }
}

fn isnt(var: u32) -> Lit
    ensures { result ≡ record { var = var; truth = false } }
{
    Lit { var, truth: false }
}

fn add(store: &mut Nogoods, lits: &[Lit], kind: Kind) -> Result<(), OutOfMemory>
    requires within { IsWithin store.old VARS }
    requires small { All (λ l. l.var < VARS) lits.now }
    requires different { AllPairs (λ l m. l.var ≢ m.var) lits.now }
    ensures { IfOk result (λ _. IsWithin store.new VARS) }
{
    store.add(lits, kind)?;
    Ok(())
}

/// Decides a variable at a new level, and gives the key of a nogood that is then whole.
fn decide(lit: Lit, trail: &mut Trail, store: &Nogoods) -> Option<usize>
    requires within { IsWithin store.now trail.old.room }
    requires reasons { AreReasoned store.now trail.old.entries }
    ensures room { trail.new.room ≡ trail.old.room }
    ensures reasons { AreReasoned store.now trail.new.entries }
    ensures level { IfSome result (λ _. 1 ≤ trail.new.level) }
    ensures decision { IfSome result (λ _. IsOnlyDecision trail.new.level trail.new.entries) }
    ensures whole { IfSome result (λ key. IsWholeAt store.now trail.new.entries key) }
{
    if lit.var >= trail.room() || trail.level() >= trail.room() || trail.value(lit.var).is_some() {
        return None;
    }
    // Tells that the entries are an assignment.
    let _before = trail.len();
    trail.push_level();
    trail.assign(lit, None);
    match store.scan(trail) {
        Scan::Violated(key) => Some(key),
        Scan::Closed => None,
    }
}

fn has_present(lits: &[Lit], trail: &Trail) -> bool
    ensures { IsTrue result → HasLevel trail.now.entries lits.now trail.now.level }
{
    for lit in lits {
        if lit.var < trail.room()
            && trail.value(lit.var).is_some()
            && trail.level_of(lit.var) == trail.level()
        {
            return true;
        }
    }
    false
}

/// What the first conflict teaches, where these literals are decided one by one.
fn first_conflict(
    alloc: Global,
    store: &Nogoods,
    decisions: &[Lit],
) -> Result<Option<Learned>, OutOfMemory>
    requires { IsWithin store.now VARS }
{
    let mut trail = Trail::new(alloc);
    trail.grow(VARS)?;
    for lit in decisions {
        if let Some(key) = decide(*lit, &mut trail, store) {
            if has_present(store.get(key), &trail) {
                return Ok(Some(analyze(alloc, &trail, store, key)?));
            }
        }
    }
    Ok(None)
}

/// The example of Marques-Silva and Sakallah, "GRASP: a search algorithm for propositional satisfiability"
/// (1999), with the kinds of a nogood of the conflict and of one that has no part in it.
fn textbook(alloc: Global, part: Kind, apart: Kind) -> Result<Nogoods, OutOfMemory>
    ensures { IfOk result (λ store. IsWithin store VARS) }
{
    let mut store = Nogoods::new(alloc);
    add(&mut store, &[is(1), isnt(2)], apart)?;
    add(&mut store, &[is(1), isnt(3), isnt(9)], Kind::Base)?;
    add(&mut store, &[is(2), is(3), isnt(4)], Kind::Base)?;
    add(&mut store, &[is(4), isnt(5), isnt(10)], Kind::Base)?;
    add(&mut store, &[is(4), isnt(6), isnt(11)], part)?;
    add(&mut store, &[is(5), is(6)], Kind::Base)?;
    add(&mut store, &[isnt(1), isnt(7), is(12)], Kind::Base)?;
    add(&mut store, &[isnt(1), isnt(8)], Kind::Base)?;
    add(&mut store, &[is(7), is(8), is(13)], Kind::Base)?;
    add(&mut store, &[is(12), isnt(13)], Kind::Base)?;
    add(&mut store, &[isnt(10), is(11)], Kind::Base)?;
    Ok(store)
}

/// The conflict's literals lie at the first three of four levels.
fn levels(alloc: Global) -> Result<Nogoods, OutOfMemory>
    ensures { IfOk result (λ store. IsWithin store VARS) }
{
    let mut store = Nogoods::new(alloc);
    add(&mut store, &[is(1), isnt(5)], Kind::Base)?;
    add(&mut store, &[is(2), isnt(6)], Kind::Base)?;
    add(&mut store, &[is(4), is(5), isnt(7)], Kind::Base)?;
    add(&mut store, &[is(7), is(6), isnt(8)], Kind::Base)?;
    add(&mut store, &[is(7), isnt(9)], Kind::Base)?;
    add(&mut store, &[is(8), is(9), is(5)], Kind::Base)?;
    add(&mut store, &[isnt(4), isnt(10)], Kind::Base)?;
    add(&mut store, &[isnt(4), is(10)], Kind::Base)?;
    Ok(store)
}

#[test]
fn first_points(rt: HostRuntime) -> Result<(), Fail> {
    let alloc = rt.alloc();
    let before = [isnt(9), is(12), isnt(10), is(14), is(15), is(1)];
    let point = [is(4), isnt(11), isnt(10)];
    let rows = [
        (
            Kind::Base,
            Kind::Base,
            false,
            "the fourth variable, and not the decision",
        ),
        (Kind::Temporary, Kind::Base, true, "by a temporary nogood"),
        (
            Kind::Base,
            Kind::Temporary,
            false,
            "with a temporary nogood apart",
        ),
        (Kind::Reason, Kind::Kept, false, "by a nogood of a theory"),
    ];
    for (part, apart, temporary, what) in &rows {
        let store = textbook(alloc, *part, *apart)?;
        let found = first_conflict(alloc, &store, &before)?;
        assert!(rt; found.is_some(), "{what}");
        let Some(learned) = found else {
            continue;
        };
        assert_eq!(rt; learned.lits.as_slice(), point.as_slice(), "{what}");
        assert_eq!(rt; learned.back, 3, "{what}");
        assert_eq!(rt; learned.temporary, *temporary, "{what}");
    }
    Ok(())
}

#[test]
fn jumps(rt: HostRuntime) -> Result<(), Fail> {
    let alloc = rt.alloc();
    let store = levels(alloc)?;
    let rows = [
        (
            [is(1), is(2), is(3), is(4)],
            [Some(is(7)), Some(is(6)), Some(is(5))],
            2,
            "over three levels",
        ),
        (
            [is(2), is(1), is(3), is(4)],
            [Some(is(7)), Some(is(5)), Some(is(6))],
            2,
            "the other way round",
        ),
        (
            [is(3), is(1), is(2), isnt(4)],
            [Some(isnt(4)), None, None],
            0,
            "the decision alone",
        ),
    ];
    for (decisions, lits, back, what) in &rows {
        let mut point = Vec::new(alloc);
        for lit in lits.iter().flatten() {
            point.push(*lit)?;
        }
        let found = first_conflict(alloc, &store, decisions)?;
        assert!(rt; found.is_some(), "{what}");
        let Some(learned) = found else {
            continue;
        };
        assert_eq!(rt; learned.lits.as_slice(), point.as_slice(), "{what}");
        assert_eq!(rt; learned.back, *back, "{what}");
    }
    Ok(())
}
