ghost use Rattle.std.specs.Prelude.{◌≡◌, ◌≢◌, ◌<◌, All, AllPairs, IfOk};
ghost use Rattle.ms_nogood.specs.Propagation.{IsWithin};

use ms_lits::Trail;
use ms_nogood::{Kind, Lit, Nogoods, OutOfMemory, Plain, Propagate, Scan, Theory, Verdict};
use std::alloc::Global;
use std::test::Fail;

const NOT_ZERO: Lit = Lit {
    var: 0,
    truth: false,
};

const ZERO: Lit = Lit {
    var: 0,
    truth: true,
};

const ONE: Lit = Lit {
    var: 1,
    truth: true,
};

const NOT_ONE: Lit = Lit {
    var: 1,
    truth: false,
};

const TWO: Lit = Lit {
    var: 2,
    truth: true,
};

#[test]
fn kinds(rt: HostRuntime) -> Result<(), Fail> {
    let mut store = Nogoods::new(rt.alloc());
    let key = store.add(&[ZERO, NOT_ONE], Kind::Kept)?;
    assert_eq!(rt; store.get(key), [ZERO, NOT_ONE].as_slice());
    assert_eq!(rt; store.kind(key), Kind::Kept);
    assert_eq!(rt; store.keys_from(0), Some(key));
    assert_eq!(rt; store.trimmed(0), [key].as_slice());
    assert_eq!(rt; store.trimmed(1), [].as_slice());
    let reason = store.add(&[TWO], Kind::Reason)?;
    assert!(rt; store.ends(reason));
    assert_eq!(rt; store.passing(), [reason].as_slice());
    assert_eq!(rt; store.fresh(), [key, reason].as_slice());
    store.end_solve();
    assert!(rt; !store.contains(reason));
    assert_eq!(rt; store.passing(), [].as_slice());
    assert_eq!(rt; store.keys_from(0), Some(key));
    store.trim(0);
    assert_eq!(rt; store.keys_from(0), None);
    store.forget_fresh();
    assert_eq!(rt; store.fresh(), [].as_slice());
    Ok(())
}

#[test]
fn drops_one(rt: HostRuntime) -> Result<(), Fail> {
    let mut store = Nogoods::new(rt.alloc());
    let kept = store.add(&[ZERO], Kind::Kept)?;
    let key = store.add(&[TWO], Kind::Temporary)?;
    assert!(rt; store.ends(key));
    store.drop_passing(key);
    assert!(rt; !store.contains(key));
    assert!(rt; store.contains(kept));
    Ok(())
}

#[test]
fn attaches(rt: HostRuntime) -> Result<(), Fail> {
    let mut store = Nogoods::new(rt.alloc());
    let trail = Trail::new(rt.alloc());
    let mut plain = Plain::new(rt.alloc());
    let key = store.add(&[ZERO, ONE], Kind::Base)?;
    assert!(rt; !plain.attached(key));
    plain.attach(&store, &trail, key)?;
    assert!(rt; plain.attached(key));
    plain.back_to(0);
    plain.detach(key);
    assert!(rt; !plain.attached(key));
    Ok(())
}

#[test]
fn sleep(rt: HostRuntime) -> Result<(), Fail> {
    let mut store = Nogoods::new(rt.alloc());
    let key = store.hold(TWO)?;
    assert!(rt; !store.awake(key));
    store.wake(key);
    assert!(rt; store.awake(key));
    assert_eq!(rt; store.get(key), [TWO].as_slice());
    assert_eq!(rt; store.kind(key), Kind::Base);
    Ok(())
}

fn add_small(store: &mut Nogoods, lits: &[Lit]) -> Result<usize, OutOfMemory>
    requires within { IsWithin store.old 3 }
    requires small { All (λ l. l.var < 3) lits.now }
    requires different { AllPairs (λ l m. l.var ≢ m.var) lits.now }
    ensures { IfOk result (λ _. IsWithin store.new 3) }
{
    let key = store.add(lits, Kind::Base)?;
    Ok(key)
}

fn assign_all(trail: &mut Trail, lits: &[Lit])
    ensures { trail.new.room ≡ trail.old.room }
{
    for lit in lits {
        if lit.var < trail.room() {
            if let None = trail.value(lit.var) {
                trail.assign(*lit, None);
            }
        }
    }
}

/// Scans with the nogoods of 0 and 1 and of not 1 and 2, and gives the values of the three.
fn scan_from(alloc: Global, start: &[Lit]) -> Result<(Scan, [Option<bool>; 3]), OutOfMemory> {
    let mut store = Nogoods::new(alloc);
    add_small(&mut store, &[ZERO, ONE])?;
    add_small(&mut store, &[NOT_ONE, TWO])?;
    let mut trail = Trail::new(alloc);
    trail.grow(3)?;
    assign_all(&mut trail, start);
    let scan = store.scan(&mut trail);
    Ok((scan, [trail.value(0), trail.value(1), trail.value(2)]))
}

#[test]
fn scans(rt: HostRuntime) -> Result<(), Fail> {
    let yes = Some(true);
    let no = Some(false);
    let rows = [
        ([None, None], Scan::Closed, [None, None, None], "nothing"),
        (
            [Some(ZERO), None],
            Scan::Closed,
            [yes, no, no],
            "in one pass",
        ),
        (
            [Some(TWO), None],
            Scan::Closed,
            [no, yes, yes],
            "in two passes",
        ),
        (
            [Some(NOT_ZERO), None],
            Scan::Closed,
            [no, None, None],
            "false",
        ),
        (
            [Some(ZERO), Some(ONE)],
            Scan::Violated(0),
            [yes, yes, None],
            "whole",
        ),
    ];
    for (start, scan, values, what) in &rows {
        let mut lits = Vec::new(rt.alloc());
        for lit in start.iter().flatten() {
            lits.push(*lit)?;
        }
        let found = scan_from(rt.alloc(), lits.as_slice())?;
        assert_eq!(rt; found, (*scan, *values), "{what}");
    }
    Ok(())
}

/// It gives nothing.
#[derive(Drop)]
pub(crate) struct Silent;

impl Theory for Silent {
    ghost vars = { λ _. 0 };

    ghost leans_on = { λ _ _. ⊥ };

    ghost Settled = { λ _ _. Unit {0} };

    ghost Gives = { λ _ _. ⊥ };

    ghost accepted = { λ _ _ _ _ _ _ _ given _. given };

    fn check(&mut self, _trail: &Trail) -> Result<Verdict, OutOfMemory> {
        Ok(Verdict::Quiet)
    }

    fn back_to(&mut self, _len: usize) {}
}

#[test]
fn theories(rt: HostRuntime) -> Result<(), Fail> {
    let trail = Trail::new(rt.alloc());
    assert_eq!(rt; Silent.check(&trail)?, Verdict::Quiet);
    Ok(())
}
