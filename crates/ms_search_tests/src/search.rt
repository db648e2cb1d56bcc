ghost use Rattle.std.specs.Prelude.{◌<◌};

use crate::bench::{AllFalse, Bench, lines};
use crate::nogood::Silent;
use ms_lits::{Ending, Lit};
use ms_nogood::OutOfMemory;
use std::alloc::Global;
use std::test::Fail;

fn is(var: u32) -> Lit {
    Lit { var, truth: true }
}

fn isnt(var: u32) -> Lit {
    Lit { var, truth: false }
}

/// The number of holes.
const HOLES: u32 = 5;

/// Each of so many pigeons has a hole, and no two have the same.
fn pigeons(alloc: Global, count: u32) -> Result<Bench, OutOfMemory>
    requires { count < 100 }
{
    let mut bench = Bench::new(alloc, count * HOLES)?;
    for pigeon in 0..count {
        let mut none = Vec::new(alloc);
        for hole in 0..HOLES {
            none.push(isnt(pigeon * HOLES + hole))?;
        }
        bench.add(none.as_slice(), false)?;
        for other in 0..pigeon {
            for hole in 0..HOLES {
                let both = [is(other * HOLES + hole), is(pigeon * HOLES + hole)];
                bench.add(&both, false)?;
            }
        }
    }
    Ok(bench)
}

#[test]
fn small_stores(rt: HostRuntime) -> Result<(), Fail> {
    let alloc = rt.alloc();
    let rows = [
        (
            [None, None],
            false,
            9,
            9,
            false,
            Ending::Complete,
            4,
            "two free variables",
        ),
        (
            [None, None],
            false,
            3,
            9,
            false,
            Ending::StillOpen,
            3,
            "three of them",
        ),
        (
            [Some(is(0)), None],
            false,
            9,
            9,
            false,
            Ending::Complete,
            2,
            "one assumed",
        ),
        (
            [Some(is(0)), Some(isnt(0))],
            false,
            9,
            9,
            false,
            Ending::Complete,
            0,
            "a variable and its opposite",
        ),
        (
            [Some(is(0)), None],
            true,
            9,
            9,
            false,
            Ending::Complete,
            0,
            "an empty nogood",
        ),
        (
            [None, None],
            false,
            9,
            9,
            true,
            Ending::Complete,
            0,
            "something impossible",
        ),
    ];
    for (assume, empty, count, limit, impossible, ending, answers, what) in &rows {
        let mut bench = Bench::new(alloc, 2)?;
        if *empty {
            bench.add(&[], false)?;
        }
        let mut lits = Vec::new(alloc);
        for lit in assume.iter().flatten() {
            lits.push(*lit)?;
        }
        let (_, run) = bench.run(&mut Silent, *count, *limit, lits.as_slice(), *impossible)?;
        assert_eq!(rt;
            (run.ending, run.answers.len()),
            (*ending, *answers),
            "{what}"
        );
    }
    Ok(())
}

#[test]
fn free_variables(rt: HostRuntime) -> Result<(), Fail> {
    let alloc = rt.alloc();
    let bench = Bench::new(alloc, 12)?;
    let (_, run) = bench.run(&mut Silent, 5_000, 0, &[], false)?;
    assert_eq!(rt; run.ending, Ending::Complete);
    assert_eq!(rt; lines(&run), [0, 0, 4_096, 4_096]);
    Ok(())
}

#[test]
fn kept_nogoods(rt: HostRuntime) -> Result<(), Fail> {
    let alloc = rt.alloc();
    let bench = pigeons(alloc, 6)?;
    let (bench, first) = bench.run(&mut Silent, 1, 1, &[], false)?;
    assert_eq!(rt;
        (first.ending, lines(&first)),
        (Ending::Cut, [0, 1, 0, 0]),
        "a cut"
    );
    let (bench, second) = bench.run(&mut Silent, 1, 100_000, &[], false)?;
    assert_eq!(rt; second.ending, Ending::Complete, "all of it");
    let (_, third) = bench.run(&mut Silent, 1, 0, &[], false)?;
    assert_eq!(rt;
        (third.ending, lines(&third)),
        (Ending::Complete, [0, 0, 0, 0]),
        "by what was kept"
    );
    Ok(())
}

/// How many kept nogoods more than may be kept.
const MORE: u32 = 1_000;

#[test]
fn oldest_kept_nogoods_go(rt: HostRuntime) -> Result<(), Fail> {
    let mut bench = Bench::new(rt.alloc(), 2)?;
    for _ in 0..200_000 + MORE {
        bench.add(&[is(0), is(1)], true)?;
    }
    let (mut bench, first) = bench.run(&mut Silent, 9, 9, &[], false)?;
    assert_eq!(rt; (first.ending, first.answers.len()), (Ending::Complete, 3));
    assert_eq!(rt;
        [bench.has(0), bench.has(999), bench.has(1_000)],
        [false, false, true]
    );
    for _ in 0..MORE {
        bench.add(&[is(0), is(1)], true)?;
    }
    assert_eq!(rt; [bench.has(0), bench.has(999), bench.has(1_000)], [true; 3]);
    let (bench, second) = bench.run(&mut Silent, 9, 9, &[], false)?;
    assert_eq!(rt;
        (second.ending, second.answers.len()),
        (Ending::Complete, 3)
    );
    assert_eq!(rt;
        [bench.has(0), bench.has(1_000), bench.has(2_000)],
        [true, false, true]
    );
    Ok(())
}

#[test]
fn conflicts_after_answers(rt: HostRuntime) -> Result<(), Fail> {
    let alloc = rt.alloc();
    let bench = pigeons(alloc, 5)?;
    let (_, cut) = bench.run(&mut Silent, 1_000, 3, &[], false)?;
    let [_, kept, temporary, answers] = lines(&cut);
    let learned = kept.saturating_add(temporary);
    assert_eq!(rt;
        (cut.ending, learned),
        (Ending::Cut, answers.saturating_add(3)),
        "a cut"
    );
    assert!(rt; answers > 0, "answers before a cut");
    let bench = pigeons(alloc, 5)?;
    let (_, all) = bench.run(&mut Silent, 1_000, 100_000, &[], false)?;
    let [_, _, temporary, answers] = lines(&all);
    assert_eq!(rt;
        (all.ending, answers),
        (Ending::Complete, 120),
        "all permutations"
    );
    assert!(rt;
        temporary > answers,
        "one that rests on answers: {temporary}"
    );
    Ok(())
}

#[test]
fn asked_early(rt: HostRuntime) -> Result<(), Fail> {
    let alloc = rt.alloc();
    let bench = Bench::new(alloc, 20)?;
    let mut theory = AllFalse {
        alloc,
        vars: 20,
        greatest: 0,
    };
    let (_, run) = bench.run(&mut theory, 1_000_000, 1, &[], false)?;
    assert_eq!(rt;
        (run.ending, lines(&run)),
        (Ending::Complete, [20, 0, 1, 1])
    );
    assert_eq!(rt; theory.greatest, 0);
    Ok(())
}
