// What a solve demands, as literals.
ghost use Rattle.std.specs.Prelude.{◌≡◌, ◌<◌, ◌^◌, ◌↔◌, All, AllPairs, Contains, IfOk, length};
ghost use Rattle.std.specs.List.{AllZip};
ghost use Rattle.ms_lits.specs.declared.lit.Lit.{Lit};
ghost use Rattle.ms_lawful.specs.Parts.{ComesBefore};
ghost use Rattle.ms_complete.specs.Lines.{line_place};
ghost use Rattle.ms_complete.specs.Sets.{Match};
ghost use Rattle.ms_solver.specs.Numbered.{IsLitOf};
ghost use Rattle.ms_solver.specs.Solves.{IsQuestion};

use ms_base::memory::OutOfMemory;
use ms_base::seq::Seq;
use ms_complete::Complete;
use ms_join::assumption::{AtomAsk, AtomLit};
use ms_lits::{Lit, Lits};
use ms_search::Ask;
use std::alloc::Global;

/// What a solve asks of the search, over all things.
pub(crate) fn question_of(
    alloc: Global,
    completion: &Complete,
    numbers: &[u32],
    ask: &AtomAsk,
) -> Result<Ask, OutOfMemory>
    requires { All (λ given. given.atom < length numbers.now) ask.now.assume }
    ensures question { IfOk result (IsQuestion completion.now.things numbers.now ask.now) }
    ensures fits { IfOk result (λ _. length completion.now.things < 2 ^ 32) }
{
    let assume = literals(alloc, numbers, ask.assume.as_slice())?;
    Ok(Ask {
        vars: completion.things(),
        count: ask.count,
        limit: ask.limit,
        assume,
        impossible: ask.impossible,
    })
}

/// The literals of assumptions over numbered atoms, in the order of a line, each once.
fn literals(alloc: Global, numbers: &[u32], assume: &[AtomLit]) -> Result<Lits, OutOfMemory>
    requires { All (λ given. given.atom < length numbers.now) assume.now }
    ensures ordered { IfOk result (AllPairs ComesBefore) }
    ensures says { IfOk result (Match (IsLitOf numbers.now) assume.now) }
{
    let mut lits = each_literal(alloc, numbers, assume)?;
    set_in_line(&mut lits);
    Ok(Seq::from_vec(lits))
}

/// The literal of each assumption.
fn each_literal(alloc: Global, numbers: &[u32], assume: &[AtomLit]) -> Result<Vec<Lit>, OutOfMemory>
    requires { All (λ given. given.atom < length numbers.now) assume.now }
    ensures { IfOk result (λ v. AllZip (IsLitOf numbers.now) assume.now v.items) }
{
    let mut lits = Vec::with_capacity(alloc, assume.len())?;
    for given in assume {
        lits.push(literal(numbers, *given))?;
    }
    Ok(lits)
}

fn literal(numbers: &[u32], given: AtomLit) -> Lit
    requires { given.atom < length numbers.now }
    ensures { IsLitOf numbers.now given result }
{
    Lit {
        var: numbers[given.atom.0 as usize],
        truth: given.truth,
    }
}

/// Brings literals into the order of a line, each once.
fn set_in_line(lits: &mut Vec<Lit>)
    ensures order { AllPairs ComesBefore lits.new.items }
    ensures same { (l : Lit) → Contains lits.new.items l ↔ Contains lits.old.items l }
{
    lits.sort_unstable_by_key(|lit| place_in_line(*lit));
    lits.dedup();
}

/// A number by which the literals of a line rise.
fn place_in_line(lit: Lit) -> u64
    ensures { result ≡ line_place lit }
{
    let first = 2 * u64::from(lit.var);
    if lit.truth { first } else { first + 1 }
}
