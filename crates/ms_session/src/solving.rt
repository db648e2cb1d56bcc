// Solving the join, by the solver that lives on.
ghost use Rattle.std.specs.Prelude.{◌≡◌, ◌≤◌, ◌<◌, ◌↔◌, true, All, Contains, IfOk, length};
ghost use Rattle.ms_call.specs.declared.command.Command.TheVariants.{Solve};
ghost use Rattle.ms_machine.specs.Machine.{IsAskOf};
ghost use Rattle.ms_join.specs.declared.assumption.AtomLit.{AtomLit};
ghost use Rattle.ms_session.specs.Assuming.{AddsAssumed, AreExactly, IsImpossibleFor, IsKnown, IsValue};
ghost use Rattle.ms_session.specs.Opened.{IsReady, IsStep, names_of, state_in};

use crate::open_session::Open;
use crate::reply_text::ending_text;
use ms_base::atom_id::AtomId;
use ms_base::memory::OutOfMemory;
use ms_base::seq::Seq;
use ms_call::command::{Assumption, Assumptions};
use ms_join::assumption::{AtomAsk, AtomLit};
use ms_join::ground_rule::Input;
use ms_lits::{Answers, Note};
use ms_machine::reply::Reply;
use ms_rules::AtomSet;
use ms_show::listing;
use ms_solver::values_are_assumed;
use std::alloc::Global;

impl Open {
    /// Lists answer sets of the join that meet the assumptions, as many as are asked for or all that there are, and has
    /// the lines of the log. What is learned and follows from the join is kept.
    pub fn solve(
        &mut self,
        alloc: Global,
        count: u64,
        limit: u64,
        assume: &Assumptions,
    ) -> Result<Reply, OutOfMemory>
        requires ready { IsReady self.old }
        requires asked { 1 ≤ count }
        ensures { IfOk result (IsStep self.old (Solve count limit assume.now) self.new) }
    {
        values_are_assumed();
        let ask = self.ask_of(alloc, count, limit, assume.as_slice())?;
        let run = self.solver.solve(&ask)?;
        let sets = as_atoms(alloc, &run.answers)?;
        let found = sets.len() as u64;
        self.notes = run.notes;
        let ending = ending_text(alloc, run.ending, found, limit)?;
        self.notes.push(Note::Finish(Seq::from_vec(ending)))?;
        let shown = listing(alloc, &self.terms, &self.base, &self.parts, sets.as_slice())?;
        Ok(Reply::Solved {
            ending: run.ending,
            count: found,
            limit,
            shown,
        })
    }

    /// What the join is asked: the values of inputs that aren't free and the assumptions on atoms of the base, each once.
    fn ask_of(
        &self,
        alloc: Global,
        count: u64,
        limit: u64,
        assume: &[Assumption],
    ) -> Result<AtomAsk, OutOfMemory>
        requires { All (λ t. t < length self.now.terms) self.now.base }
        ensures asks { IfOk result (IsAskOf (state_in self.now) count limit assume.now) }
        ensures known { IfOk result (λ _. All (IsKnown (names_of self.now)) assume.now) }
    {
        let mut lits = values(alloc, self.join.rules().inputs.as_slice())?;
        let impossible = self.add_assumed(alloc, assume, &mut lits)?;
        each_once(&mut lits);
        Ok(AtomAsk {
            count,
            limit,
            assume: Seq::from_vec(lits),
            impossible,
        })
    }

    /// Adds the assumptions by the numbers of their atoms, and says whether an atom outside the base is assumed true. One
    /// that such an atom is false holds in every set, and is left out.
    fn add_assumed(
        &self,
        alloc: Global,
        assume: &[Assumption],
        lits: &mut Vec<AtomLit>,
    ) -> Result<bool, OutOfMemory>
        requires { All (λ t. t < length self.now.terms) self.now.base }
        ensures adds { IfOk result (λ _. AddsAssumed (names_of self.now) assume.now lits.old.items lits.new.items) }
        ensures impossible { IfOk result (λ impossible. (impossible ≡ true) ↔ IsImpossibleFor (names_of self.now) assume.now) }
        ensures known { IfOk result (λ _. All (IsKnown (names_of self.now)) assume.now) }
    {
        let mut impossible = false;
        for given in assume {
            match self.find(alloc, &given.atom)? {
                Some(atom) => lits.push(AtomLit {
                    atom,
                    truth: given.truth,
                })?,
                None => impossible = impossible || given.truth,
            }
        }
        Ok(impossible)
    }
}

/// The values of the inputs that aren't free.
fn values(alloc: Global, inputs: &[Input]) -> Result<Vec<AtomLit>, OutOfMemory>
    ensures { IfOk result (λ lits. AreExactly (IsValue inputs.now) lits.items) }
{
    let mut lits = Vec::new(alloc);
    for input in inputs {
        if let Some(truth) = input.value {
            lits.push(AtomLit {
                atom: input.atom,
                truth,
            })?;
        }
    }
    Ok(lits)
}

/// Keeps each literal once.
fn each_once(lits: &mut Vec<AtomLit>)
    ensures { (lit : AtomLit) → Contains lits.new.items lit ↔ Contains lits.old.items lit }
{
    lits.sort_unstable();
    lits.dedup();
}

/// The answers as sets of atoms.
fn as_atoms(alloc: Global, answers: &Answers) -> Result<Seq<AtomSet>, OutOfMemory>
    ensures { IfOk result (λ sets. sets ≡ answers.now) }
{
    let mut sets = Seq::new(alloc);
    for answer in answers.as_slice() {
        sets.push(as_atom_set(alloc, answer.as_slice())?)?;
    }
    Ok(sets)
}

fn as_atom_set(alloc: Global, numbers: &[u32]) -> Result<AtomSet, OutOfMemory>
    ensures { IfOk result (λ set. set ≡ numbers.now) }
{
    let mut set = Seq::new(alloc);
    for number in numbers {
        set.push(AtomId(*number))?;
    }
    Ok(set)
}
