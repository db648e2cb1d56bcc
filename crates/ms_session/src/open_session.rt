// What a session has until it is sealed.
ghost use Rattle.std.specs.Prelude.{◌≡◌, ◌++◌, [], IfOk, OnOk, OnErr, length};
ghost use Rattle.ms_call.specs.declared.command.Command.TheVariants.{Add, Assign, Release};
ghost use Rattle.ms_call.specs.Commands.{AsksForSome};
ghost use Rattle.ms_join.specs.Modules.{value_of};
ghost use Rattle.ms_module.specs.Inputs.{Assigns, Releases};
ghost use Rattle.ms_machine.specs.Machine.{start};
ghost use Rattle.ms_machine.specs.Replies.{reply_text, said_by};
ghost use Rattle.ms_session.specs.Kept.{IsNamed};
ghost use Rattle.ms_session.specs.Fitting.{IsToldAlike};
ghost use Rattle.ms_session.specs.Opened.{IsReady, IsStep, IsWhole, state_in};

use crate::adding::add_text;
use crate::reply_text::print;
use ms_atombase::AtomBase;
use ms_base::atom_id::AtomId;
use ms_base::memory::OutOfMemory;
use ms_base::seq::Seq;
use ms_base::truth::{Effect, Truth};
use ms_call::command::Command;
use ms_grammar::value::Value;
use ms_lits::Notes;
use ms_machine::reply::Reply;
use ms_module::Join;
use ms_parts::Parts;
use ms_solver::{Solver, assigned_is_served};
use ms_term::Terms;
use std::alloc::Global;

/// The accepted texts, the names of terms, the atoms of the base, the join, its solver, and the lines of the log that the
/// last command gave. A call that answers want of memory leaves anything here.
#[derive(Drop)]
pub(crate) struct Open {
    pub parts: Parts,
    pub terms: Terms,
    pub base: AtomBase,
    pub join: Join,
    pub solver: Solver,
    pub notes: Notes,
}

impl Open {
    /// Before the first command.
    pub fn new(alloc: Global) -> Open
        ensures whole { IsWhole result }
        ensures start { state_in result ≡ start }
    {
        Open {
            parts: Parts::new(alloc),
            terms: Terms::new(alloc),
            base: AtomBase::new(alloc),
            join: Join::new(alloc),
            solver: Solver::new(alloc),
            notes: Seq::new(alloc),
        }
    }

    /// Begins a command: no lines of the log stand from the one before.
    pub fn begin(&mut self)
        ensures { self.new ≡ record self.old { notes = [] } }
    {
        self.notes.truncate(0);
    }

    /// Adds a text to the accepted ones, or refuses it.
    pub fn add(&mut self, alloc: Global, text: &[u8]) -> Result<Reply, OutOfMemory>
        requires { IsReady self.old }
        ensures { IfOk result (IsStep self.old (Add text.now) self.new) }
    {
        add_text(alloc, &mut self.parts, text)
    }

    /// Gives a truth to an input, which has no effect exactly where the atom is no input. It takes no memory.
    pub fn assign(&mut self, a: AtomId, truth: Truth) -> Effect
        requires { IsWhole self.old }
        ensures assigns { Assigns self.old.join a (value_of truth) self.new.join result }
        ensures whole { IsWhole self.new }
        ensures rest { self.new ≡ record self.old { join = self.new.join } }
    {
        assigned_is_served();
        let effect = self.join.assign(a, truth);
        // The join says that it is one still.
        let _ = self.join.rules();
        effect
    }

    /// Makes an input false for good, which has no effect exactly where the atom is no input. It takes no memory.
    pub fn release(&mut self, a: AtomId) -> Effect
        requires { IsWhole self.old }
        ensures releases { Releases self.old.join a self.new.join result }
        ensures whole { IsWhole self.new }
        ensures told { IsToldAlike self.old.solver self.new.solver }
        ensures rest { self.new ≡ record self.old { join = self.new.join; solver = self.new.solver } }
    {
        let effect = self.join.release(a);
        // The join says that it is one still.
        let _ = self.join.rules();
        match effect {
            Effect::Done => {
                self.solver.release(a);
                Effect::Done
            }
            Effect::NoEffect => Effect::NoEffect,
        }
    }

    /// One step of the machine.
    pub fn step(&mut self, alloc: Global, command: Command) -> Result<Reply, OutOfMemory>
        requires ready { IsReady self.old }
        requires asks { AsksForSome command }
        ensures { IfOk result (IsStep self.old command self.new) }
    {
        match command {
            Command::Add { text } => self.add(alloc, text.as_slice()),
            Command::Ground { calls } => self.ground(alloc, &calls),
            Command::Assign { atom, truth } => self.assign_named(alloc, &atom, truth),
            Command::Release { atom } => self.release_named(alloc, &atom),
            Command::Solve {
                count,
                limit,
                assume,
            } => self.solve(alloc, count, limit, &assume),
        }
    }

    /// Gives a truth to the atom with this term.
    fn assign_named(
        &mut self,
        alloc: Global,
        atom: &Value,
        truth: Truth,
    ) -> Result<Reply, OutOfMemory>
        requires { IsReady self.old }
        ensures { IfOk result (IsStep self.old (Assign atom.now truth) self.new) }
    {
        let Some(a) = self.find(alloc, atom)? else {
            return Ok(Reply::NoEffect);
        };
        match self.assign(a, truth) {
            Effect::Done => Ok(Reply::Assigned),
            Effect::NoEffect => Ok(Reply::NoEffect),
        }
    }

    /// Releases the atom with this term.
    fn release_named(&mut self, alloc: Global, atom: &Value) -> Result<Reply, OutOfMemory>
        requires { IsReady self.old }
        ensures { IfOk result (IsStep self.old (Release atom.now) self.new) }
    {
        let Some(a) = self.find(alloc, atom)? else {
            return Ok(Reply::NoEffect);
        };
        match self.release(a) {
            Effect::Done => Ok(Reply::Released),
            Effect::NoEffect => Ok(Reply::NoEffect),
        }
    }

    /// Appends the text of a reply whose names are in the table. Where there is no memory for it nothing was appended.
    pub fn print(&self, reply: &Reply, into: &mut Vec<u8>) -> Result<(), OutOfMemory>
        requires { IsNamed (length self.now.terms) reply.now }
        ensures ok { OnOk result (into.new.items ≡ into.old.items ++ reply_text (said_by self.now.terms reply.now)) }
        ensures err { OnErr result (into.new.items ≡ into.old.items) }
    {
        print(&self.terms, reply, into)
    }
}
