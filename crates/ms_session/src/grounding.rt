// Grounding calls and joining their module.
ghost use Rattle.std.specs.Prelude.{◌≡◌, ◌<◌, ◌++◌, [], All, IfOk, OnOk, length, map};
ghost use Rattle.ms_call.specs.declared.command.Command.TheVariants.{Ground};
ghost use Rattle.ms_session.specs.Joining.{AreAtomsOf, DeclaresAs, IsRefusalOf, IsGrownBase, IsGrownOver, JoinsAs, StaysWhereRefused};
ghost use Rattle.ms_session.specs.Opened.{IsReady, IsStep, names_of};

use crate::open_session::Open;
use ms_atombase::Mark;
use ms_base::memory::OutOfMemory;
use ms_call::command::Calls;
use ms_ctxground::{GroundFault, ground};
use ms_join::ground_module::GroundModule;
use ms_join::join_fault::JoinFault;
use ms_machine::reply::{Refusal, Reply};
use std::alloc::Global;

impl Open {
    /// Grounds the calls over the base, and joins their module or refuses it. Where it is refused nothing changed.
    pub fn ground(&mut self, alloc: Global, calls: &Calls) -> Result<Reply, OutOfMemory>
        requires { IsReady self.old }
        ensures { IfOk result (IsStep self.old (Ground calls.now) self.new) }
    {
        let mark = self.terms.mark();
        match self.ground_and_join(alloc, calls)? {
            Reply::Refused(refusal) => {
                self.terms.back_to(mark);
                Ok(Reply::Refused(refusal))
            }
            reply => Ok(reply),
        }
    }

    /// The same, but where it is refused the table may have new terms.
    fn ground_and_join(&mut self, alloc: Global, calls: &Calls) -> Result<Reply, OutOfMemory>
        requires { IsReady self.old }
        ensures step { IfOk result (IsStep self.old (Ground calls.now) self.new) }
        ensures back { IfOk result (StaysWhereRefused self.old self.new) }
        ensures texts { self.new.parts ≡ self.old.parts }
    {
        let mark = self.base.mark();
        let ground_module = match ground(
            alloc,
            &mut self.base,
            &mut self.terms,
            &self.parts,
            calls,
        ) {
            Ok(ground_module) => ground_module,
            Err(GroundFault::Later) => return Ok(Reply::Refused(Refusal::Later)),
            Err(GroundFault::TooLarge) => return Ok(Reply::Refused(Refusal::TooLarge)),
            Err(GroundFault::OutOfMemory) => return Err(OutOfMemory),
        };
        self.join_module(alloc, mark, &ground_module)
    }

    /// Joins a module whose new atoms are in the base since the mark, or refuses it. Where it is refused the base goes
    /// back to the mark. The things that the join gets are declared by lines of the log.
    fn join_module(
        &mut self,
        alloc: Global,
        mark: Mark,
        ground_module: &GroundModule,
    ) -> Result<Reply, OutOfMemory>
        requires base { IsGrownBase self.old.terms mark self.old.base self.old.join ground_module.now }
        requires solver { IsGrownOver self.old.join self.old.solver self.old.base ground_module.now }
        requires silent { self.old.notes ≡ [] }
        ensures joins { IfOk result (JoinsAs self.old.terms mark ground_module.now
            self.old.base self.old.join self.new.base self.new.join) }
        ensures declares { IfOk result (DeclaresAs self.old.terms self.old.base self.new.join
            self.old.solver self.new.solver self.new.notes) }
        ensures rest { self.new ≡ record self.old { base = self.new.base; join = self.new.join; solver = self.new.solver; notes = self.new.notes } }
    {
        match self.join.check(&self.terms, &self.base, ground_module) {
            Ok(()) => {
                let atoms = ground_module.names.len() as u64;
                let rules = ground_module.rules.len() as u64;
                self.join.join(ground_module)?;
                // The join says that it is one still.
                let _ = self.join.rules();
                self.notes = self.solver.extend(&self.terms, ground_module)?;
                Ok(Reply::Grounded { atoms, rules })
            }
            Err(fault) => {
                let refusal = self.refusal_of(alloc, fault)?;
                self.base.back_to(mark);
                Ok(Reply::Refused(refusal))
            }
        }
    }

    /// How the machine refuses a module for this reason.
    fn refusal_of(&self, alloc: Global, fault: JoinFault) -> Result<Refusal, OutOfMemory>
        requires named { All (λ t. t < length self.now.terms) self.now.base }
        requires within { AreAtomsOf (length self.now.base) fault }
        ensures { IfOk result (IsRefusalOf (names_of self.now) fault) }
    {
        match fault {
            JoinFault::TooMany => Ok(Refusal::TooMany),
            JoinFault::Redefined { atom } => {
                let atom = self.atom_text(alloc, atom)?;
                Ok(Refusal::Redefined { atom })
            }
            JoinFault::CrossLoop { new_head, old } => {
                let new_head = self.atom_text(alloc, new_head)?;
                let old = self.atom_text(alloc, old)?;
                Ok(Refusal::CrossLoop { new_head, old })
            }
            JoinFault::RecursiveAggregate { atom } => {
                let atom = self.atom_text(alloc, atom)?;
                Ok(Refusal::RecursiveAggregate { atom })
            }
            JoinFault::OutOfMemory => Err(OutOfMemory),
        }
    }
}
