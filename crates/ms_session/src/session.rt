// Sessions: one step of the machine for each command, until there is no memory.
ghost use Rattle.std.specs.Prelude.{◌≡◌, ◌≤◌, ℕ, [], false, true, ◌++◌, IfOk, OnOk, OnErr, is_err, length, take};
ghost use Rattle.std.specs.Option.{option_copied};
ghost use Rattle.ms_core.specs.Texts.{constant};
ghost use Rattle.ms_call.specs.declared.command.Command.TheVariants.{Add, Ground, Solve};
ghost use Rattle.ms_solving.specs.Listing.{tree_of_value};
ghost use Rattle.ms_machine.specs.Machine.{start};
ghost use Rattle.ms_machine.specs.Replies.{reply_text, said_by};
ghost use Rattle.ms_session.specs.Kept.{Assigns, IsDone, IsFound, IsGiven, IsNamed, IsSealed, Releases, state_of};
ghost use Rattle.ms_call.specs.Commands.{AsksForSome};

use crate::open_session::Open;
use ms_base::atom_id::AtomId;
use ms_base::memory::OutOfMemory;
use ms_base::truth::{Effect, Truth};
use ms_call::command::{Assumptions, Calls, Command};
use ms_grammar::value::Value;
use ms_lits::Notes;
use ms_machine::reply::Reply;
use std::alloc::Global;
use std::marker::Model;

/// A solver that lives on while its program grows. A call that answers want of memory seals it, and from then on each
/// call that may fail answers want of memory and changes nothing.
///
/// Contracts see what it keeps as a record, and the state of the machine as `state_of`.
#[derive(Drop)]
pub struct Session {
    open: Open,
    sealed: bool,
}

impl Model for Session {
    ghost use Rattle.std.specs.Prelude.{◌≡◌, false};
    ghost use Rattle.std.specs.Coded.{codes};
    ghost use Rattle.ms_term.specs.TreeCode.{tree_code};
    ghost use Rattle.ms_grammar.specs.contracts.term.TextTerm as term;
    ghost use Rattle.ms_grammar.specs.contracts.value.Value as value;
    ghost use Rattle.ms_solver.specs.States.{kept_of};
    ghost use Rattle.ms_session.specs.Kept.{Kept};
    ghost use Rattle.ms_session.specs.Opened.{IsWhole};

    ghost Value = { Kept };

    ghost coded = { Prim.hlevel (codes, tree_code, term.the_row.coded, value.the_row.coded) };

    ghost view = { λ s. record { sealed = s.sealed; table = s.open.terms; texts = s.open.parts; base = s.open.base; join = s.open.join; things = s.open.solver.knows.numbering.things; kept = kept_of s.open.solver.knows; notes = s.open.notes } };

    ghost invariant = { λ s. s.sealed ≡ false → IsWhole s.open };
}

impl Session {
    /// A session before its first command.
    pub fn new(alloc: Global) -> Session
        ensures open { result.sealed ≡ false }
        ensures start { state_of result ≡ start }
    {
        Session {
            open: Open::new(alloc),
            sealed: false,
        }
    }

    /// Whether a call has answered want of memory.
    pub fn sealed(&self) -> bool
        ensures { result ≡ self.now.sealed }
    {
        self.sealed
    }

    /// The lines of the log that the last command gave. A look-up leaves them.
    pub fn notes(&self) -> &Notes
        ensures { result.now ≡ self.now.notes }
    {
        &self.open.notes
    }

    /// The value of a constant, or none exactly where no such constant is known.
    pub fn constant(&self, name: &[u8]) -> Option<&Value>
        ensures { option_copied result ≡ constant self.now.texts name.now }
    {
        self.open.parts.constant(name)
    }

    /// Gives a value to a constant, which wins over what texts define.
    pub fn set_const(&mut self, name: &[u8], value: Value) -> Result<(), OutOfMemory>
        ensures ok { OnOk result (IsGiven self.old name.now value self.new) }
        ensures err { OnErr result (IsSealed self.old self.new) }
    {
        if self.sealed {
            return Err(OutOfMemory);
        }
        self.open.begin();
        let given = self.open.parts.set_const(name, value);
        seal_on_failure(&mut self.sealed, given)
    }

    /// The number of an atom, or none exactly where the base has no such atom. Nothing is kept of the look-up.
    pub fn find(&mut self, alloc: Global, atom: &Value) -> Result<Option<AtomId>, OutOfMemory>
        ensures ok { IfOk result (IsFound self.old (tree_of_value atom.now) self.new) }
        ensures err { OnErr result (IsSealed self.old self.new) }
    {
        if self.sealed {
            return Err(OutOfMemory);
        }
        let found = self.open.find(alloc, atom);
        seal_on_failure(&mut self.sealed, found)
    }

    /// Gives a truth to an input, which has no effect exactly where the atom is no input. It takes no memory, and
    /// fails exactly where the session is sealed.
    pub fn assign(&mut self, a: AtomId, truth: Truth) -> Result<Effect, OutOfMemory>
        ensures ok { IfOk result (Assigns self.old a truth self.new) }
        ensures open { OnOk result (self.old.sealed ≡ false) }
        ensures err { OnErr result (self.old.sealed ≡ true) }
        ensures same { OnErr result (self.new ≡ self.old) }
    {
        if self.sealed {
            return Err(OutOfMemory);
        }
        self.open.begin();
        Ok(self.open.assign(a, truth))
    }

    /// Makes an input false for good, which has no effect exactly where the atom is no input. It takes no memory, and
    /// fails exactly where the session is sealed.
    pub fn release(&mut self, a: AtomId) -> Result<Effect, OutOfMemory>
        ensures ok { IfOk result (Releases self.old a self.new) }
        ensures open { OnOk result (self.old.sealed ≡ false) }
        ensures err { OnErr result (self.old.sealed ≡ true) }
        ensures same { OnErr result (self.new ≡ self.old) }
    {
        if self.sealed {
            return Err(OutOfMemory);
        }
        self.open.begin();
        Ok(self.open.release(a))
    }

    /// Adds a text, or refuses it as the machine does.
    pub fn add(&mut self, alloc: Global, text: &[u8]) -> Result<Reply, OutOfMemory>
        ensures ok { IfOk result (IsDone self.old (Add text.now) self.new) }
        ensures err { OnErr result (IsSealed self.old self.new) }
    {
        if self.sealed {
            return Err(OutOfMemory);
        }
        self.open.begin();
        let reply = self.open.add(alloc, text);
        seal_on_failure(&mut self.sealed, reply)
    }

    /// Grounds calls of parts and joins their module, or refuses it as the machine does.
    pub fn ground(&mut self, alloc: Global, calls: &Calls) -> Result<Reply, OutOfMemory>
        ensures ok { IfOk result (IsDone self.old (Ground calls.now) self.new) }
        ensures err { OnErr result (IsSealed self.old self.new) }
    {
        if self.sealed {
            return Err(OutOfMemory);
        }
        self.open.begin();
        let reply = self.open.ground(alloc, calls);
        seal_on_failure(&mut self.sealed, reply)
    }

    /// Lists as many answer sets as are asked for, at least one, or all that there are, or fewer where as many nogoods
    /// were learned as the limit allows.
    pub fn solve(
        &mut self,
        alloc: Global,
        count: u64,
        limit: u64,
        assume: &Assumptions,
    ) -> Result<Reply, OutOfMemory>
        requires { 1 ≤ count }
        ensures ok { IfOk result (IsDone self.old (Solve count limit assume.now) self.new) }
        ensures err { OnErr result (IsSealed self.old self.new) }
    {
        if self.sealed {
            return Err(OutOfMemory);
        }
        self.open.begin();
        let reply = self.open.solve(alloc, count, limit, assume);
        seal_on_failure(&mut self.sealed, reply)
    }

    /// One step of the machine. A solve asks for at least one answer set. The reply is never `Refused(Command)` or
    /// `Refused(Unfinished)`.
    pub fn step(&mut self, alloc: Global, command: Command) -> Result<Reply, OutOfMemory>
        requires { AsksForSome command }
        ensures ok { IfOk result (IsDone self.old command self.new) }
        ensures err { OnErr result (IsSealed self.old self.new) }
    {
        if self.sealed {
            return Err(OutOfMemory);
        }
        self.open.begin();
        let reply = self.open.step(alloc, command);
        seal_on_failure(&mut self.sealed, reply)
    }

    /// Appends the text of a reply that this session gave, or of another one without atoms. Where there is no memory
    /// for it a front of it was appended, or nothing. A reply that this session gave may be printed at any later time
    /// until the session is sealed, since each call that is done keeps what names meant before.
    pub fn print(&mut self, reply: &Reply, into: &mut Vec<u8>) -> Result<(), OutOfMemory>
        requires { IsNamed (length self.old.table) reply.now }
        ensures ok { OnOk result (into.new.items ≡ into.old.items ++ reply_text (said_by self.old.table reply.now)) }
        ensures open { OnOk result ((self.old.sealed ≡ false) × (self.new ≡ self.old)) }
        ensures front { OnErr result ((k : ℕ) × (into.new.items
            ≡ into.old.items ++ take k (reply_text (said_by self.old.table reply.now)))) }
        ensures err { OnErr result (IsSealed self.old self.new) }
    {
        if self.sealed {
            return Err(OutOfMemory);
        }
        let printed = self.open.print(reply, into);
        seal_on_failure(&mut self.sealed, printed)
    }
}

/// Hands on the answer of a call of an open session, and seals the session exactly where it is want of memory.
fn seal_on_failure<T>(sealed: &mut bool, answer: Result<T, OutOfMemory>) -> Result<T, OutOfMemory>
    ensures sealed { sealed.new ≡ is_err answer }
    ensures same { result ≡ answer }
{
    *sealed = answer.is_err();
    answer
}
