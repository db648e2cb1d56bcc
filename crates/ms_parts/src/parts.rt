// The parts of texts and their core rules.
ghost use Rattle.std.specs.Prelude.{◌≡◌, IfOk, OnOk, OnErr};
ghost use Rattle.std.specs.Option.{option_copied};
ghost use Rattle.ms_core.specs.Texts.{no_texts, with_given, constant, shows, core_of_call};
ghost use Rattle.ms_texts.specs.Additions.{Adds};

use crate::call::core_of_part;
use ms_base::memory::OutOfMemory;
use ms_core::rule::CoreRules;
use ms_grammar::statement::Statements;
use ms_grammar::value::Value;
use ms_texts::{TextFault, Texts};
use std::alloc::Global;
use std::marker::Model;

/// What the accepted texts say: each statement with its part, in their order, and the values that were given
/// to constants from outside.
#[derive(Drop)]
pub struct Parts {
    texts: Texts,
}

impl Model for Parts {
    ghost use Rattle.std.specs.Coded.{codes};
    ghost use Rattle.ms_grammar.specs.contracts.term.TextTerm as term;
    ghost use Rattle.ms_grammar.specs.contracts.value.Value as value;
    ghost use Rattle.ms_core.specs.Texts.{Texts};

    ghost Value = { Texts };

    ghost coded = { Prim.hlevel (codes, term.the_row.coded, value.the_row.coded) };

    ghost view = { λ p. p.texts };
}

impl Parts {
    /// Without any text.
    pub fn new(alloc: Global) -> Parts
        ensures { result ≡ no_texts }
    {
        Parts {
            texts: Texts::new(alloc),
        }
    }

    /// Adds the statements of a text, and gives their number. Where the text defines a constant a second time,
    /// or there is no memory for it, nothing changes. The time is linear in the text.
    pub fn add(&mut self, list: Statements) -> Result<u64, TextFault>
        ensures { Adds self.old self.new list result }
    {
        self.texts.add(list)
    }

    /// Gives a value to a constant, which wins over what texts define. Where there is no memory for it nothing
    /// changes.
    pub fn set_const(&mut self, name: &[u8], value: Value) -> Result<(), OutOfMemory>
        ensures ok { OnOk result (self.new ≡ with_given self.old name.now value) }
        ensures err { OnErr result (self.new ≡ self.old) }
    {
        self.texts.set_const(name, value)
    }

    /// The value of a constant, or none exactly where no such constant is known.
    pub fn constant(&self, name: &[u8]) -> Option<&Value>
        ensures { option_copied result ≡ constant self.now name.now }
    {
        self.texts.constant(name)
    }

    /// Whether atoms of this name and number of arguments are shown: all are where there is no `#show`.
    pub fn shows(&self, name: &[u8], arity: usize) -> bool
        ensures { result ≡ shows self.now name.now arity }
    {
        self.texts.shows(name, arity)
    }

    /// The core rules of a part with these arguments: those of its statements, in the order of the texts. A part
    /// without statements has none. The time is that of the part alone, whatever else the texts say. More ranges
    /// in a rule than a `u32` counts are as much as want of memory.
    pub fn core(&self, alloc: Global, name: &[u8], args: &[Value]) -> Result<CoreRules, OutOfMemory>
        ensures { IfOk result (λ rules. rules ≡ core_of_call self.now name.now args.now) }
    {
        core_of_part(alloc, &self.texts, name, args)
    }
}
