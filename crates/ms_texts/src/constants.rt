// The constants that texts define.
ghost use Rattle.std.specs.Prelude.{◌≡◌, [], ◌∷◌, ◌++◌, None, length, take, OnOk, OnErr};
ghost use Rattle.std.specs.Option.{option_copied};
ghost use Rattle.ms_core.specs.Texts.{value_in};
ghost use Rattle.ms_texts.specs.Additions.{Defines, DefinesEach, DefinesOne};

use crate::duplicate::duplicate_value;
use crate::fault::TextFault;
use indexmap::IndexMap;
use ms_base::memory::OutOfMemory;
use ms_grammar::statement::{Form, Statement};
use ms_grammar::value::Value;
use std::alloc::Global;
use std::marker::Model;

/// Constants with their values, each name once, in the order of the texts. One look-up finds a name.
#[derive(Drop)]
pub(crate) struct Constants {
    values: IndexMap<Vec<u8>, Value>,
}

impl Model for Constants {
    ghost use Rattle.std.specs.Coded.{codes};
    ghost use Rattle.ms_grammar.specs.contracts.value.Value as value;
    ghost use Rattle.ms_texts.specs.Additions.{NamedValues, named};

    ghost Value = { NamedValues };

    ghost coded = { Prim.hlevel (codes, value.the_row.coded) };

    ghost view = { λ c. named c.values.entries };
}

impl Constants {
    pub fn new(alloc: Global) -> Constants
        ensures { result ≡ [] }
    {
        Constants {
            values: IndexMap::new(alloc),
        }
    }

    pub fn len(&self) -> usize
        ensures { result ≡ length self.now }
    {
        self.values.len()
    }

    /// The value of a constant.
    pub fn get(&self, name: &[u8]) -> Option<&Value>
        ensures { option_copied result ≡ value_in self.now name.now }
    {
        self.values.get(name)
    }

    /// Keeps the first constants.
    pub fn truncate(&mut self, count: usize)
        ensures { self.new ≡ take count self.old }
    {
        self.values.truncate(count);
    }

    /// Adds the constants that a text defines, or none of them.
    pub fn define_all(&mut self, alloc: Global, list: &[Statement]) -> Result<(), TextFault>
        ensures { Defines self.old self.new list.now result }
    {
        let before = self.len();
        match self.define_each(alloc, list) {
            Ok(()) => Ok(()),
            Err(fault) => {
                self.truncate(before);
                Err(fault)
            }
        }
    }

    fn define_each(&mut self, alloc: Global, list: &[Statement]) -> Result<(), TextFault>
        ensures { DefinesEach self.old self.new list.now result }
    {
        for statement in list {
            self.define(alloc, statement)?;
        }
        Ok(())
    }

    /// Adds the constant that a statement defines.
    fn define(&mut self, alloc: Global, statement: &Statement) -> Result<(), TextFault>
        ensures { DefinesOne self.old self.new statement.now result }
    {
        if let Form::Const { name, value } = &statement.form {
            if self.get(name.as_slice()).is_some() {
                let line = statement.line;
                return Err(TextFault::ConstTwice { line });
            }
            self.add(alloc, name.as_slice(), value)?;
        }
        Ok(())
    }

    /// Adds a constant that isn't there.
    fn add(&mut self, alloc: Global, name: &[u8], value: &Value) -> Result<(), OutOfMemory>
        requires { value_in self.old name.now ≡ None }
        ensures ok { OnOk result (self.new ≡ self.old ++ (name.now, value.now) ∷ []) }
        ensures err { OnErr result (self.new ≡ self.old) }
    {
        let key = Vec::from_slice(alloc, name)?;
        let value = duplicate_value(alloc, value)?;
        self.values.insert(key, value)?;
        Ok(())
    }
}
