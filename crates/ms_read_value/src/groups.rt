// Open brackets and the values in them.
ghost use Rattle.std.specs.Prelude.{◌≡◌, [], ◌∷◌, IfOk, OnOk, MatchOption};
ghost use Rattle.ms_grammar.specs.Values.{value_part, value_named, value_grouped, constant};
ghost use Rattle.ms_read_value.specs.Machine.{opened, with_part, closed, closed_by_comma};

use ms_base::limits::MOST_HEIGHT;
use ms_base::memory::OutOfMemory;
use ms_base::seq::Bytes;
use ms_grammar::part::{ValuePart, ValueRow};
use ms_grammar::value::{Value, Values};
use std::alloc::Global;
use std::marker::Model;

/// An open bracket with the values in it so far. A parenthesis has no name.
#[derive(Drop)]
pub(crate) struct Group {
    pub name: Option<Bytes>,
    pub row: ValueRow,
}

impl Group {
    /// A bracket with no values.
    pub fn new(alloc: Global, name: Option<Bytes>) -> Self
        ensures { result ≡ opened name }
    {
        Group {
            name,
            row: ValueRow {
                values: Values::new(alloc),
                height: 0,
            },
        }
    }

    /// The bracket with one more value.
    pub fn with_part(self, part: ValuePart) -> Result<Group, OutOfMemory>
        ensures { IfOk result (λ group. group ≡ with_part self part) }
    {
        let Group { name, row } = self;
        let ValueRow { mut values, height } = row;
        values.push(part.value)?;
        Ok(Group {
            name,
            row: ValueRow {
                values,
                height: height.max(part.height),
            },
        })
    }

    /// What the bracket is when it is closed.
    pub fn close(self, alloc: Global) -> Option<ValuePart>
        ensures { result ≡ closed self }
    {
        let Group { name, row } = self;
        match name {
            Some(name) => value_named(name, row),
            None => value_grouped(alloc, row),
        }
    }

    /// What the bracket is when it is closed behind a comma: a tuple, and only a parenthesis.
    pub fn close_by_comma(self, alloc: Global) -> Option<ValuePart>
        ensures { result ≡ closed_by_comma self }
    {
        let Group { name, row } = self;
        match name {
            Some(_) => None,
            None => value_named(Bytes::new(alloc), row),
        }
    }
}

/// A name with its arguments, where it isn't higher than it may be.
fn value_named(name: Bytes, row: ValueRow) -> Option<ValuePart>
    ensures { result ≡ value_named name row }
{
    if row.height >= MOST_HEIGHT {
        return None;
    }
    Some(ValuePart {
        value: Value::Function(name, row.values),
        height: row.height + 1,
    })
}

/// The values of a parenthesis without a last comma: one value is itself.
fn value_grouped(alloc: Global, mut row: ValueRow) -> Option<ValuePart>
    ensures { result ≡ value_grouped row.values row }
{
    if row.values.len() != 1 {
        return value_named(Bytes::new(alloc), row);
    }
    let value = row.values.pop()?;
    Some(ValuePart {
        value,
        height: row.height,
    })
}

/// A name without arguments.
pub(crate) fn constant(alloc: Global, name: Bytes) -> ValuePart
    ensures { value_part (constant name) ≡ Some result }
{
    ValuePart {
        value: Value::Function(name, Values::new(alloc)),
        height: 1,
    }
}

/// The brackets that are open. Contracts see them as a list, the innermost first.
#[derive(Drop)]
pub(crate) struct Groups {
    groups: Vec<Group>,
}

impl Model for Groups {
    ghost use Rattle.std.specs.Prelude.{List, reverse};
    ghost use Rattle.std.specs.Coded.{codes};
    ghost use Rattle.ms_grammar.specs.contracts.value.Value as value;
    ghost use Rattle.ms_read_value.specs.declared.groups.Group.{Group};

    ghost Value = { List Group };

    ghost coded = { Prim.hlevel (codes, value.the_row.coded) };

    ghost view = { λ s. reverse s.groups.items };
}

impl Groups {
    /// No bracket is open.
    pub fn new(alloc: Global) -> Self
        ensures { result ≡ [] }
    {
        Groups {
            groups: Vec::new(alloc),
        }
    }

    /// One more bracket inside the others.
    pub fn with(self, group: Group) -> Result<Groups, OutOfMemory>
        ensures { IfOk result (λ groups. groups ≡ group ∷ self) }
    {
        let Groups { mut groups } = self;
        groups.push(group)?;
        Ok(Groups { groups })
    }

    /// Takes the innermost bracket.
    pub fn pop(&mut self) -> Option<Group>
        ensures { MatchOption result ((self.old ≡ []) × (self.new ≡ [])) (λ group. self.old ≡ group ∷ self.new) }
    {
        self.groups.pop()
    }
}
