// Brackets that are open, with what stands in them.
ghost use Rattle.std.specs.Prelude.{◌≡◌, IfOk};
ghost use Rattle.ms_read_term.specs.Brackets.{new_frame, frame_with, outside_of_bar, parenthesis_with, ended_with, ended_bare, bracket_part};

use crate::level::Level;
use crate::make::{grouped, named, pooled, tuple_of};
use crate::row::{row_or_none, with_alternative, with_list, with_term};
use ms_base::memory::OutOfMemory;
use ms_base::seq::Bytes;
use ms_grammar::part::{Part, Row, Rows};
use std::alloc::Global;

/// A bracket, with the lists or alternatives that a `;` ended.
#[derive(Drop)]
pub(crate) enum Bracket {
    Arguments { name: Bytes, lists: Option<Rows> },
    Parenthesis { alternatives: Option<Row> },
    Bar,
}

/// A bracket, with what stands before it and the terms that a `,` ended since the bracket or the last `;`.
#[derive(Drop)]
pub(crate) struct Frame {
    pub outside: Level,
    pub bracket: Bracket,
    pub row: Option<Row>,
}

impl Frame {
    /// A bracket in which nothing stands behind it or its last `;`.
    pub fn new(outside: Level, bracket: Bracket) -> Self
        ensures { result ≡ new_frame outside bracket }
    {
        Frame {
            outside,
            bracket,
            row: None,
        }
    }

    /// The frame with a term that a `,` ended, where the bracket has lists.
    pub fn with_term(self, alloc: Global, term: Part) -> Result<Option<Frame>, OutOfMemory>
        ensures { IfOk result (λ made. made ≡ frame_with self term) }
    {
        if matches!(self.bracket, Bracket::Bar) {
            drop(self);
            return Ok(None);
        }
        let row = with_term(alloc, self.row, term)?;
        Ok(Some(Frame {
            outside: self.outside,
            bracket: self.bracket,
            row: Some(row),
        }))
    }

    /// What stands before a bar, if the bracket is one.
    pub fn into_outside_of_bar(self) -> Option<Level>
        ensures { result ≡ outside_of_bar self }
    {
        match self.bracket {
            Bracket::Bar => Some(self.outside),
            _ => None,
        }
    }
}

impl Bracket {
    /// The bracket with the list that ends with this term.
    pub fn ended_with(
        self,
        alloc: Global,
        row: Option<Row>,
        last: Part,
    ) -> Result<Option<Bracket>, OutOfMemory>
        ensures { IfOk result (λ made. made ≡ ended_with self row last) }
    {
        match self {
            Bracket::Arguments { name, lists } => {
                let row = with_term(alloc, row, last)?;
                let lists = with_list(alloc, lists, row)?;
                Ok(Some(Bracket::Arguments {
                    name,
                    lists: Some(lists),
                }))
            }
            Bracket::Parenthesis { alternatives } => {
                let row = with_term(alloc, row, last)?;
                let tuple = grouped(alloc, row)?;
                parenthesis_with(alloc, alternatives, tuple)
            }
            Bracket::Bar => Ok(None),
        }
    }

    /// The bracket with the list that ends behind the bracket itself, a `;` or a `,`.
    pub fn ended_bare(self, alloc: Global, row: Option<Row>) -> Result<Option<Bracket>, OutOfMemory>
        ensures { IfOk result (λ made. made ≡ ended_bare self row) }
    {
        match self {
            Bracket::Arguments { name, lists } => {
                if row.is_some() {
                    return Ok(None);
                }
                let lists = with_list(alloc, lists, row_or_none(alloc, row, 1))?;
                Ok(Some(Bracket::Arguments {
                    name,
                    lists: Some(lists),
                }))
            }
            Bracket::Parenthesis { alternatives } => {
                let tuple = tuple_of(alloc, row_or_none(alloc, row, 1))?;
                parenthesis_with(alloc, alternatives, tuple)
            }
            Bracket::Bar => Ok(None),
        }
    }

    /// What the bracket is once it is closed behind a list.
    pub fn into_part(self) -> Option<Part>
        ensures { result ≡ bracket_part self }
    {
        match self {
            Bracket::Arguments { name, lists } => named(name, lists?),
            Bracket::Parenthesis { alternatives } => pooled(alternatives?),
            Bracket::Bar => None,
        }
    }
}

// The parenthesis with one more alternative.
fn parenthesis_with(
    alloc: Global,
    alternatives: Option<Row>,
    tuple: Option<Part>,
) -> Result<Option<Bracket>, OutOfMemory>
    ensures { IfOk result (λ made. made ≡ parenthesis_with alternatives tuple) }
{
    let Some(tuple) = tuple else {
        return Ok(None);
    };
    let alternatives = with_alternative(alloc, alternatives, tuple)?;
    Ok(Some(Bracket::Parenthesis {
        alternatives: Some(alternatives),
    }))
}
