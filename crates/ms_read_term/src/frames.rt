// The brackets that are open.
ghost use Rattle.std.specs.Prelude.{◌≡◌, [], ◌∷◌, MatchOption, OnOk};

use crate::bracket::Frame;
use ms_base::memory::OutOfMemory;
use std::alloc::Global;
use std::marker::Model;

/// The brackets that are open. Contracts see them from the innermost one on.
#[derive(Drop)]
pub(crate) struct Frames {
    items: Vec<Frame>,
}

impl Model for Frames {
    ghost use Rattle.std.specs.Prelude.{List, reverse};
    ghost use Rattle.std.specs.Coded.{codes};
    ghost use Rattle.ms_grammar.specs.contracts.term.TextTerm as text_term;
    ghost use Rattle.ms_read_term.specs.declared.bracket.Frame.{Frame};

    ghost Value = { List Frame };

    ghost coded = { Prim.hlevel (codes, text_term.the_row.coded) };

    ghost view = { λ f. reverse f.items.items };
}

impl Frames {
    pub fn new(alloc: Global) -> Self
        ensures { result ≡ [] }
    {
        Frames {
            items: Vec::new(alloc),
        }
    }

    pub fn push(&mut self, frame: Frame) -> Result<(), OutOfMemory>
        ensures { OnOk result (self.new ≡ frame ∷ self.old) }
    {
        self.items.push(frame)?;
        Ok(())
    }

    pub fn pop(&mut self) -> Option<Frame>
        ensures { MatchOption result ((self.old ≡ []) × (self.new ≡ [])) (λ frame. self.old ≡ frame ∷ self.new) }
    {
        self.items.pop()
    }
}
