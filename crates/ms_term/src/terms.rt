// Ground terms under names.
ghost use Rattle.std.specs.Prelude.{◌≡◌, ◌+◌, ◌<◌, ◌≤◌, [], length, take, option_copied, IsTrue, ◌↔◌, IfOk, OnErr, MatchOption};
ghost use Rattle.ms_tree.specs.Tree.{number, text, function};
ghost use Rattle.ms_tree.specs.Size.{tree_size, sizes};
ghost use Rattle.ms_term.specs.Shapes.{IsShapeOf};
ghost use Rattle.ms_term.specs.Terms.{term_at, terms_at, held, AllBelow, AllDifferent, AreSmall, AreWhole, Names, HasNo, IsNameOf, IsFirstLarge, number_in, text_in, name_in, arguments_in};

use crate::node::{Arguments, Node};
use crate::shape::Shape;
use crate::table::Table;
use crate::term_id::TermId;
use crate::wanted::Wanted;
use crate::words::Words;
use ms_base::memory::OutOfMemory;
use std::alloc::Global;
use std::marker::Model;

/// How many terms a table had at some moment.
#[derive(Clone, Copy, Debug, PartialEq, Eq)]
pub struct TermMark {
    len: usize,
}

impl Model for TermMark {
    ghost use Rattle.std.specs.Prelude.{ℕ};

    ghost Value = { ℕ };

    ghost view = { λ m. m.len };

    ghost inverse = { λ n. record { len = n } };
}

/// Ground terms, each under one name. Contracts see the list of the terms by their names.
#[derive(Drop)]
pub struct Terms {
    words: Words,
    table: Table,
    alloc: Global,
}

impl Model for Terms {
    ghost use Rattle.std.specs.Prelude.{List};
    ghost use Rattle.ms_tree.specs.Tree.{Tree};
    ghost use Rattle.ms_term.specs.TreeCode.{trees_code};
    ghost use Rattle.ms_term.specs.Tables.{IsKept, trees};

    ghost Value = { List Tree };

    ghost coded = { trees_code };

    ghost view = { λ t. trees t.words t.table.nodes.keys };

    ghost invariant = { λ t. IsKept t.words t.table.nodes.keys t.table.small };
}

impl Terms {
    /// A table of no terms, which takes no memory.
    pub fn new(alloc: Global) -> Self
        ensures { result ≡ [] }
    {
        Terms {
            words: Words::new(alloc),
            table: Table::new(alloc),
            alloc,
        }
    }

    /// The number of terms. Their names are the numbers below it.
    pub fn len(&self) -> usize
        ensures len { result ≡ length self.now }
        ensures different { AllDifferent self.now }
        ensures whole { AreWhole self.now }
    {
        self.table.nodes.len()
    }

    pub fn is_empty(&self) -> bool
        ensures { IsTrue result ↔ (length self.now ≡ 0) }
    {
        self.len() == 0
    }

    /// The name of an integer.
    pub fn number(&mut self, n: i64) -> Result<TermId, OutOfMemory>
        ensures ok { IfOk result (Names self.old self.new (number n)) }
        ensures err { OnErr result (self.new ≡ self.old) }
    {
        self.table.insert(Node::Number(n))
    }

    /// The name of a string.
    pub fn text(&mut self, bytes: &[u8]) -> Result<TermId, OutOfMemory>
        ensures ok { IfOk result (Names self.old self.new (text bytes.now)) }
        ensures err { OnErr result (self.new ≡ self.old) }
    {
        let word = self.words.intern(bytes)?;
        self.table.insert(Node::Text(word))
    }

    /// The name of a function, or of a constant where there are no arguments, or of a tuple where the
    /// name is empty. The arguments are names of the table.
    pub fn function(&mut self, name: &[u8], arguments: &[TermId]) -> Result<TermId, OutOfMemory>
        requires { AllBelow (length self.old) arguments.now }
        ensures ok { IfOk result (Names self.old self.new (function name.now (terms_at self.old arguments.now))) }
        ensures err { OnErr result (self.new ≡ self.old) }
    {
        let size = self.size_over(arguments);
        let arguments = Arguments::from_slice(self.alloc, arguments)?;
        let name = self.words.intern(name)?;
        self.table.insert(Node::Function {
            name,
            arguments,
            size,
        })
    }

    /// The name of an integer, or `None` exactly where the table hasn't it.
    pub fn find_number(&self, n: i64) -> Option<TermId>
        ensures { MatchOption result (HasNo self.now (number n)) (IsNameOf self.now (number n)) }
    {
        self.table.find(Wanted::Number(n))
    }

    /// The name of a string, or `None` exactly where the table hasn't it.
    pub fn find_text(&self, bytes: &[u8]) -> Option<TermId>
        ensures { MatchOption result (HasNo self.now (text bytes.now)) (IsNameOf self.now (text bytes.now)) }
    {
        let word = self.words.find(bytes)?;
        self.table.find(Wanted::Text(word))
    }

    /// The name of a function, or `None` exactly where the table hasn't it. The arguments are names of the table.
    pub fn find_function(&self, name: &[u8], arguments: &[TermId]) -> Option<TermId>
        requires { AllBelow (length self.now) arguments.now }
        ensures { MatchOption result
            (HasNo self.now (function name.now (terms_at self.now arguments.now)))
            (IsNameOf self.now (function name.now (terms_at self.now arguments.now))) }
    {
        let name = self.words.find(name)?;
        let size = self.size_over(arguments);
        self.table.find(Wanted::Function {
            name,
            arguments,
            size,
        })
    }

    /// The number of symbols of a term, or the greatest u64 where there are more.
    pub fn size(&self, t: TermId) -> u64
        requires { t < length self.now }
        ensures { result ≡ held (tree_size (term_at self.now t)) }
    {
        match self.shape(t) {
            Shape::Number(_) | Shape::Text(_) => 1,
            Shape::Function { size, .. } => size,
        }
    }

    /// The name of the first large term, which has more than 2,000 symbols, or `None` exactly where no
    /// term is large. It costs no walk.
    pub fn first_large(&self) -> Option<TermId>
        ensures { MatchOption result (AreSmall self.now) (IsFirstLarge self.now) }
    {
        if self.table.small < self.table.nodes.len() {
            Some(TermId(self.table.small))
        } else {
            None
        }
    }

    /// The integer, or `None` exactly where the term is none.
    pub fn number_of(&self, t: TermId) -> Option<i64>
        requires { t < length self.now }
        ensures { result ≡ number_in (term_at self.now t) }
    {
        match self.shape(t) {
            Shape::Number(n) => Some(n),
            _ => None,
        }
    }

    /// The bytes of a string, or `None` exactly where the term is none.
    pub fn text_of(&self, t: TermId) -> Option<&[u8]>
        requires { t < length self.now }
        ensures { option_copied result ≡ text_in (term_at self.now t) }
    {
        match self.shape(t) {
            Shape::Text(bytes) => Some(bytes),
            _ => None,
        }
    }

    /// The name of a function, empty where it is a tuple, or `None` exactly where the term is none.
    pub fn name_of(&self, t: TermId) -> Option<&[u8]>
        requires { t < length self.now }
        ensures { option_copied result ≡ name_in (term_at self.now t) }
    {
        match self.shape(t) {
            Shape::Function { name, .. } => Some(name),
            _ => None,
        }
    }

    /// The arguments of a function, and none where the term is an integer or a string. Each is a name
    /// below that of the function.
    pub fn args_of(&self, t: TermId) -> &[TermId]
        requires { t < length self.now }
        ensures arguments { terms_at self.now result.now ≡ arguments_in (term_at self.now t) }
        ensures below { AllBelow t result.now }
    {
        match self.shape(t) {
            Shape::Function { arguments, .. } => arguments,
            _ => &[],
        }
    }

    /// The present moment.
    pub fn mark(&self) -> TermMark
        ensures { result ≡ length self.now }
    {
        TermMark { len: self.len() }
    }

    /// Drops the terms that came after a moment of this table to which it hasn't gone back since. The
    /// names below stay, and name what they named.
    pub fn back_to(&mut self, mark: TermMark)
        requires { mark ≤ length self.old }
        ensures { self.new ≡ take mark self.old }
    {
        self.table.nodes.truncate(mark.len);
        self.table.small = self.table.small.min(mark.len);
    }

    /// The parts of a term.
    pub(crate) fn shape(&self, t: TermId) -> Shape<'_>
        requires { t < length self.now }
        ensures { IsShapeOf self.now t result }
    {
        match self.table.node(t) {
            Node::Number(n) => Shape::Number(*n),
            Node::Text(word) => Shape::Text(self.words.bytes(*word)),
            Node::Function {
                name,
                arguments,
                size,
            } => Shape::Function {
                name: self.words.bytes(*name),
                arguments: arguments.as_slice(),
                size: *size,
            },
        }
    }

    pub(crate) fn alloc(&self) -> Global {
        self.alloc
    }

    // The size of a function with these arguments.
    fn size_over(&self, arguments: &[TermId]) -> u64
        requires { AllBelow (length self.now) arguments.now }
        ensures { result ≡ held (1 + sizes (terms_at self.now arguments.now)) }
    {
        let mut size: u64 = 1;
        let mut rest = arguments;
        while let [first, after @ ..] = rest {
            size = size.saturating_add(self.size(*first));
            rest = after;
        }
        size
    }
}
