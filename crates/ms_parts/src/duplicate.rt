// Copies of terms and of what is made of them.
ghost use Rattle.std.specs.Prelude.{◌≡◌, IfOk};

use ms_base::memory::OutOfMemory;
use ms_base::seq::{Bytes, Seq};
use ms_grammar::statement::{
    AggElement, BodyLit, Head, SetElement, TextAgg, TextGuard, TextLit, TextSet,
};
use ms_grammar::term::{TermLists, TextTerm, TextTerms};
use sqlite_items::{Boxed, Items};
use std::alloc::Global;

/// A value of which a second one can be made.
pub(crate) trait Duplicate: Drop {
    fn duplicate(&self, alloc: Global) -> Result<Self, OutOfMemory>
        ensures { IfOk result (λ copy. copy ≡ self.now) };
}

impl<T: Duplicate> Duplicate for Seq<T> {
    fn duplicate(&self, alloc: Global) -> Result<Seq<T>, OutOfMemory> {
        duplicate_all(alloc, self.as_slice())
    }
}

fn duplicate_all<T: Duplicate>(alloc: Global, items: &[T]) -> Result<Seq<T>, OutOfMemory>
    ensures { IfOk result (λ copy. copy ≡ items.now) }
{
    let mut copy = Seq::new(alloc);
    for item in items {
        copy.push(item.duplicate(alloc)?)?;
    }
    Ok(copy)
}

pub(crate) fn duplicate_bytes(alloc: Global, bytes: &Bytes) -> Result<Bytes, OutOfMemory>
    ensures { IfOk result (λ copy. copy ≡ bytes.now) }
{
    Ok(Seq::copied(alloc, bytes.as_slice())?)
}

#[cycle(duplicates)]
fn duplicate_term(alloc: Global, term: &TextTerm) -> Result<TextTerm, OutOfMemory>
    ensures { IfOk result (λ copy. copy ≡ term.now) }
{
    match term {
        TextTerm::Number(n) => Ok(TextTerm::Number(*n)),
        TextTerm::Text(bytes) => Ok(TextTerm::Text(duplicate_bytes(alloc, bytes)?)),
        TextTerm::Function(name, lists) => Ok(TextTerm::Function(
            duplicate_bytes(alloc, name)?,
            duplicate_lists(alloc, lists.as_slice())?,
        )),
        TextTerm::Pool(terms) => Ok(TextTerm::Pool(duplicate_terms(alloc, terms.as_slice())?)),
        TextTerm::Interval(low, high) => Ok(TextTerm::Interval(
            duplicate_inner(alloc, low)?,
            duplicate_inner(alloc, high)?,
        )),
        TextTerm::Neg(of) => Ok(TextTerm::Neg(duplicate_inner(alloc, of)?)),
        TextTerm::Abs(of) => Ok(TextTerm::Abs(duplicate_inner(alloc, of)?)),
        TextTerm::Binary(op, left, right) => Ok(TextTerm::Binary(
            *op,
            duplicate_inner(alloc, left)?,
            duplicate_inner(alloc, right)?,
        )),
    }
}

#[cycle(duplicates)]
fn duplicate_inner(alloc: Global, term: &Boxed<TextTerm>) -> Result<Boxed<TextTerm>, OutOfMemory>
    ensures { IfOk result (λ copy. copy ≡ term.now) }
{
    Ok(Boxed::new(alloc, duplicate_term(alloc, term.get())?)?)
}

#[cycle(duplicates)]
fn duplicate_terms(alloc: Global, terms: &[TextTerm]) -> Result<TextTerms, OutOfMemory>
    ensures { IfOk result (λ copy. copy ≡ terms.now) }
{
    let mut copy = Items::new(alloc);
    for term in terms {
        copy.push(duplicate_term(alloc, term)?)?;
    }
    Ok(copy)
}

#[cycle(duplicates)]
fn duplicate_lists(alloc: Global, lists: &[TextTerms]) -> Result<TermLists, OutOfMemory>
    ensures { IfOk result (λ copy. copy ≡ lists.now) }
{
    let mut copy = Items::new(alloc);
    for list in lists {
        copy.push(duplicate_terms(alloc, list.as_slice())?)?;
    }
    Ok(copy)
}

impl Duplicate for TextTerm {
    fn duplicate(&self, alloc: Global) -> Result<TextTerm, OutOfMemory> {
        duplicate_term(alloc, self)
    }
}

impl Duplicate for TextLit {
    fn duplicate(&self, alloc: Global) -> Result<TextLit, OutOfMemory> {
        match self {
            TextLit::Positive(atom) => Ok(TextLit::Positive(atom.duplicate(alloc)?)),
            TextLit::Negated(atom) => Ok(TextLit::Negated(atom.duplicate(alloc)?)),
            TextLit::Test { left, cmp, right } => Ok(TextLit::Test {
                left: left.duplicate(alloc)?,
                cmp: *cmp,
                right: right.duplicate(alloc)?,
            }),
        }
    }
}

impl Duplicate for Option<TextGuard> {
    fn duplicate(&self, alloc: Global) -> Result<Option<TextGuard>, OutOfMemory> {
        match self {
            None => Ok(None),
            Some(guard) => Ok(Some(TextGuard {
                cmp: guard.cmp,
                bound: guard.bound.duplicate(alloc)?,
            })),
        }
    }
}

impl Duplicate for SetElement {
    fn duplicate(&self, alloc: Global) -> Result<SetElement, OutOfMemory> {
        Ok(SetElement {
            atom: self.atom.duplicate(alloc)?,
            conds: self.conds.duplicate(alloc)?,
        })
    }
}

impl Duplicate for TextSet {
    fn duplicate(&self, alloc: Global) -> Result<TextSet, OutOfMemory> {
        Ok(TextSet {
            left: self.left.duplicate(alloc)?,
            elements: self.elements.duplicate(alloc)?,
            right: self.right.duplicate(alloc)?,
        })
    }
}

impl Duplicate for AggElement {
    fn duplicate(&self, alloc: Global) -> Result<AggElement, OutOfMemory> {
        Ok(AggElement {
            tuple: duplicate_terms(alloc, self.tuple.as_slice())?,
            conds: self.conds.duplicate(alloc)?,
        })
    }
}

impl Duplicate for TextAgg {
    fn duplicate(&self, alloc: Global) -> Result<TextAgg, OutOfMemory> {
        Ok(TextAgg {
            function: self.function,
            left: self.left.duplicate(alloc)?,
            elements: self.elements.duplicate(alloc)?,
            right: self.right.duplicate(alloc)?,
        })
    }
}

impl Duplicate for BodyLit {
    fn duplicate(&self, alloc: Global) -> Result<BodyLit, OutOfMemory> {
        match self {
            BodyLit::Lit(literal) => Ok(BodyLit::Lit(literal.duplicate(alloc)?)),
            BodyLit::Set { negated, set } => Ok(BodyLit::Set {
                negated: *negated,
                set: set.duplicate(alloc)?,
            }),
            BodyLit::Agg { negated, agg } => Ok(BodyLit::Agg {
                negated: *negated,
                agg: agg.duplicate(alloc)?,
            }),
        }
    }
}

impl Duplicate for Head {
    fn duplicate(&self, alloc: Global) -> Result<Head, OutOfMemory> {
        match self {
            Head::Empty => Ok(Head::Empty),
            Head::Atom(atom) => Ok(Head::Atom(atom.duplicate(alloc)?)),
            Head::Set(set) => Ok(Head::Set(set.duplicate(alloc)?)),
        }
    }
}
