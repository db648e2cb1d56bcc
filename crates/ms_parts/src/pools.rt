// Pools in terms are copied.
ghost use Rattle.std.specs.Prelude.{◌≡◌, ℕ, [], ◌∷◌, map, IfOk};
ghost use Rattle.std.specs.List.{flat_map};
ghost use Rattle.ms_core.specs.Pools.{choices, pairs_with, with_arguments, copies};

use crate::duplicate::duplicate_bytes;
use crate::rows::{extended, pairs, single};
use ms_base::memory::OutOfMemory;
use ms_base::seq::{Bytes, Seq};
use ms_grammar::term::{TextTerm, TextTerms};
use ms_tree::Op;
use sqlite_items::{Boxed, Items};
use std::alloc::Global;

/// The terms without pools that a term stands for.
#[cycle(copies)]
pub(crate) fn copies(alloc: Global, term: &TextTerm) -> Result<Seq<TextTerm>, OutOfMemory>
    ensures { IfOk result (λ made. made ≡ copies term.now) }
{
    match term {
        TextTerm::Number(n) => single(alloc, TextTerm::Number(*n)),
        TextTerm::Text(bytes) => single(alloc, TextTerm::Text(duplicate_bytes(alloc, bytes)?)),
        TextTerm::Function(name, lists) => {
            functions(alloc, name, copies_of_lists(alloc, lists.as_slice())?)
        }
        TextTerm::Pool(terms) => copies_of_alternatives(alloc, terms.as_slice()),
        TextTerm::Interval(low, high) => intervals(
            alloc,
            copies(alloc, low.get())?,
            copies(alloc, high.get())?,
        ),
        TextTerm::Neg(of) => negations(alloc, copies(alloc, of.get())?),
        TextTerm::Abs(of) => absolutes(alloc, copies(alloc, of.get())?),
        TextTerm::Binary(op, left, right) => operations(
            alloc,
            *op,
            copies(alloc, left.get())?,
            copies(alloc, right.get())?,
        ),
    }
}

/// The copies of all alternatives, one alternative after the other.
#[cycle(copies)]
fn copies_of_alternatives(alloc: Global, terms: &[TextTerm]) -> Result<Seq<TextTerm>, OutOfMemory>
    ensures { IfOk result (λ made. made ≡ flat_map (λ copies. copies) (map copies terms.now)) }
{
    let mut made = Vec::new(alloc);
    for term in terms {
        let mut more = copies(alloc, term)?.into_vec();
        made.append(&mut more)?;
    }
    Ok(Seq::from_vec(made))
}

/// The lists of arguments, one alternative after the other.
#[cycle(copies)]
fn copies_of_lists(alloc: Global, lists: &[TextTerms]) -> Result<Seq<Seq<TextTerm>>, OutOfMemory>
    ensures { IfOk result (λ made. made ≡ flat_map choices (map (map copies) lists.now)) }
{
    let mut made = Vec::new(alloc);
    for list in lists {
        let mut more = copies_of_terms(alloc, list.as_slice())?.into_vec();
        made.append(&mut more)?;
    }
    Ok(Seq::from_vec(made))
}

/// The lists that have a copy of each term, at its place.
#[cycle(copies)]
pub(crate) fn copies_of_terms(
    alloc: Global,
    terms: &[TextTerm],
) -> Result<Seq<Seq<TextTerm>>, OutOfMemory>
    ensures { IfOk result (λ made. made ≡ choices (map copies terms.now)) }
{
    let mut rows = single(alloc, Seq::new(alloc))?;
    for term in terms {
        rows = extended(alloc, rows, copies(alloc, term)?)?;
    }
    Ok(rows)
}

/// A term of the name for each list of arguments.
fn functions(
    alloc: Global,
    name: &Bytes,
    rows: Seq<Seq<TextTerm>>,
) -> Result<Seq<TextTerm>, OutOfMemory>
    ensures { IfOk result (λ made. made ≡ map (with_arguments name.now) rows) }
{
    let mut made = Seq::new(alloc);
    for row in rows.into_vec() {
        let mut lists = Items::new(alloc);
        lists.push(Items::from_vec(row.into_vec()))?;
        made.push(TextTerm::Function(duplicate_bytes(alloc, name)?, lists))?;
    }
    Ok(made)
}

fn intervals(
    alloc: Global,
    lows: Seq<TextTerm>,
    highs: Seq<TextTerm>,
) -> Result<Seq<TextTerm>, OutOfMemory>
    ensures { IfOk result (λ made. made ≡ pairs_with TextTerm.Interval lows highs) }
{
    let mut made = Seq::new(alloc);
    for (low, high) in pairs(alloc, lows, highs)?.into_vec() {
        let low = Boxed::new(alloc, low)?;
        made.push(TextTerm::Interval(low, Boxed::new(alloc, high)?))?;
    }
    Ok(made)
}

fn negations(alloc: Global, terms: Seq<TextTerm>) -> Result<Seq<TextTerm>, OutOfMemory>
    ensures { IfOk result (λ made. made ≡ map TextTerm.Neg terms) }
{
    let mut made = Seq::new(alloc);
    for term in terms.into_vec() {
        made.push(TextTerm::Neg(Boxed::new(alloc, term)?))?;
    }
    Ok(made)
}

fn absolutes(alloc: Global, terms: Seq<TextTerm>) -> Result<Seq<TextTerm>, OutOfMemory>
    ensures { IfOk result (λ made. made ≡ map TextTerm.Abs terms) }
{
    let mut made = Seq::new(alloc);
    for term in terms.into_vec() {
        made.push(TextTerm::Abs(Boxed::new(alloc, term)?))?;
    }
    Ok(made)
}

fn operations(
    alloc: Global,
    op: Op,
    lefts: Seq<TextTerm>,
    rights: Seq<TextTerm>,
) -> Result<Seq<TextTerm>, OutOfMemory>
    ensures { IfOk result (λ made. made ≡ pairs_with (TextTerm.Binary op) lefts rights) }
{
    let mut made = Seq::new(alloc);
    for (left, right) in pairs(alloc, lefts, rights)?.into_vec() {
        let left = Boxed::new(alloc, left)?;
        made.push(TextTerm::Binary(op, left, Boxed::new(alloc, right)?))?;
    }
    Ok(made)
}
