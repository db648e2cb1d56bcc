// Terms that are made of parts, where they aren't higher than a term may be.
ghost use Rattle.std.specs.Prelude.{◌≡◌, ◌+◌, ◌*◌, suc, nat_le, [], ◌∷◌, if◌then◌else◌, Some, None, IfOk, IfSome};
ghost use Rattle.ms_base.specs.Limits.{most_height};
ghost use Rattle.ms_grammar.specs.Terms.{counted, round, joined, leaf, named, tuple_of, grouped, pooled};
ghost use Rattle.ms_read_term.specs.Closing.{negated};

use crate::row::{only, only_list};
use ms_base::limits::{MOST_COUNTED, MOST_HEIGHT};
use ms_base::memory::OutOfMemory;
use ms_base::seq::{Bytes, Seq};
use ms_grammar::part::{Part, Row, Rows};
use ms_grammar::term::TextTerm;
use ms_tree::Op;
use sqlite_items::{Boxed, Items};
use std::alloc::Global;

/// The height of a term round others, where it isn't too high: the arguments of an atom may be as high as a term, and
/// the atom is by one higher.
pub(crate) fn above(height: u8) -> Option<u8>
    ensures { result ≡ if nat_le (suc height) (suc most_height) then Some (suc height) else None }
{
    if height <= MOST_HEIGHT {
        Some(height + 1)
    } else {
        None
    }
}

/// The choices of two terms side by side.
pub(crate) fn choices_beside(left: u32, right: u32) -> u32
    ensures { result ≡ counted (left * right) }
{
    left.saturating_mul(right).min(MOST_COUNTED)
}

/// The choices of one or the other.
pub(crate) fn choices_among(left: u32, right: u32) -> u32
    ensures { result ≡ counted (left + right) }
{
    left.saturating_add(right).min(MOST_COUNTED)
}

/// The part with a minus before it.
pub(crate) fn negative(alloc: Global, part: Part) -> Result<Option<Part>, OutOfMemory>
    ensures { IfOk result (λ made. made ≡ round TextTerm.Neg part) }
{
    let Some(height) = above(part.height) else {
        return Ok(None);
    };
    Ok(Some(Part {
        term: TextTerm::Neg(Boxed::new(alloc, part.term)?),
        height,
        choices: part.choices,
    }))
}

/// The part between bars.
pub(crate) fn absolute(alloc: Global, part: Part) -> Result<Option<Part>, OutOfMemory>
    ensures { IfOk result (λ made. made ≡ round TextTerm.Abs part) }
{
    let Some(height) = above(part.height) else {
        return Ok(None);
    };
    Ok(Some(Part {
        term: TextTerm::Abs(Boxed::new(alloc, part.term)?),
        height,
        choices: part.choices,
    }))
}

/// The parts with an operation between them.
pub(crate) fn binary(
    alloc: Global,
    op: Op,
    left: Part,
    right: Part,
) -> Result<Option<Part>, OutOfMemory>
    ensures { IfOk result (λ made. made ≡ joined (TextTerm.Binary op) left right) }
{
    let Some(height) = above(left.height.max(right.height)) else {
        return Ok(None);
    };
    let choices = choices_beside(left.choices, right.choices);
    let left = Boxed::new(alloc, left.term)?;
    let right = Boxed::new(alloc, right.term)?;
    Ok(Some(Part {
        term: TextTerm::Binary(op, left, right),
        height,
        choices,
    }))
}

/// All integers from one part to the other.
pub(crate) fn interval(alloc: Global, low: Part, high: Part) -> Result<Option<Part>, OutOfMemory>
    ensures { IfOk result (λ made. made ≡ joined TextTerm.Interval low high) }
{
    let Some(height) = above(low.height.max(high.height)) else {
        return Ok(None);
    };
    let choices = choices_beside(low.choices, high.choices);
    let low = Boxed::new(alloc, low.term)?;
    let high = Boxed::new(alloc, high.term)?;
    Ok(Some(Part {
        term: TextTerm::Interval(low, high),
        height,
        choices,
    }))
}

/// The part behind so many minuses.
pub(crate) fn negated(
    alloc: Global,
    mut minuses: u8,
    mut part: Part,
) -> Result<Option<Part>, OutOfMemory>
    ensures { IfOk result (λ made. made ≡ negated minuses part) }
{
    while minuses > 0 {
        let Some(higher) = negative(alloc, part)? else {
            return Ok(None);
        };
        part = higher;
        minuses -= 1;
    }
    Ok(Some(part))
}

/// A term without parts.
pub(crate) fn leaf(term: TextTerm) -> Part
    ensures { result ≡ leaf term }
{
    Part {
        term,
        height: 1,
        choices: 1,
    }
}

/// A name without arguments.
pub(crate) fn constant(alloc: Global, name: Bytes) -> Result<Part, OutOfMemory>
    ensures { IfOk result (λ made. made ≡ leaf (TextTerm.Function name ([] ∷ []))) }
{
    let mut lists = Items::new(alloc);
    lists.push(Items::new(alloc))?;
    Ok(leaf(TextTerm::Function(name, lists)))
}

/// A name with its lists of arguments.
pub(crate) fn named(name: Bytes, rows: Rows) -> Option<Part>
    ensures { result ≡ named name rows }
{
    let height = above(rows.height)?;
    Some(Part {
        term: TextTerm::Function(name, rows.lists),
        height,
        choices: rows.choices,
    })
}

/// The tuple of the terms.
pub(crate) fn tuple_of(alloc: Global, row: Row) -> Result<Option<Part>, OutOfMemory>
    ensures { IfOk result (λ made. made ≡ tuple_of row) }
{
    Ok(named(Seq::new(alloc), only_list(alloc, row)?))
}

/// What the terms of a parenthesis are without a last comma: one term is itself.
pub(crate) fn grouped(alloc: Global, row: Row) -> Result<Option<Part>, OutOfMemory>
    ensures { IfOk result (λ made. made ≡ grouped row.terms row) }
{
    let Row {
        terms,
        height,
        choices,
    } = row;
    match only(terms) {
        Ok(term) => Ok(Some(Part {
            term,
            height,
            choices,
        })),
        Err(terms) => tuple_of(
            alloc,
            Row {
                terms,
                height,
                choices,
            },
        ),
    }
}

/// What a parenthesis is: one alternative is itself, and more are a pool.
pub(crate) fn pooled(row: Row) -> Option<Part>
    ensures { result ≡ pooled row.terms row }
{
    match only(row.terms) {
        Ok(term) => Some(Part {
            term,
            height: row.height,
            choices: row.choices,
        }),
        Err(terms) => Some(Part {
            height: above(row.height)?,
            term: TextTerm::Pool(terms),
            choices: row.choices,
        }),
    }
}
