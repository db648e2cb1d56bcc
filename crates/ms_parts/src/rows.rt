// Lists of choices: one of each list, at its place.
ghost use Rattle.std.specs.Prelude.{◌≡◌, [], ◌∷◌, ◌++◌, map, IfOk, OnOk};
ghost use Rattle.ms_core.specs.Pools.{pairs_with};
ghost use Rattle.ms_parts.specs.Rows.{only_of, extended};

use crate::duplicate::Duplicate;
use ms_base::memory::OutOfMemory;
use ms_base::seq::Seq;
use std::alloc::Global;

/// A list of one item.
pub(crate) fn single<T: Drop>(alloc: Global, item: T) -> Result<Seq<T>, OutOfMemory>
    ensures { IfOk result (λ made. made ≡ item ∷ []) }
{
    let mut made = Seq::new(alloc);
    made.push(item)?;
    Ok(made)
}

/// The only item, or else the items back.
pub(crate) fn only<T: Drop>(items: Seq<T>) -> Result<T, Seq<T>>
    ensures { result ≡ only_of items }
{
    if items.len() != 1 {
        return Err(items);
    }
    let mut items = items.into_vec();
    match items.pop() {
        Some(item) => Ok(item),
        None => Err(Seq::from_vec(items)),
    }
}

/// Each row with each of the items behind it. One item, as where there is no pool, isn't copied for one row.
pub(crate) fn extended<T: Duplicate>(
    alloc: Global,
    rows: Seq<Seq<T>>,
    items: Seq<T>,
) -> Result<Seq<Seq<T>>, OutOfMemory>
    ensures { IfOk result (λ made. made ≡ extended rows items) }
{
    match only(items) {
        Ok(item) => with_item(alloc, rows, item),
        Err(items) => with_each(alloc, rows.as_slice(), items.as_slice()),
    }
}

/// Each row with the item behind it.
fn with_item<T: Duplicate>(
    alloc: Global,
    rows: Seq<Seq<T>>,
    item: T,
) -> Result<Seq<Seq<T>>, OutOfMemory>
    ensures { IfOk result (λ made. made ≡ map (λ row. row ++ item ∷ []) rows) }
{
    match only(rows) {
        Ok(row) => {
            let mut row = row;
            row.push(item)?;
            single(alloc, row)
        }
        Err(rows) => with_copies(alloc, rows, &item),
    }
}

/// Each row with a copy of the item behind it.
fn with_copies<T: Duplicate>(
    alloc: Global,
    rows: Seq<Seq<T>>,
    item: &T,
) -> Result<Seq<Seq<T>>, OutOfMemory>
    ensures { IfOk result (λ made. made ≡ map (λ row. row ++ item.now ∷ []) rows) }
{
    let mut made = Seq::new(alloc);
    for row in rows.into_vec() {
        let mut row = row;
        row.push(item.duplicate(alloc)?)?;
        made.push(row)?;
    }
    Ok(made)
}

/// Copies of each row with copies of each of the items behind it.
fn with_each<T: Duplicate>(
    alloc: Global,
    rows: &[Seq<T>],
    items: &[T],
) -> Result<Seq<Seq<T>>, OutOfMemory>
    ensures { IfOk result (λ made. made ≡ extended rows.now items.now) }
{
    let mut made = Seq::new(alloc);
    for row in rows {
        append_row(alloc, row, items, &mut made)?;
    }
    Ok(made)
}

/// Appends copies of the row with copies of each of the items behind it.
fn append_row<T: Duplicate>(
    alloc: Global,
    row: &Seq<T>,
    items: &[T],
    into: &mut Seq<Seq<T>>,
) -> Result<(), OutOfMemory>
    ensures { OnOk result (into.new ≡ into.old ++ map (λ x. row.now ++ x ∷ []) items.now) }
{
    for item in items {
        let mut next = row.duplicate(alloc)?;
        next.push(item.duplicate(alloc)?)?;
        into.push(next)?;
    }
    Ok(())
}

/// Each of the first with each of the second, the first varying last. Where there is one of each, as where
/// there is no pool, neither is copied.
pub(crate) fn pairs<A: Duplicate, B: Duplicate>(
    alloc: Global,
    firsts: Seq<A>,
    seconds: Seq<B>,
) -> Result<Seq<(A, B)>, OutOfMemory>
    ensures { IfOk result (λ made. made ≡ pairs_with (λ x y. (x, y)) firsts seconds) }
{
    match only(firsts) {
        Ok(first) => pairs_of_one(alloc, first, seconds),
        Err(firsts) => pairs_of_each(alloc, firsts.as_slice(), seconds.as_slice()),
    }
}

/// The first with each of the second.
fn pairs_of_one<A: Duplicate, B: Duplicate>(
    alloc: Global,
    first: A,
    seconds: Seq<B>,
) -> Result<Seq<(A, B)>, OutOfMemory>
    ensures { IfOk result (λ made. made ≡ map (λ y. (first, y)) seconds) }
{
    match only(seconds) {
        Ok(second) => single(alloc, (first, second)),
        Err(seconds) => {
            let mut made = Seq::new(alloc);
            append_pairs(alloc, &first, seconds.as_slice(), &mut made)?;
            Ok(made)
        }
    }
}

fn pairs_of_each<A: Duplicate, B: Duplicate>(
    alloc: Global,
    firsts: &[A],
    seconds: &[B],
) -> Result<Seq<(A, B)>, OutOfMemory>
    ensures { IfOk result (λ made. made ≡ pairs_with (λ x y. (x, y)) firsts.now seconds.now) }
{
    let mut made = Seq::new(alloc);
    for first in firsts {
        append_pairs(alloc, first, seconds, &mut made)?;
    }
    Ok(made)
}

/// Appends copies of the first, each with a copy of one of the second.
fn append_pairs<A: Duplicate, B: Duplicate>(
    alloc: Global,
    first: &A,
    seconds: &[B],
    into: &mut Seq<(A, B)>,
) -> Result<(), OutOfMemory>
    ensures { OnOk result (into.new ≡ into.old ++ map (λ y. (first.now, y)) seconds.now) }
{
    for second in seconds {
        into.push((first.duplicate(alloc)?, second.duplicate(alloc)?))?;
    }
    Ok(())
}
