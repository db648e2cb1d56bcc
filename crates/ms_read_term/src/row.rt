// Terms side by side, and lists of terms.
ghost use Rattle.std.specs.Prelude.{◌≡◌, IfOk};
ghost use Rattle.ms_grammar.specs.Terms.{with_term, with_alternative, only_list};
ghost use Rattle.ms_read_term.specs.Brackets.{only_of, row_or, row_so_far, alternatives_so_far, with_row};

use crate::make::{choices_among, choices_beside};
use ms_base::memory::OutOfMemory;
use ms_grammar::part::{Part, Row, Rows};
use ms_grammar::term::{TextTerm, TextTerms};
use sqlite_items::Items;
use std::alloc::Global;

/// The only term, or else the terms back.
pub(crate) fn only(mut terms: TextTerms) -> Result<TextTerm, TextTerms>
    ensures { result ≡ only_of terms }
{
    if terms.len() != 1 {
        return Err(terms);
    }
    terms.pop().ok_or(terms)
}

/// The row, or no terms where there is none yet.
pub(crate) fn row_or_none(alloc: Global, row: Option<Row>, choices: u32) -> Row
    ensures { result ≡ row_or row choices }
{
    match row {
        Some(row) => row,
        None => Row {
            terms: Items::new(alloc),
            height: 0,
            choices,
        },
    }
}

/// The terms with one more.
pub(crate) fn with_term(alloc: Global, row: Option<Row>, part: Part) -> Result<Row, OutOfMemory>
    ensures { IfOk result (λ made. made ≡ with_term (row_so_far row) part) }
{
    let mut row = row_or_none(alloc, row, 1);
    row.terms.push(part.term)?;
    row.height = row.height.max(part.height);
    row.choices = choices_beside(row.choices, part.choices);
    Ok(row)
}

/// The alternatives with one more.
pub(crate) fn with_alternative(
    alloc: Global,
    row: Option<Row>,
    part: Part,
) -> Result<Row, OutOfMemory>
    ensures { IfOk result (λ made. made ≡ with_alternative (alternatives_so_far row) part) }
{
    let mut row = row_or_none(alloc, row, 0);
    row.terms.push(part.term)?;
    row.height = row.height.max(part.height);
    row.choices = choices_among(row.choices, part.choices);
    Ok(row)
}

/// The lists with one more.
pub(crate) fn with_list(alloc: Global, rows: Option<Rows>, row: Row) -> Result<Rows, OutOfMemory>
    ensures { IfOk result (λ made. made ≡ with_row rows row) }
{
    match rows {
        None => only_list(alloc, row),
        Some(mut rows) => {
            rows.lists.push(row.terms)?;
            rows.height = rows.height.max(row.height);
            rows.choices = choices_among(rows.choices, row.choices);
            Ok(rows)
        }
    }
}

/// The one list so far.
pub(crate) fn only_list(alloc: Global, row: Row) -> Result<Rows, OutOfMemory>
    ensures { IfOk result (λ made. made ≡ only_list row) }
{
    let mut lists = Items::new(alloc);
    lists.push(row.terms)?;
    Ok(Rows {
        lists,
        height: row.height,
        choices: row.choices,
    })
}
