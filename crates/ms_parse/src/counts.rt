// How many copies pools make of a statement.
ghost use Rattle.std.specs.Prelude.{◌≡◌, ◌+◌, ◌*◌, ◌↔◌, IsTrue};
ghost use Rattle.ms_grammar.specs.Terms.{counted};
ghost use Rattle.ms_grammar.specs.Statements.{HasFewCopies};

use ms_base::limits::{MOST_CHOICES, MOST_COUNTED};
use ms_grammar::part::Counted;
use ms_grammar::statement::Form;

/// A number that is counted up to one more than the most copies.
fn counted(number: u64) -> u32
    ensures { result ≡ counted number }
{
    number.min(u64::from(MOST_COUNTED)) as u32
}

/// The choices of two parts side by side.
pub(crate) fn more_choices(some: u32, more: u32) -> u32
    ensures { result ≡ counted (some * more) }
{
    counted(u64::from(some) * u64::from(more))
}

/// The copies of elements of two parts side by side.
pub(crate) fn more_elements(some: u32, more: u32) -> u32
    ensures { result ≡ counted (some + more) }
{
    counted(u64::from(some) + u64::from(more))
}

/// Whether a statement has no more copies than it may have.
pub(crate) fn has_few_copies(form: &Counted<Form>) -> bool
    ensures { IsTrue result ↔ HasFewCopies form.now }
{
    u64::from(form.choices) * (u64::from(form.elements) + 1) <= u64::from(MOST_CHOICES)
}
