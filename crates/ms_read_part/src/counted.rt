// How choices and copies are counted.
ghost use Rattle.std.specs.Prelude.{◌≡◌, ◌+◌, ◌*◌, nat_le, if◌then◌else◌, [], ◌∷◌, ◌++◌, OnOk};
ghost use Rattle.ms_grammar.specs.Terms.{counted};
ghost use Rattle.ms_grammar.specs.Statements.{alone, beside, as_element};

use ms_base::limits::MOST_COUNTED;
use ms_base::memory::OutOfMemory;
use ms_base::seq::Seq;
use ms_grammar::part::Counted;
use ms_grammar::term::{TextTerm, TextTerms};

/// A part without pools.
pub(crate) fn alone<T>(value: T) -> Counted<T>
    ensures { result ≡ alone value }
{
    Counted {
        value,
        choices: 1,
        elements: 0,
    }
}

/// Two parts side by side.
pub(crate) fn beside<T, U>(first: Counted<T>, second: Counted<U>) -> Counted<(T, U)>
    ensures { result ≡ beside (λ x y. (x, y)) first second }
{
    Counted {
        value: (first.value, second.value),
        choices: product(first.choices, second.choices),
        elements: total(first.elements, second.elements),
    }
}

/// An element with its own copies: the choices of its pools are no choices of the rule.
pub(crate) fn as_element<T>(part: Counted<T>) -> Counted<T>
    ensures { result ≡ as_element part }
{
    Counted {
        value: part.value,
        choices: 1,
        elements: copies(part.choices),
    }
}

fn product(choices: u32, more: u32) -> u32
    ensures { result ≡ counted (choices * more) }
{
    choices.saturating_mul(more).min(MOST_COUNTED)
}

fn total(elements: u32, more: u32) -> u32
    ensures { result ≡ counted (elements + more) }
{
    elements.saturating_add(more).min(MOST_COUNTED)
}

/// The copies of an element, of which there are none where it has no pool.
fn copies(choices: u32) -> u32
    ensures { result ≡ (if nat_le choices 1 then 0 else choices) }
{
    if choices <= 1 { 0 } else { choices }
}

/// Adds an element at the end of a list.
pub(crate) fn push<T: Drop>(list: &mut Counted<Seq<T>>, item: Counted<T>) -> Result<(), OutOfMemory>
    ensures { OnOk result (list.new ≡ beside (λ xs x. xs ++ x ∷ []) list.old item) }
{
    let Counted {
        value,
        choices,
        elements,
    } = item;
    list.value.push(value)?;
    list.choices = product(list.choices, choices);
    list.elements = total(list.elements, elements);
    Ok(())
}

/// Adds a term at the end of a tuple.
pub(crate) fn push_term(
    tuple: &mut Counted<TextTerms>,
    term: Counted<TextTerm>,
) -> Result<(), OutOfMemory>
    ensures { OnOk result (tuple.new ≡ beside (λ xs x. xs ++ x ∷ []) tuple.old term) }
{
    let Counted {
        value,
        choices,
        elements,
    } = term;
    tuple.value.push(value)?;
    tuple.choices = product(tuple.choices, choices);
    tuple.elements = total(tuple.elements, elements);
    Ok(())
}
