use ms_base::seq::Seq;
use ms_core::pattern::Pattern;
use ms_core::rule::{Cmp, Range, Test};
use ms_term::Op;
use ms_value::{OutOfMemory, Terms, Walk, evaluate, holds, integer, integers_hold};
use sqlite_items::{Boxed, Items};
use std::alloc::Global;
use std::test::Fail;

/// The result of an operation on two integers.
fn result_of(alloc: Global, op: Op, left: i64, right: i64) -> Result<Option<i64>, OutOfMemory> {
    let left = Boxed::new(alloc, Pattern::Number(left))?;
    let right = Boxed::new(alloc, Pattern::Number(right))?;
    Ok(integer(&Pattern::Binary(op, left, right), &[]))
}

#[test]
fn operations_are_those_of_64_bits(rt: HostRuntime) -> Result<(), Fail> {
    let rows = [
        (Op::Div, -7, 2, Some(-3), "division goes toward zero"),
        (Op::Rem, -7, 2, Some(-1), "what is left has the sign of -7"),
        (Op::Div, 7, 0, None, "nothing is divided by 0"),
        (
            Op::Add,
            i64::MAX,
            1,
            None,
            "one more than the greatest integer",
        ),
    ];
    for (op, left, right, wanted, message) in rows {
        let result = result_of(rt.alloc(), op, left, right)?;
        assert_eq!(rt; result, wanted, "{message}");
    }
    Ok(())
}

/// `p` of the integer of a range.
fn of_range(alloc: Global) -> Result<Pattern, OutOfMemory> {
    let mut arguments = Items::new(alloc);
    arguments.push(Pattern::Range(0))?;
    Ok(Pattern::Function(Seq::copied(alloc, b"p")?, arguments))
}

/// The text of `p` of a range's integer, which is empty where that isn't defined.
fn text_of(alloc: Global, chosen: &[i64]) -> Result<Vec<u8>, OutOfMemory> {
    let pattern = of_range(alloc)?;
    let mut terms = Terms::new(alloc);
    let mut text = Vec::new(alloc);
    if let Some(value) = evaluate(alloc, &mut terms, &pattern, chosen)? {
        terms.print(value, &mut text)?;
    }
    Ok(text)
}

#[test]
fn ranges_stand_for_their_integers(rt: HostRuntime) -> Result<(), Fail> {
    let text = text_of(rt.alloc(), &[-4])?;
    assert_eq!(rt; text.as_slice(), b"p(-4)".as_slice(), "the integer chosen");
    let text = text_of(rt.alloc(), &[])?;
    assert_eq!(rt; text.as_slice(), b"".as_slice(), "no integer is chosen");
    Ok(())
}

#[test]
fn comparisons_are_by_the_order_of_terms(rt: HostRuntime) -> Result<(), Fail> {
    let mut terms = Terms::new(rt.alloc());
    let three = terms.number(3)?;
    let text = terms.text(b"a")?;
    assert!(rt;
        holds(&terms, Cmp::Lt, three, text),
        "an integer is less than a string"
    );
    assert!(rt; !holds(&terms, Cmp::Ne, text, text), "a term is itself");
    Ok(())
}

#[test]
fn integers_are_compared_without_a_table(rt: HostRuntime) -> Result<(), Fail> {
    let test = Test {
        left: Pattern::Range(0),
        cmp: Cmp::Le,
        right: Pattern::Number(2),
    };
    assert_eq!(rt; integers_hold(&test, &[2]), Some(true), "2<=2");
    assert_eq!(rt; integers_hold(&test, &[3]), Some(false), "3<=2");
    assert_eq!(rt; integers_hold(&test, &[]), None, "no integer is chosen");
    Ok(())
}

/// The integers of all choices, one after the other.
fn all_chosen(alloc: Global, ranges: &[Range]) -> Result<Vec<i64>, OutOfMemory> {
    let mut all = Vec::new(alloc);
    let mut walk = Walk::new(alloc, ranges);
    while walk.next()? {
        all.extend_from_slice(walk.chosen())?;
    }
    Ok(all)
}

#[test]
fn choices_come_in_rising_order(rt: HostRuntime) -> Result<(), Fail> {
    let ranges = [
        Range {
            low: Pattern::Number(1),
            high: Pattern::Number(3),
        },
        Range {
            low: Pattern::Range(0),
            high: Pattern::Number(2),
        },
    ];
    let all = all_chosen(rt.alloc(), &ranges)?;
    let wanted = [1, 1, 1, 2, 2, 2].as_slice();
    assert_eq!(rt; all.as_slice(), wanted, "from 1 to 3, and from there to 2");
    Ok(())
}
