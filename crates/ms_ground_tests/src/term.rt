ghost use Rattle.std.specs.Prelude.{IsTrue};
ghost use Rattle.ms_term.specs.Terms.{AllBelow};

use ms_term::{Op, TermId, Terms, arith};
use std::alloc::Global;
use std::cmp::Ordering;
use std::process::Abort;
use std::test::Fail;

// A term to add, whose arguments are given by the places of terms before it.
#[derive(Clone, Copy)]
enum Step {
    Number(i64),
    Text(&'static [u8]),
    Function(&'static [u8], &'static [usize]),
}

// What the look-ups give of a term.
#[derive(Clone, Copy)]
struct Parts<'a> {
    number: Option<i64>,
    text: Option<&'a [u8]>,
    name: Option<&'a [u8]>,
    arguments: &'a [TermId],
    size: u64,
}

// Each term is new, and so named by its place here.
static STEPS: [Step; 14] = [
    Step::Function(b"a", &[]),
    Step::Number(3),
    Step::Function(b"p", &[1]),
    Step::Text(b"a"),
    Step::Function(b"p", &[3]),
    Step::Function(b"b", &[]),
    Step::Function(b"p", &[5]),
    Step::Number(1),
    Step::Function(b"f", &[7]),
    Step::Function(b"p", &[8]),
    Step::Text(b"\n"),
    Step::Function(b"", &[7]),
    Step::Function(b"", &[]),
    Step::Function(b"f", &[10, 11, 12]),
];

fn ids(alloc: Global, places: &[usize]) -> Result<Vec<TermId>, Fail> {
    let mut ids = Vec::new(alloc);
    for place in places {
        ids.push(TermId(*place))?;
    }
    Ok(ids)
}

fn all_below(ids: &[TermId], n: usize) -> bool
    ensures { IsTrue result → AllBelow n ids.now }
{
    let mut rest = ids;
    while let [first, after @ ..] = rest {
        if first.0 >= n {
            return false;
        }
        rest = after;
    }
    true
}

fn add(rt: &impl Abort, alloc: Global, terms: &mut Terms, step: Step) -> Result<TermId, Fail> {
    let name = match step {
        Step::Number(n) => terms.number(n)?,
        Step::Text(bytes) => terms.text(bytes)?,
        Step::Function(name, places) => {
            let arguments = ids(alloc, places)?;
            assert!(rt; all_below(arguments.as_slice(), terms.len()));
            terms.function(name, arguments.as_slice())?
        }
    };
    Ok(name)
}

fn table(rt: &impl Abort, alloc: Global) -> Result<Terms, Fail> {
    let mut terms = Terms::new(alloc);
    for (place, step) in STEPS.iter().enumerate() {
        let name = add(rt, alloc, &mut terms, *step)?;
        assert_eq!(rt; name, TermId(place), "a new term has the next name");
    }
    Ok(terms)
}

fn is_ordered(rt: &impl Abort, terms: &Terms, a: TermId, b: TermId, order: Ordering) {
    assert!(rt; a.0 < terms.len());
    assert!(rt; b.0 < terms.len());
    assert_eq!(rt; terms.compare(a, b), order, "{a:?} and {b:?}");
}

fn is_printed(
    rt: &impl Abort,
    terms: &Terms,
    t: TermId,
    text: &[u8],
    into: &mut Vec<u8>,
) -> Result<(), Fail> {
    assert!(rt; t.0 < terms.len());
    into.clear();
    terms.print(t, into)?;
    assert_eq!(rt; into.as_slice(), text, "the text of {t:?}");
    Ok(())
}

fn has_parts(rt: &impl Abort, terms: &Terms, t: TermId, parts: &Parts) {
    assert!(rt; t.0 < terms.len());
    assert_eq!(rt; terms.number_of(t), parts.number, "the integer of {t:?}");
    assert_eq!(rt; terms.text_of(t), parts.text, "the bytes of {t:?}");
    assert_eq!(rt; terms.name_of(t), parts.name, "the name of {t:?}");
    assert_eq!(rt; terms.args_of(t), parts.arguments, "the arguments of {t:?}");
    assert_eq!(rt; terms.size(t), parts.size, "the size of {t:?}");
}

#[test]
fn orders_terms(rt: HostRuntime) -> Result<(), Fail> {
    let terms = table(&rt, rt.alloc())?;
    for (less, greater) in [(0, 2), (2, 4), (4, 6), (6, 9)] {
        is_ordered(&rt, &terms, TermId(less), TermId(greater), Ordering::Less);
        is_ordered(
            &rt,
            &terms,
            TermId(greater),
            TermId(less),
            Ordering::Greater,
        );
    }
    Ok(())
}

#[test]
fn prints_terms(rt: HostRuntime) -> Result<(), Fail> {
    let terms = table(&rt, rt.alloc())?;
    let rows = [
        (TermId(0), b"a".as_slice()),
        (TermId(9), b"p(f(1))".as_slice()),
        (TermId(13), b"f(\"\\n\",(1,),())".as_slice()),
    ];
    let mut text = Vec::new(rt.alloc());
    for (t, expected) in rows {
        is_printed(&rt, &terms, t, expected, &mut text)?;
    }
    Ok(())
}

#[test]
fn looks_up_parts(rt: HostRuntime) -> Result<(), Fail> {
    let mut terms = table(&rt, rt.alloc())?;
    let number = Parts {
        number: Some(3),
        text: None,
        name: None,
        arguments: &[],
        size: 1,
    };
    let text = Parts {
        number: None,
        text: Some(b"a"),
        name: None,
        arguments: &[],
        size: 1,
    };
    let function = Parts {
        number: None,
        text: None,
        name: Some(b"f"),
        arguments: &[TermId(10), TermId(11), TermId(12)],
        size: 5,
    };
    has_parts(&rt, &terms, TermId(1), &number);
    has_parts(&rt, &terms, TermId(3), &text);
    has_parts(&rt, &terms, TermId(13), &function);
    let again = add(&rt, rt.alloc(), &mut terms, Step::Number(3))?;
    assert_eq!(rt; again, TermId(1), "a term keeps its name");
    Ok(())
}

fn found(
    rt: &impl Abort,
    alloc: Global,
    terms: &Terms,
    step: Step,
) -> Result<Option<TermId>, Fail> {
    let name = match step {
        Step::Number(n) => terms.find_number(n),
        Step::Text(bytes) => terms.find_text(bytes),
        Step::Function(name, places) => {
            let arguments = ids(alloc, places)?;
            assert!(rt; all_below(arguments.as_slice(), terms.len()));
            terms.find_function(name, arguments.as_slice())
        }
    };
    Ok(name)
}

#[test]
fn finds_what_is_there(rt: HostRuntime) -> Result<(), Fail> {
    let terms = table(&rt, rt.alloc())?;
    for (place, step) in STEPS.iter().enumerate() {
        let name = found(&rt, rt.alloc(), &terms, *step)?;
        assert_eq!(rt; name, Some(TermId(place)), "each term is found");
    }
    let others = [
        Step::Number(4),
        Step::Text(b"f"),
        Step::Text(b"none"),
        Step::Function(b"none", &[]),
        Step::Function(b"f", &[1]),
    ];
    for step in others {
        assert_eq!(rt; found(&rt, rt.alloc(), &terms, step)?, None, "no other is");
    }
    assert_eq!(rt; terms.len(), STEPS.len(), "a look-up adds nothing");
    Ok(())
}

#[test]
fn goes_back(rt: HostRuntime) -> Result<(), Fail> {
    let mut terms = table(&rt, rt.alloc())?;
    let mark = terms.mark();
    terms.text(b"later")?;
    terms.number(7)?;
    terms.back_to(mark);
    assert_eq!(rt; terms.len(), STEPS.len(), "the terms of that moment");
    assert_eq!(rt; terms.find_text(b"later"), None, "and no others");
    let again = terms.text(b"later")?;
    assert_eq!(rt; again, TermId(STEPS.len()), "it is new again");
    Ok(())
}

#[test]
fn knows_the_first_large_term(rt: HostRuntime) -> Result<(), Fail> {
    let mut terms = Terms::new(rt.alloc());
    let mut last = terms.number(0)?;
    for _ in 1..2000 {
        assert!(rt; last.0 < terms.len());
        last = terms.function(b"s", &[last])?;
    }
    assert_eq!(rt; terms.first_large(), None, "2,000 symbols aren't too many");
    assert!(rt; last.0 < terms.len());
    let large = terms.function(b"s", &[last])?;
    assert_eq!(rt; terms.first_large(), Some(large), "2,001 symbols are");
    Ok(())
}

#[test]
fn computes_within_64_bits(rt: HostRuntime) {
    let rows = [
        (Op::Add, i64::MAX, 1, None),
        (Op::Sub, 2, 5, Some(-3)),
        (Op::Mul, -4, 5, Some(-20)),
        (Op::Div, -7, 2, Some(-3)),
        (Op::Rem, -7, 2, Some(-1)),
        (Op::Div, i64::MIN, -1, None),
        (Op::Rem, i64::MIN, -1, None),
        (Op::Div, 7, 0, None),
        (Op::Rem, 7, 0, None),
    ];
    for (op, a, b, value) in rows {
        assert_eq!(rt; arith(op, a, b), value, "{op:?} of {a} and {b}");
    }
}
