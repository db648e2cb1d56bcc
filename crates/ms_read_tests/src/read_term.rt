use ms_grammar::part::Part;
use ms_lex::lex;
use ms_read_term::read_term;
use std::alloc::Global;
use std::test::Fail;

/// A text with a term at its front, the number of that term's tokens, another text of the same term, and its
/// height and choices.
#[derive(Clone, Copy)]
struct Found {
    message: &'static str,
    text: &'static [u8],
    tokens: usize,
    same_as: &'static [u8],
    height: u8,
    choices: u32,
}

/// A text at whose front no term ends.
#[derive(Clone, Copy)]
struct Refused {
    message: &'static str,
    text: &'static [u8],
}

/// A text with the parts of its term.
#[derive(Clone, Copy)]
struct Parts {
    text: &'static [u8],
    parts: &'static str,
}

const FOUND: &[Found] = &[
    Found {
        message: "a number",
        text: b"7",
        tokens: 1,
        same_as: b"(7)",
        height: 1,
        choices: 1,
    },
    Found {
        message: "the greatest number",
        text: b"9223372036854775807",
        tokens: 1,
        same_as: b"((9223372036854775807))",
        height: 1,
        choices: 1,
    },
    Found {
        message: "the least number",
        text: b"-9223372036854775808",
        tokens: 2,
        same_as: b"(-9223372036854775808)",
        height: 1,
        choices: 1,
    },
    Found {
        message: "a minus before the least number",
        text: b"- -9223372036854775808",
        tokens: 3,
        same_as: b"-(-9223372036854775808)",
        height: 2,
        choices: 1,
    },
    Found {
        message: "a name",
        text: b"a.",
        tokens: 1,
        same_as: b"(a)",
        height: 1,
        choices: 1,
    },
    Found {
        message: "a string",
        text: b"\"a b\"",
        tokens: 1,
        same_as: b"(\"a b\")",
        height: 1,
        choices: 1,
    },
    Found {
        message: "a name without arguments in parentheses",
        text: b"f()",
        tokens: 3,
        same_as: b"f",
        height: 1,
        choices: 1,
    },
    Found {
        message: "two lists of arguments",
        text: b"f(1;2,3)",
        tokens: 8,
        same_as: b"f((1);(2),(3))",
        height: 2,
        choices: 2,
    },
    Found {
        message: "lists without arguments",
        text: b"f(;1;)",
        tokens: 6,
        same_as: b"f( ;(1); )",
        height: 2,
        choices: 3,
    },
    Found {
        message: "a tuple of one",
        text: b"(1,)",
        tokens: 4,
        same_as: b"((1),)",
        height: 2,
        choices: 1,
    },
    Found {
        message: "the empty tuple",
        text: b"()",
        tokens: 2,
        same_as: b"(())",
        height: 1,
        choices: 1,
    },
    Found {
        message: "a pool",
        text: b"(1;2)",
        tokens: 5,
        same_as: b"((1);(2))",
        height: 2,
        choices: 2,
    },
    Found {
        message: "a pool of tuples",
        text: b"(1,2;;3,)",
        tokens: 9,
        same_as: b"((1,2);();(3,))",
        height: 3,
        choices: 3,
    },
    Found {
        message: "the choices of terms side by side",
        text: b"(1;2)+(3;4;5)",
        tokens: 13,
        same_as: b"((1;2))+((3;4;5))",
        height: 3,
        choices: 6,
    },
    Found {
        message: "a difference between bars",
        text: b"|1-2|",
        tokens: 5,
        same_as: b"|(1-2)|",
        height: 3,
        choices: 1,
    },
    Found {
        message: "bars in bars",
        text: b"||1|-|2||",
        tokens: 9,
        same_as: b"|(|1|)-(|2|)|",
        height: 4,
        choices: 1,
    },
    Found {
        message: "a product in a sum",
        text: b"1+2*3-4",
        tokens: 7,
        same_as: b"((1+(2*3))-4)",
        height: 4,
        choices: 1,
    },
    Found {
        message: "differences from the left",
        text: b"1-2-3",
        tokens: 5,
        same_as: b"(1-2)-3",
        height: 3,
        choices: 1,
    },
    Found {
        message: "products from the left",
        text: b"2\\3/4*5",
        tokens: 7,
        same_as: b"((2\\3)/4)*5",
        height: 4,
        choices: 1,
    },
    Found {
        message: "a minus before a sum",
        text: b"-1+2",
        tokens: 4,
        same_as: b"(-1)+2",
        height: 3,
        choices: 1,
    },
    Found {
        message: "a minus in a product",
        text: b"2*-3",
        tokens: 4,
        same_as: b"2*(-3)",
        height: 3,
        choices: 1,
    },
    Found {
        message: "an interval of sums",
        text: b"1+1..2*3",
        tokens: 7,
        same_as: b"(1+1)..(2*3)",
        height: 3,
        choices: 1,
    },
    Found {
        message: "an interval as an argument",
        text: b"f(1..2)",
        tokens: 6,
        same_as: b"f((1..2))",
        height: 3,
        choices: 1,
    },
    Found {
        message: "a term before a bar",
        text: b"|1||2|",
        tokens: 3,
        same_as: b"(|1|)",
        height: 2,
        choices: 1,
    },
    Found {
        message: "a term before a name",
        text: b"p(1)q",
        tokens: 4,
        same_as: b"(p(1))",
        height: 2,
        choices: 1,
    },
    Found {
        message: "a term before a closing parenthesis",
        text: b"1)",
        tokens: 1,
        same_as: b"1",
        height: 1,
        choices: 1,
    },
];

const REFUSED: &[Refused] = &[
    Refused {
        message: "nothing",
        text: b"",
    },
    Refused {
        message: "not",
        text: b"not a",
    },
    Refused {
        message: "an operator without its right operand",
        text: b"1+.",
    },
    Refused {
        message: "an operator without its left operand",
        text: b"*1",
    },
    Refused {
        message: "a number above the greatest",
        text: b"9223372036854775808",
    },
    Refused {
        message: "the least number behind an operator",
        text: b"1-9223372036854775808",
    },
    Refused {
        message: "the least number in parentheses",
        text: b"-(9223372036854775808)",
    },
    Refused {
        message: "an interval of three",
        text: b"1..2..3",
    },
    Refused {
        message: "an interval between bars",
        text: b"|1..2|",
    },
    Refused {
        message: "a last comma in arguments",
        text: b"p(1,)",
    },
    Refused {
        message: "a comma alone",
        text: b"(,)",
    },
    Refused {
        message: "a comma between bars",
        text: b"|1,2|",
    },
    Refused {
        message: "arguments of a number",
        text: b"1(2)",
    },
    Refused {
        message: "arguments twice",
        text: b"f(1)(2)",
    },
    Refused {
        message: "an operator before a closing parenthesis",
        text: b"(1+)",
    },
    Refused {
        message: "a minus before a closing parenthesis",
        text: b"(-)",
    },
    Refused {
        message: "a parenthesis that isn't closed",
        text: b"f(1,(2;3)",
    },
    Refused {
        message: "brackets that are closed in the wrong order",
        text: b"f(|1)|",
    },
    Refused {
        message: "a dot in a bracket",
        text: b"(1.)",
    },
];

const PARTS: &[Parts] = &[
    Parts {
        text: b"-9223372036854775808",
        parts: "Number(-9223372036854775808)",
    },
    Parts {
        text: b"\"\\\"\\\\\\nn\"",
        parts: "Text(Seq { items: [34, 92, 10, 110] })",
    },
    Parts {
        text: b"ab(1;2,3)",
        parts: "Function(Seq { items: [97, 98] }, Items { items: [Items { items: [Number(1)] }, Items { items: [Number(2), Number(3)] }] })",
    },
    Parts {
        text: b"(1,)",
        parts: "Function(Seq { items: [] }, Items { items: [Items { items: [Number(1)] }] })",
    },
    Parts {
        text: b"(1;2)",
        parts: "Pool(Items { items: [Number(1), Number(2)] })",
    },
    Parts {
        text: b"1..2",
        parts: "Interval(Boxed { inner: Number(1) }, Boxed { inner: Number(2) })",
    },
    Parts {
        text: b"-|1|",
        parts: "Neg(Boxed { inner: Abs(Boxed { inner: Number(1) }) })",
    },
    Parts {
        text: b"1+2",
        parts: "Binary(Add, Boxed { inner: Number(1) }, Boxed { inner: Number(2) })",
    },
    Parts {
        text: b"1-2",
        parts: "Binary(Sub, Boxed { inner: Number(1) }, Boxed { inner: Number(2) })",
    },
    Parts {
        text: b"1*2",
        parts: "Binary(Mul, Boxed { inner: Number(1) }, Boxed { inner: Number(2) })",
    },
    Parts {
        text: b"1/2",
        parts: "Binary(Div, Boxed { inner: Number(1) }, Boxed { inner: Number(2) })",
    },
    Parts {
        text: b"1\\2",
        parts: "Binary(Rem, Boxed { inner: Number(1) }, Boxed { inner: Number(2) })",
    },
];

// What is found at the front of a text.
fn read(alloc: Global, text: &[u8]) -> Result<Option<(Part, usize)>, Fail> {
    let tokens = lex(alloc, text).ok().ok_or("the text has no tokens")?;
    Ok(read_term(alloc, text, tokens.as_slice())?)
}

// A term in so many brackets.
fn nested(alloc: Global, opening: &[u8], count: usize, closing: &[u8]) -> Result<Vec<u8>, Fail> {
    let mut text = Vec::new(alloc);
    for _ in 0..count {
        text.extend_from_slice(opening)?;
    }
    text.push(b'1')?;
    for _ in 0..count {
        text.extend_from_slice(closing)?;
    }
    Ok(text)
}

#[test]
fn finds_terms(rt: HostRuntime) -> Result<(), Fail> {
    for row in FOUND {
        let (part, tokens) = read(rt.alloc(), row.text)?.ok_or(row.message)?;
        let (same, _) = read(rt.alloc(), row.same_as)?.ok_or(row.message)?;
        assert_eq!(rt; tokens, row.tokens, "tokens of {}", row.message);
        assert_eq!(rt; part.height, row.height, "height of {}", row.message);
        assert_eq!(rt; part.choices, row.choices, "choices of {}", row.message);
        let term = format!(in rt.alloc(); "{:?}", part.term)?;
        let want = format!(in rt.alloc(); "{:?}", same.term)?;
        assert_eq!(rt; term.as_str(), want.as_str(), "at {}", row.message);
    }
    Ok(())
}

#[test]
fn refuses_texts(rt: HostRuntime) -> Result<(), Fail> {
    for row in REFUSED {
        let found = read(rt.alloc(), row.text)?;
        assert!(rt; found.is_none(), "at {}", row.message);
    }
    Ok(())
}

#[test]
fn makes_terms_of_their_parts(rt: HostRuntime) -> Result<(), Fail> {
    for row in PARTS {
        let (part, _) = read(rt.alloc(), row.text)?.ok_or(row.parts)?;
        let term = format!(in rt.alloc(); "{:?}", part.term)?;
        assert_eq!(rt; term.as_str(), row.parts);
    }
    Ok(())
}

#[test]
fn keeps_limits(rt: HostRuntime) -> Result<(), Fail> {
    for (count, want) in [(199, Some(200)), (200, Some(201)), (201, None)] {
        let text = nested(rt.alloc(), b"f(", count, b")")?;
        let height = read(rt.alloc(), &text)?.map(|found| found.0.height);
        assert_eq!(rt; height, want, "{count} names");
    }
    for (count, want) in [(9_999, 10_000), (10_000, 10_001), (10_001, 10_001)] {
        let mut text = b"(".to_vec(rt.alloc())?;
        text.extend_from_slice(&nested(rt.alloc(), b"", count, b";1")?)?;
        text.push(b')')?;
        let choices = read(rt.alloc(), &text)?.map(|found| found.0.choices);
        assert_eq!(rt; choices, Some(want), "{count} semicolons");
    }
    Ok(())
}

#[test]
fn reads_deep_texts(rt: HostRuntime) -> Result<(), Fail> {
    let text = nested(rt.alloc(), b"(", 100_000, b")")?;
    let tokens = read(rt.alloc(), &text)?.map(|found| found.1);
    assert_eq!(rt; tokens, Some(200_001), "parentheses round one term");
    for opening in [b"f(".as_slice(), b"(", b"|", b"-"] {
        let text = nested(rt.alloc(), opening, 100_000, b"")?;
        let found = read(rt.alloc(), &text)?;
        assert!(rt; found.is_none(), "{opening:?}");
    }
    Ok(())
}
