use ms_grammar::part::ValuePart;
use ms_grammar::value::Value;
use ms_lex::lex;
use ms_read_value::read_front;
use std::alloc::Global;
use std::test::Fail;

/// What a value is at its top.
#[derive(Clone, Copy, Debug, PartialEq, Eq)]
enum Shape {
    Number(i64),
    Text(&'static [u8]),
    /// A name, and how many arguments.
    Function(&'static [u8], usize),
}

/// A text, and the value at its front with its height and its number of tokens.
#[derive(Clone, Copy)]
struct Row {
    message: &'static str,
    text: &'static [u8],
    front: Option<(Shape, u8, usize)>,
}

const ROWS: &[Row] = &[
    Row {
        message: "nothing",
        text: b"",
        front: None,
    },
    Row {
        message: "the least number",
        text: b"-9223372036854775808",
        front: Some((Shape::Number(i64::MIN), 1, 2)),
    },
    Row {
        message: "the greatest number",
        text: b"9223372036854775807",
        front: Some((Shape::Number(i64::MAX), 1, 1)),
    },
    Row {
        message: "a number above the greatest",
        text: b"9223372036854775808",
        front: None,
    },
    Row {
        message: "a number above the greatest in a tuple",
        text: b"(1,9223372036854775808)",
        front: None,
    },
    Row {
        message: "a blank behind a minus",
        text: b"- 5",
        front: Some((Shape::Number(-5), 1, 2)),
    },
    Row {
        message: "minus zero",
        text: b"-0",
        front: Some((Shape::Number(0), 1, 2)),
    },
    Row {
        message: "two minuses",
        text: b"--1",
        front: None,
    },
    Row {
        message: "a minus before a name",
        text: b"-a",
        front: None,
    },
    Row {
        message: "a minus alone",
        text: b"-",
        front: None,
    },
    Row {
        message: "a value ends before another sign",
        text: b"1+2",
        front: Some((Shape::Number(1), 1, 1)),
    },
    Row {
        message: "a number has no arguments",
        text: b"1(2)",
        front: Some((Shape::Number(1), 1, 1)),
    },
    Row {
        message: "a string with escapes",
        text: b"\"a\\n\\\"\\\\\"",
        front: Some((Shape::Text(b"a\n\"\\"), 1, 1)),
    },
    Row {
        message: "an empty string",
        text: b"\"\" \"b\"",
        front: Some((Shape::Text(b""), 1, 1)),
    },
    Row {
        message: "a name",
        text: b"f",
        front: Some((Shape::Function(b"f", 0), 1, 1)),
    },
    Row {
        message: "not is no name",
        text: b"not",
        front: None,
    },
    Row {
        message: "a name in empty brackets",
        text: b"f()",
        front: Some((Shape::Function(b"f", 0), 1, 3)),
    },
    Row {
        message: "an open bracket",
        text: b"f(",
        front: Some((Shape::Function(b"f", 0), 1, 1)),
    },
    Row {
        message: "an open bracket behind a comma",
        text: b"f(1,",
        front: Some((Shape::Function(b"f", 0), 1, 1)),
    },
    Row {
        message: "a last comma of arguments",
        text: b"f(1,)",
        front: Some((Shape::Function(b"f", 0), 1, 1)),
    },
    Row {
        message: "arguments without a comma",
        text: b"f(1 2)",
        front: Some((Shape::Function(b"f", 0), 1, 1)),
    },
    Row {
        message: "arguments of each kind",
        text: b"f(a,\"b\",-3,g(),h(1,(2)),()).",
        front: Some((Shape::Function(b"f", 6), 3, 25)),
    },
    Row {
        message: "a second pair of brackets",
        text: b"f(1)(2)",
        front: Some((Shape::Function(b"f", 1), 2, 4)),
    },
    Row {
        message: "the empty tuple",
        text: b"()",
        front: Some((Shape::Function(b"", 0), 1, 2)),
    },
    Row {
        message: "one value in brackets",
        text: b"((1))",
        front: Some((Shape::Number(1), 1, 5)),
    },
    Row {
        message: "a tuple of one",
        text: b"(1,)",
        front: Some((Shape::Function(b"", 1), 2, 4)),
    },
    Row {
        message: "a tuple of two",
        text: b"(1,a)",
        front: Some((Shape::Function(b"", 2), 2, 5)),
    },
    Row {
        message: "a tuple of two with a last comma",
        text: b"(1,(),)",
        front: Some((Shape::Function(b"", 2), 2, 7)),
    },
    Row {
        message: "a comma alone",
        text: b"(,)",
        front: None,
    },
    Row {
        message: "two commas",
        text: b"(1,,)",
        front: None,
    },
    Row {
        message: "an open parenthesis",
        text: b"(1",
        front: None,
    },
    Row {
        message: "a closing bracket",
        text: b")",
        front: None,
    },
];

fn front_of(alloc: Global, text: &[u8]) -> Result<Option<(ValuePart, usize)>, Fail> {
    let tokens = lex(alloc, text).ok().ok_or("tokens")?;
    Ok(read_front(alloc, text, tokens.as_slice())?)
}

/// A text of a word again and again.
fn repeated(alloc: Global, word: &[u8], count: usize) -> Result<Vec<u8>, Fail> {
    let mut text = Vec::new(alloc);
    for _ in 0..count {
        text.extend_from_slice(word)?;
    }
    Ok(text)
}

fn is_shape(value: &Value, shape: Shape) -> bool {
    match (value, shape) {
        (Value::Number(number), Shape::Number(want)) => *number == want,
        (Value::Text(bytes), Shape::Text(want)) => bytes.as_slice() == want,
        (Value::Function(name, values), Shape::Function(want, count)) => {
            name.as_slice() == want && values.len() == count
        }
        _ => false,
    }
}

#[test]
fn reads_fronts(rt: HostRuntime) -> Result<(), Fail> {
    for row in ROWS {
        match (front_of(rt.alloc(), row.text)?, row.front) {
            (Some((part, count)), Some((shape, height, want))) => {
                assert!(rt; is_shape(&part.value, shape), "value of {}", row.message);
                assert_eq!(rt; (part.height, count), (height, want), "{}", row.message);
            }
            (front, want) => {
                assert!(rt; front.is_none() && want.is_none(), "{}", row.message);
            }
        }
    }
    Ok(())
}

#[test]
fn limits_heights(rt: HostRuntime) -> Result<(), Fail> {
    for (names, height, count) in [(198, 199, 595), (199, 200, 598), (200, 1, 1), (201, 1, 1)] {
        let mut text = repeated(rt.alloc(), b"f(", names)?;
        text.push(b'1')?;
        text.extend_from_slice(repeated(rt.alloc(), b")", names)?.as_slice())?;
        let (part, read) = front_of(rt.alloc(), text.as_slice())?.ok_or("a value")?;
        assert_eq!(rt; (part.height, read), (height, count), "{names} names");
    }
    Ok(())
}

/// How many tokens the value at the front of a million words has, where one is there.
fn count_of(alloc: Global, word: &[u8]) -> Result<Option<usize>, Fail> {
    let text = repeated(alloc, word, 1_000_000 / word.len().max(1))?;
    let front = front_of(alloc, text.as_slice())?;
    Ok(front.map(|(_, count)| count))
}

#[test]
fn refuses_a_million_open_parentheses(rt: HostRuntime) -> Result<(), Fail> {
    let count = count_of(rt.alloc(), b"(")?;
    assert_eq!(rt; count, None, "no parenthesis is closed");
    Ok(())
}

#[test]
fn refuses_half_a_million_open_names(rt: HostRuntime) -> Result<(), Fail> {
    let count = count_of(rt.alloc(), b"f(")?;
    assert_eq!(rt; count, Some(1), "the first name alone is a value");
    Ok(())
}
