use ms_grammar::part::Counted;
use ms_lex::lex;
use ms_read_part::{read_atom, read_body_part, read_head};
use std::alloc::Global;
use std::fmt::Debug;
use std::test::Fail;

/// A text with a part at its front: the number of that part's tokens, its choices and copies of elements, and
/// how it is shown.
#[derive(Clone, Copy)]
struct Found {
    message: &'static str,
    text: &'static [u8],
    tokens: usize,
    choices: u32,
    elements: u32,
    shown: &'static str,
}

/// A text at whose front no part ends.
#[derive(Clone, Copy)]
struct Refused {
    message: &'static str,
    text: &'static [u8],
}

const ATOMS: &[Found] = &[
    Found {
        message: "a name",
        text: b"a",
        tokens: 1,
        choices: 1,
        elements: 0,
        shown: "Function(Seq { items: [97] }, Items { items: [Items { items: [] }] })",
    },
    Found {
        message: "a name with lists of arguments",
        text: b"a(1;2,3).",
        tokens: 8,
        choices: 2,
        elements: 0,
        shown: "Function(Seq { items: [97] }, Items { items: [Items { items: [Number(1)] }, Items { items: [Number(2), Number(3)] }] })",
    },
];

const NO_ATOMS: &[Refused] = &[
    Refused {
        message: "nothing",
        text: b"",
    },
    Refused {
        message: "an atom with not",
        text: b"not a",
    },
    Refused {
        message: "an interval",
        text: b"a..b",
    },
    Refused {
        message: "a name in parentheses",
        text: b"(a)",
    },
    Refused {
        message: "a name with a minus",
        text: b"-a",
    },
    Refused {
        message: "a sum that begins with a name",
        text: b"a+1",
    },
    Refused {
        message: "a number",
        text: b"1",
    },
    Refused {
        message: "two names",
        text: b"a b",
    },
    Refused {
        message: "a name before a comparison",
        text: b"a<1",
    },
];

const BODY_PARTS: &[Found] = &[
    Found {
        message: "an atom",
        text: b"a;",
        tokens: 1,
        choices: 1,
        elements: 0,
        shown: "Lit(Positive(Function(Seq { items: [97] }, Items { items: [Items { items: [] }] })))",
    },
    Found {
        message: "an atom with not",
        text: b"not a,",
        tokens: 2,
        choices: 1,
        elements: 0,
        shown: "Lit(Negated(Function(Seq { items: [97] }, Items { items: [Items { items: [] }] })))",
    },
    Found {
        message: "a test",
        text: b"1 < 2",
        tokens: 3,
        choices: 1,
        elements: 0,
        shown: "Lit(Test { left: Number(1), cmp: Lt, right: Number(2) })",
    },
    Found {
        message: "a test of pools",
        text: b"(1;2) <> (3;4;5).",
        tokens: 13,
        choices: 6,
        elements: 0,
        shown: "Lit(Test { left: Pool(Items { items: [Number(1), Number(2)] }), cmp: Ne, right: Pool(Items { items: [Number(3), Number(4), Number(5)] }) })",
    },
    Found {
        message: "an empty set",
        text: b"{}",
        tokens: 2,
        choices: 1,
        elements: 0,
        shown: "Set { negated: false, set: TextSet { left: None, elements: Seq { items: [] }, right: None } }",
    },
    Found {
        message: "a set with guards and conditions",
        text: b"1 {a;b:c,not d} 2",
        tokens: 12,
        choices: 1,
        elements: 0,
        shown: "Set { negated: false, set: TextSet { left: Some(TextGuard { cmp: Le, bound: Number(1) }), elements: Seq { items: [SetElement { atom: Function(Seq { items: [97] }, Items { items: [Items { items: [] }] }), conds: Seq { items: [] } }, SetElement { atom: Function(Seq { items: [98] }, Items { items: [Items { items: [] }] }), conds: Seq { items: [Positive(Function(Seq { items: [99] }, Items { items: [Items { items: [] }] })), Negated(Function(Seq { items: [100] }, Items { items: [Items { items: [] }] }))] } }] }, right: Some(TextGuard { cmp: Le, bound: Number(2) }) } }",
    },
    Found {
        message: "a set with signs at its guards, and a test as condition",
        text: b"1 < {a:2=3} >= 4",
        tokens: 11,
        choices: 1,
        elements: 0,
        shown: "Set { negated: false, set: TextSet { left: Some(TextGuard { cmp: Lt, bound: Number(1) }), elements: Seq { items: [SetElement { atom: Function(Seq { items: [97] }, Items { items: [Items { items: [] }] }), conds: Seq { items: [Test { left: Number(2), cmp: Eq, right: Number(3) }] } }] }, right: Some(TextGuard { cmp: Ge, bound: Number(4) }) } }",
    },
    Found {
        message: "a colon without conditions",
        text: b"not {a:}",
        tokens: 5,
        choices: 1,
        elements: 0,
        shown: "Set { negated: true, set: TextSet { left: None, elements: Seq { items: [SetElement { atom: Function(Seq { items: [97] }, Items { items: [Items { items: [] }] }), conds: Seq { items: [] } }] }, right: None } }",
    },
    Found {
        message: "tuples with and without conditions",
        text: b"#count{1,2:a;3}",
        tokens: 10,
        choices: 1,
        elements: 0,
        shown: "Agg { negated: false, agg: TextAgg { function: Count, left: None, elements: Seq { items: [AggElement { tuple: Items { items: [Number(1), Number(2)] }, conds: Seq { items: [Positive(Function(Seq { items: [97] }, Items { items: [Items { items: [] }] }))] } }, AggElement { tuple: Items { items: [Number(3)] }, conds: Seq { items: [] } }] }, right: None } }",
    },
    Found {
        message: "a sum of nothing",
        text: b"#sum{} > 4",
        tokens: 5,
        choices: 1,
        elements: 0,
        shown: "Agg { negated: false, agg: TextAgg { function: Sum, left: None, elements: Seq { items: [] }, right: Some(TextGuard { cmp: Gt, bound: Number(4) }) } }",
    },
    Found {
        message: "an aggregate with not",
        text: b"not 1 #sum{2:1<2} 3",
        tokens: 11,
        choices: 1,
        elements: 0,
        shown: "Agg { negated: true, agg: TextAgg { function: Sum, left: Some(TextGuard { cmp: Le, bound: Number(1) }), elements: Seq { items: [AggElement { tuple: Items { items: [Number(2)] }, conds: Seq { items: [Test { left: Number(1), cmp: Lt, right: Number(2) }] } }] }, right: Some(TextGuard { cmp: Le, bound: Number(3) }) } }",
    },
    Found {
        message: "pools in elements are copies of these, and those in guards are choices",
        text: b"(1;2) != #count{(3;4);(5;6):7=(8;9);0} == (1;2;3)",
        tokens: 38,
        choices: 6,
        elements: 6,
        shown: "Agg { negated: false, agg: TextAgg { function: Count, left: Some(TextGuard { cmp: Ne, bound: Pool(Items { items: [Number(1), Number(2)] }) }), elements: Seq { items: [AggElement { tuple: Items { items: [Pool(Items { items: [Number(3), Number(4)] })] }, conds: Seq { items: [] } }, AggElement { tuple: Items { items: [Pool(Items { items: [Number(5), Number(6)] })] }, conds: Seq { items: [Test { left: Number(7), cmp: Eq, right: Pool(Items { items: [Number(8), Number(9)] }) }] } }, AggElement { tuple: Items { items: [Number(0)] }, conds: Seq { items: [] } }] }, right: Some(TextGuard { cmp: Eq, bound: Pool(Items { items: [Number(1), Number(2), Number(3)] }) }) } }",
    },
];

const NO_BODY_PARTS: &[Refused] = &[
    Refused {
        message: "nothing",
        text: b"",
    },
    Refused {
        message: "not alone",
        text: b"not",
    },
    Refused {
        message: "not twice",
        text: b"not not a",
    },
    Refused {
        message: "a test with not",
        text: b"not 1 < 2",
    },
    Refused {
        message: "two comparisons",
        text: b"1 < 2 < 3",
    },
    Refused {
        message: "a comparison without a second term",
        text: b"1 <",
    },
    Refused {
        message: "a number",
        text: b"1",
    },
    Refused {
        message: "an interval",
        text: b"a..b",
    },
    Refused {
        message: "a semicolon without an element behind it",
        text: b"{a;}",
    },
    Refused {
        message: "a semicolon without an element before it",
        text: b"{;a}",
    },
    Refused {
        message: "a comma between elements",
        text: b"{a,b}",
    },
    Refused {
        message: "a comma behind conditions",
        text: b"{a:b,}",
    },
    Refused {
        message: "a literal as element of a set",
        text: b"{not a}",
    },
    Refused {
        message: "a set as condition",
        text: b"{a:{b}}",
    },
    Refused {
        message: "a brace that isn't closed",
        text: b"{a",
    },
    Refused {
        message: "two comparisons before a set",
        text: b"1 < < {a}",
    },
    Refused {
        message: "two sets",
        text: b"{a}{b}",
    },
    Refused {
        message: "a function without braces",
        text: b"#count 1",
    },
    Refused {
        message: "an empty tuple",
        text: b"#sum{:a}",
    },
    Refused {
        message: "a comma behind a tuple",
        text: b"#count{1,}",
    },
];

const HEADS: &[Found] = &[
    Found {
        message: "nothing at the end",
        text: b"",
        tokens: 0,
        choices: 1,
        elements: 0,
        shown: "Empty",
    },
    Found {
        message: "nothing before a body",
        text: b":- a.",
        tokens: 0,
        choices: 1,
        elements: 0,
        shown: "Empty",
    },
    Found {
        message: "an atom",
        text: b"a(1;2).",
        tokens: 6,
        choices: 2,
        elements: 0,
        shown: "Atom(Function(Seq { items: [97] }, Items { items: [Items { items: [Number(1)] }, Items { items: [Number(2)] }] }))",
    },
    Found {
        message: "a set",
        text: b"{a(1;2)} = 1 :- b.",
        tokens: 10,
        choices: 1,
        elements: 2,
        shown: "Set(TextSet { left: None, elements: Seq { items: [SetElement { atom: Function(Seq { items: [97] }, Items { items: [Items { items: [Number(1)] }, Items { items: [Number(2)] }] }), conds: Seq { items: [] } }] }, right: Some(TextGuard { cmp: Eq, bound: Number(1) }) })",
    },
];

const NO_HEADS: &[Refused] = &[
    Refused {
        message: "an atom with not",
        text: b"not a",
    },
    Refused {
        message: "a test",
        text: b"1 < 2",
    },
    Refused {
        message: "an aggregate",
        text: b"#count{}",
    },
    Refused {
        message: "a set with not",
        text: b"not {a}",
    },
    Refused {
        message: "two atoms",
        text: b"a b",
    },
];

/// What was found: how many tokens, choices and copies of elements it has, and how it is shown.
#[derive(Drop)]
struct Seen {
    counts: (usize, u32, u32),
    shown: String,
}

fn as_seen<T: Debug + Drop>(
    alloc: Global,
    found: Option<(Counted<T>, usize)>,
) -> Result<Option<Seen>, Fail> {
    let Some((part, tokens)) = found else {
        return Ok(None);
    };
    let shown = format!(in alloc; "{:?}", part.value)?;
    Ok(Some(Seen {
        counts: (tokens, part.choices, part.elements),
        shown,
    }))
}

fn atom(alloc: Global, text: &[u8]) -> Result<Option<Seen>, Fail> {
    let tokens = lex(alloc, text).ok().ok_or("the text has no tokens")?;
    as_seen(alloc, read_atom(alloc, text, tokens.as_slice())?)
}

fn body_part(alloc: Global, text: &[u8]) -> Result<Option<Seen>, Fail> {
    let tokens = lex(alloc, text).ok().ok_or("the text has no tokens")?;
    as_seen(alloc, read_body_part(alloc, text, tokens.as_slice())?)
}

fn head(alloc: Global, text: &[u8]) -> Result<Option<Seen>, Fail> {
    let tokens = lex(alloc, text).ok().ok_or("the text has no tokens")?;
    as_seen(alloc, read_head(alloc, text, tokens.as_slice())?)
}

#[test]
fn finds_atoms(rt: HostRuntime) -> Result<(), Fail> {
    for row in ATOMS {
        let seen = atom(rt.alloc(), row.text)?.ok_or(row.message)?;
        assert_eq!(rt;
            seen.counts,
            (row.tokens, row.choices, row.elements),
            "at {}",
            row.message
        );
        assert_eq!(rt; seen.shown.as_str(), row.shown, "at {}", row.message);
    }
    for row in NO_ATOMS {
        let found = atom(rt.alloc(), row.text)?;
        assert!(rt; found.is_none(), "at {}", row.message);
    }
    Ok(())
}

#[test]
fn finds_body_parts(rt: HostRuntime) -> Result<(), Fail> {
    for row in BODY_PARTS {
        let seen = body_part(rt.alloc(), row.text)?.ok_or(row.message)?;
        assert_eq!(rt;
            seen.counts,
            (row.tokens, row.choices, row.elements),
            "at {}",
            row.message
        );
        assert_eq!(rt; seen.shown.as_str(), row.shown, "at {}", row.message);
    }
    for row in NO_BODY_PARTS {
        let found = body_part(rt.alloc(), row.text)?;
        assert!(rt; found.is_none(), "at {}", row.message);
    }
    Ok(())
}

#[test]
fn finds_heads(rt: HostRuntime) -> Result<(), Fail> {
    for row in HEADS {
        let seen = head(rt.alloc(), row.text)?.ok_or(row.message)?;
        assert_eq!(rt;
            seen.counts,
            (row.tokens, row.choices, row.elements),
            "at {}",
            row.message
        );
        assert_eq!(rt; seen.shown.as_str(), row.shown, "at {}", row.message);
    }
    for row in NO_HEADS {
        let found = head(rt.alloc(), row.text)?;
        assert!(rt; found.is_none(), "at {}", row.message);
    }
    Ok(())
}

// So many names round a number, and what stands behind them.
fn nested(alloc: Global, count: usize, behind: &[u8]) -> Result<Vec<u8>, Fail> {
    let mut text = Vec::new(alloc);
    for _ in 0..count {
        text.extend_from_slice(b"f(")?;
    }
    text.push(b'1')?;
    for _ in 0..count {
        text.push(b')')?;
    }
    text.extend_from_slice(behind)?;
    Ok(text)
}

#[test]
fn keeps_limits(rt: HostRuntime) -> Result<(), Fail> {
    let rows = [
        (199, "", true, "an atom"),
        (
            200,
            "",
            true,
            "an atom whose arguments have the greatest height",
        ),
        (201, "", false, "an atom with higher arguments"),
        (199, "<1", true, "a test of a term of the greatest height"),
        (200, "<1", false, "a test of a higher term"),
        (200, "{a}", false, "a guard by a higher term"),
    ];
    for (count, behind, wanted, case) in rows {
        let text = nested(rt.alloc(), count, behind.as_bytes())?;
        let found = body_part(rt.alloc(), &text)?;
        assert_eq!(rt; found.is_some(), wanted, "{case}");
    }
    let mut text = b"{a(1;2)".to_vec(rt.alloc())?;
    for _ in 0..6_000 {
        text.extend_from_slice(b";a(1;2)")?;
    }
    text.push(b'}')?;
    let elements = body_part(rt.alloc(), &text)?.map(|seen| seen.counts.2);
    assert_eq!(rt; elements, Some(10_001), "copies of many elements");
    Ok(())
}
