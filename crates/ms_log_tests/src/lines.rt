use ms_base::seq::{Bytes, Seq};
use ms_lits::{Lit, Lits, Note, Numbers};
use ms_log::{read, write};
use std::alloc::Global;
use std::test::Fail;

/// A kind of note with its parts, where things are numbered from 0 and a literal is its thing with its sign.
#[derive(Clone, Copy)]
enum Row {
    Atom(&'static str),
    Body(&'static [(u32, bool)]),
    Tuple(&'static str, &'static [u32]),
    Aggregate(&'static str, &'static [u32]),
    Start(bool, &'static [(u32, bool)]),
    Theory(&'static [(u32, bool)]),
    Kept(&'static [(u32, bool)]),
    Temporary(&'static [(u32, bool)]),
    Answer(&'static [u32]),
    Finish(&'static str),
}

/// Notes of each kind, and their lines.
const LINES: &[(Row, &str)] = &[
    (Row::Atom("a"), "v a a\n"),
    (Row::Atom("p(\"x : y\",-1)"), "v a p(\"x : y\",-1)\n"),
    (Row::Body(&[]), "v b\n"),
    (Row::Body(&[(1, false)]), "v b -2\n"),
    (Row::Body(&[(2, true), (2, false)]), "v b 3 -3\n"),
    (Row::Tuple("1 a", &[2, 3]), "v t 1 a : 3 4\n"),
    (Row::Tuple("\" : 5\"", &[]), "v t \" : 5\" :\n"),
    (Row::Aggregate("count", &[]), "v g count :\n"),
    (
        Row::Aggregate("count >=2 <=n", &[4]),
        "v g count >=2 <=n : 5\n",
    ),
    (
        Row::Aggregate("sum >\":\"", &[4, 9]),
        "v g sum >\":\" : 5 10\n",
    ),
    (Row::Start(false, &[]), "s\n"),
    (Row::Start(true, &[]), "s 0\n"),
    (Row::Start(false, &[(0, true), (1, false)]), "s 1 -2\n"),
    (Row::Start(true, &[(99, true)]), "s 0 100\n"),
    (Row::Theory(&[(0, true)]), "x 1\n"),
    (Row::Kept(&[(0, false), (9, true)]), "k -1 10\n"),
    (Row::Temporary(&[]), "t\n"),
    (Row::Temporary(&[(4294967295, false)]), "t -4294967296\n"),
    (Row::Answer(&[]), "m\n"),
    (Row::Answer(&[0, 4294967295]), "m 1 4294967296\n"),
    (Row::Finish("complete 2"), "e complete 2\n"),
    (Row::Finish("cut 0 limit=7"), "e cut 0 limit=7\n"),
];

/// Lines of no note.
const NO_LINES: &[(&str, &str)] = &[
    ("nothing", ""),
    ("an empty line", "\n"),
    ("no line end", "s 1"),
    ("two lines", "s\ns\n"),
    ("a line end inside", "v a a\nb\n"),
    ("an unknown letter", "w 1\n"),
    ("an unknown declaration", "v c a\n"),
    ("no letter behind the v", "v\n"),
    ("an atom without a text", "v a \n"),
    ("an atom without a space", "v aa\n"),
    ("an ending without a text", "e\n"),
    ("a space at the end", "k 1 \n"),
    ("two spaces", "k 1  2\n"),
    ("no space", "k1\n"),
    ("a tab", "k\t1\n"),
    ("a carriage return", "k 1\r\n"),
    ("a leading zero", "k 01\n"),
    ("zero", "k 0\n"),
    ("a zero behind others", "s 1 0\n"),
    ("two zeros", "s 0 0\n"),
    ("a plus sign", "k +1\n"),
    ("two minus signs", "k --1\n"),
    ("a minus sign alone", "k -\n"),
    ("a letter among digits", "k 1a\n"),
    ("a number that is too large", "k 4294967297\n"),
    ("a number far too large", "k 99999999999999999999999\n"),
    ("a sign in an answer", "m -1\n"),
    ("a tuple without a colon", "v t a 1\n"),
    ("a tuple without terms", "v t : 1\n"),
    ("no space before the colon", "v t a: 1\n"),
    ("no space behind the colon", "v t a :1\n"),
    ("a sign in a tuple", "v t a : -1\n"),
    ("an unknown function", "v g max : 1\n"),
    ("a longer name", "v g counter : 1\n"),
];

/// The literals of a row.
fn lits_of(alloc: Global, row: &[(u32, bool)]) -> Result<Lits, Fail> {
    let mut lits = Seq::new(alloc);
    for (var, truth) in row {
        lits.push(Lit {
            var: *var,
            truth: *truth,
        })?;
    }
    Ok(lits)
}

fn numbers_of(alloc: Global, row: &[u32]) -> Result<Numbers, Fail> {
    Ok(Seq::copied(alloc, row)?)
}

fn bytes_of(alloc: Global, text: &str) -> Result<Bytes, Fail> {
    Ok(Seq::copied(alloc, text.as_bytes())?)
}

fn note_of(alloc: Global, row: Row) -> Result<Note, Fail> {
    Ok(match row {
        Row::Atom(text) => Note::Atom(bytes_of(alloc, text)?),
        Row::Body(lits) => Note::Body(lits_of(alloc, lits)?),
        Row::Tuple(text, numbers) => {
            Note::Tuple(bytes_of(alloc, text)?, numbers_of(alloc, numbers)?)
        }
        Row::Aggregate(text, numbers) => {
            Note::Aggregate(bytes_of(alloc, text)?, numbers_of(alloc, numbers)?)
        }
        Row::Start(outside, lits) => Note::Start(outside, lits_of(alloc, lits)?),
        Row::Theory(lits) => Note::Theory(lits_of(alloc, lits)?),
        Row::Kept(lits) => Note::Kept(lits_of(alloc, lits)?),
        Row::Temporary(lits) => Note::Temporary(lits_of(alloc, lits)?),
        Row::Answer(numbers) => Note::Answer(numbers_of(alloc, numbers)?),
        Row::Finish(text) => Note::Finish(bytes_of(alloc, text)?),
    })
}

#[test]
fn each_kind_of_note_has_its_line(rt: HostRuntime) -> Result<(), Fail> {
    for (row, line) in LINES {
        let note = note_of(rt.alloc(), *row)?;
        let mut written = Vec::new(rt.alloc());
        write(&note, &mut written)?;
        assert_eq!(rt; written.as_slice(), line.as_bytes(), "{line}");
        assert_eq!(rt; read(rt.alloc(), line.as_bytes())?, Some(note), "{line}");
    }
    Ok(())
}

#[test]
fn lines_are_appended(rt: HostRuntime) -> Result<(), Fail> {
    let mut log = Vec::new(rt.alloc());
    for (row, _line) in &LINES[..3] {
        write(&note_of(rt.alloc(), *row)?, &mut log)?;
    }
    assert_eq!(rt;
        log.as_slice(),
        b"v a a\nv a p(\"x : y\",-1)\nv b\n".as_slice()
    );
    Ok(())
}

#[test]
fn other_lines_are_of_no_note(rt: HostRuntime) -> Result<(), Fail> {
    for (message, line) in NO_LINES {
        assert_eq!(rt; read(rt.alloc(), line.as_bytes())?, None, "{message}");
    }
    Ok(())
}
