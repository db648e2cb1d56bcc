// A script while it comes: what stands written where a read or a write fails, and how long scripts may be.
ghost use Rattle.std.specs.Prelude.{None, Some};

use ms_base::seq::{Bytes, Seq};
use ms_io::{Failed, MemSink, MemSource, NoSink, RepeatSource, Sink, Source};
use mshot::{Status, mshot};
use std::alloc::Global;
use std::test::Fail;

const ROOM: usize = 4096;

/// The commands of a script with an external, each with its reply and its lines of the log.
const STEPS: [(&str, &str, &str); 7] = [
    (
        "@add\n#external e. a :- e. b :- not e.\n@end\n",
        "added 3\n",
        "",
    ),
    (
        "@ground base\n",
        "grounded atoms=3 rules=2\n",
        "v a a\nv a b\nv a e\nv b 3\nv b -3\n",
    ),
    (
        "@solve all\n",
        "answer: b\ncomplete 1\n",
        "s -3\nm 2\nt -3\ne complete 1\n",
    ),
    ("@assign e true\n", "assigned\n", ""),
    (
        "@solve all\n",
        "answer: a e\ncomplete 1\n",
        "s 3\nm 1 3\nt 3\ne complete 1\n",
    ),
    ("@assign e free\n", "assigned\n", ""),
    (
        "@solve all\n",
        "answer: a e\nanswer: b\ncomplete 2\n",
        "s\nm 1 3\nt -5\nm 2\nt\ne complete 2\n",
    ),
];

fn words(alloc: Global, texts: &[&str]) -> Result<Vec<String>, Fail> {
    let mut list = Vec::new(alloc);
    for text in texts {
        list.push(String::from_str(alloc, text)?)?;
    }
    Ok(list)
}

/// The script.
fn script(alloc: Global) -> Result<Vec<u8>, Fail> {
    let mut bytes = Vec::new(alloc);
    for (command, _, _) in STEPS {
        bytes.extend_from_slice(command.as_bytes())?;
    }
    Ok(bytes)
}

/// The replies to the commands that end among the first bytes.
fn replies(alloc: Global, count: usize) -> Result<Vec<u8>, Fail> {
    let mut text = Vec::new(alloc);
    let mut left = count;
    for (command, reply, _) in STEPS {
        if left < command.len() {
            break;
        }
        left -= command.len();
        text.extend_from_slice(reply.as_bytes())?;
    }
    Ok(text)
}

/// A sink that keeps each piece by itself.
#[derive(Drop)]
struct Pieces {
    alloc: Global,
    pieces: Seq<Bytes>,
    faults: u64,
}

impl Sink for Pieces {
    ghost held = { λ _. None };

    ghost pieces = { λ s. Some s.pieces };

    ghost faults = { λ s. s.faults };

    fn put(&mut self, piece: &[u8]) -> Result<(), Failed> {
        let copied = Bytes::copied(self.alloc, piece);
        if let Ok(bytes) = copied {
            if self.pieces.push(bytes).is_ok() {
                return Ok(());
            }
        }
        self.faults = self.faults.saturating_add(1);
        Err(Failed)
    }
}

#[test]
fn a_read_may_fail_after_each_byte(rt: HostRuntime) -> Result<(), Fail> {
    let alloc = rt.alloc();
    let run = words(alloc, &["run"])?;
    let whole = script(alloc)?;
    for failing in 0..=whole.len() {
        let fails = [failing as u64].to_vec(alloc)?;
        let mut src = MemSource::new(script(alloc)?, 1, fails);
        let mut out = MemSink::new(alloc, ROOM, Vec::new(alloc))?;
        let status = mshot(alloc, &run, &mut src, &mut out, &mut NoSink);
        assert_eq!(rt; status, Status::ReadFault, "take {failing}");
        let wanted = replies(alloc, failing)?;
        assert_eq!(rt; out.bytes(), wanted.as_slice(), "take {failing}");
    }
    Ok(())
}

#[test]
fn pieces_may_have_any_length(rt: HostRuntime) -> Result<(), Fail> {
    let alloc = rt.alloc();
    let run = words(alloc, &["run"])?;
    let whole = script(alloc)?;
    let wanted = replies(alloc, whole.len())?;
    for chunk in 1..=whole.len() {
        let mut src = MemSource::new(script(alloc)?, chunk, Vec::new(alloc));
        let mut out = MemSink::new(alloc, ROOM, Vec::new(alloc))?;
        let status = mshot(alloc, &run, &mut src, &mut out, &mut NoSink);
        assert_eq!(rt; status, Status::Done, "pieces of {chunk}");
        assert_eq!(rt; out.bytes(), wanted.as_slice(), "pieces of {chunk}");
    }
    Ok(())
}

#[test]
fn each_write_may_fail(rt: HostRuntime) -> Result<(), Fail> {
    let alloc = rt.alloc();
    let run = words(alloc, &["log", "run"])?;
    let mut wanted = Vec::new(alloc);
    let mut told = Vec::new(alloc);
    for (failing, (_, reply, lines)) in STEPS.iter().enumerate() {
        let mut src = MemSource::new(script(alloc)?, 16, Vec::new(alloc));
        let mut out = MemSink::new(alloc, ROOM, [failing as u64].to_vec(alloc)?)?;
        let mut log = MemSink::new(alloc, ROOM, Vec::new(alloc))?;
        let status = mshot(alloc, &run, &mut src, &mut out, &mut log);
        told.extend_from_slice(lines.as_bytes())?;
        assert_eq!(rt; status, Status::WriteFault, "put {failing}");
        assert_eq!(rt; out.bytes(), wanted.as_slice(), "put {failing}");
        assert_eq!(rt; log.bytes(), told.as_slice(), "put {failing}");
        wanted.extend_from_slice(reply.as_bytes())?;
    }
    Ok(())
}

/// The lines of the log that a command has are one put, before its reply. Where it fails the call ends there.
#[test]
fn each_write_of_the_log_may_fail(rt: HostRuntime) -> Result<(), Fail> {
    let alloc = rt.alloc();
    let run = words(alloc, &["log", "run"])?;
    let mut replied = Vec::new(alloc);
    let mut told = Vec::new(alloc);
    let mut failing = 0_u64;
    for (_, reply, lines) in STEPS {
        if !lines.is_empty() {
            let mut src = MemSource::new(script(alloc)?, 16, Vec::new(alloc));
            let mut out = MemSink::new(alloc, ROOM, Vec::new(alloc))?;
            let mut log = MemSink::new(alloc, ROOM, [failing].to_vec(alloc)?)?;
            let status = mshot(alloc, &run, &mut src, &mut out, &mut log);
            assert_eq!(rt; status, Status::LogFault, "put {failing}");
            assert_eq!(rt; out.bytes(), replied.as_slice(), "put {failing}");
            assert_eq!(rt; log.bytes(), told.as_slice(), "put {failing}");
            failing = failing.saturating_add(1);
        }
        replied.extend_from_slice(reply.as_bytes())?;
        told.extend_from_slice(lines.as_bytes())?;
    }
    Ok(())
}

/// What a script that was cut off is answered.
#[derive(Drop)]
struct Cut {
    replies: Vec<u8>,
    status: Status,
}

/// The reply to a last line that is a front of a command, or to a text without its end.
fn front_reply(front: &[u8]) -> &'static str {
    if front.starts_with(b"@add") {
        "refused unfinished\n"
    } else if front.starts_with(b"@ground b") {
        // a part of which no text speaks
        "grounded atoms=0 rules=0\n"
    } else if front.is_empty() {
        ""
    } else {
        "refused command\n"
    }
}

/// What the first bytes of the script are answered, where it ends there.
fn cut_at(alloc: Global, end: usize) -> Result<Cut, Fail> {
    let mut text = Vec::new(alloc);
    let mut left = end;
    for (command, reply, _) in STEPS {
        let bytes = command.as_bytes();
        // the last line end may lack
        if left.saturating_add(1) < bytes.len() {
            let last = front_reply(&bytes[..left]);
            text.extend_from_slice(last.as_bytes())?;
            let status = if last.starts_with("refused") {
                Status::SomeRefused
            } else {
                Status::Done
            };
            return Ok(Cut {
                replies: text,
                status,
            });
        }
        text.extend_from_slice(reply.as_bytes())?;
        left = left.saturating_sub(bytes.len());
    }
    Ok(Cut {
        replies: text,
        status: Status::Done,
    })
}

#[test]
fn a_script_may_end_after_each_byte(rt: HostRuntime) -> Result<(), Fail> {
    let alloc = rt.alloc();
    let run = words(alloc, &["run"])?;
    let whole = script(alloc)?;
    for end in 0..=whole.len() {
        let bytes = Vec::from_slice(alloc, &whole.as_slice()[..end])?;
        let mut src = MemSource::new(bytes, 7, Vec::new(alloc));
        let mut out = MemSink::new(alloc, ROOM, Vec::new(alloc))?;
        let status = mshot(alloc, &run, &mut src, &mut out, &mut NoSink);
        let cut = cut_at(alloc, end)?;
        assert_eq!(rt; out.bytes(), cut.replies.as_slice(), "{end} bytes");
        assert_eq!(rt; status, cut.status, "{end} bytes");
    }
    Ok(())
}

/// A reply is put before the next line is taken: where a put fails, what follows its line is still there.
#[test]
fn what_follows_is_not_taken(rt: HostRuntime) -> Result<(), Fail> {
    let alloc = rt.alloc();
    let run = words(alloc, &["run"])?;
    let mut src = MemSource::new(script(alloc)?, 1, Vec::new(alloc));
    let mut out = MemSink::new(alloc, ROOM, [1].to_vec(alloc)?)?;
    let status = mshot(alloc, &run, &mut src, &mut out, &mut NoSink);
    assert_eq!(rt; status, Status::WriteFault);
    let mut left = Vec::new(alloc);
    let mut byte = [0];
    for _ in 0..ROOM {
        if let Ok(count) = src.take(&mut byte) {
            left.extend_from_slice(&byte[..count])?;
        }
    }
    let mut after = Vec::new(alloc);
    for (command, _, _) in STEPS.iter().skip(2) {
        after.extend_from_slice(command.as_bytes())?;
    }
    assert_eq!(rt; left.as_slice(), after.as_slice());
    Ok(())
}

/// The lines of the log: each thing that a grounding brings is declared once, behind what it is made of.
#[test]
fn things_are_declared_once(rt: HostRuntime) -> Result<(), Fail> {
    let alloc = rt.alloc();
    let run = words(alloc, &["log", "run"])?;
    let rows = [
        (
            "two rules",
            "@add\na :- not b. b :- not a.\n@end\n@ground base\n@solve all\n",
            "v a a\nv a b\nv b -2\nv b -1\ns\nm 1\nt -4\nm 2\nt\ne complete 2\n",
        ),
        (
            "a body that two rules and two modules have",
            "@add\n{a; b}. c :- a, not b. d :- not b, a. #program late. e :- a, not b.\n@end\n@ground base\n@ground late\n@ground base\n",
            "v a a\nv a b\nv a c\nv a d\nv b 1 -2\nv b\nv a e\n",
        ),
        (
            "a module that is refused",
            "@add\na. #program late. b :- a. a.\n@end\n@ground base\n@ground late\n",
            "v a a\nv b\n",
        ),
    ];
    for (name, script, told) in rows {
        let bytes = Vec::from_slice(alloc, script.as_bytes())?;
        let mut src = MemSource::new(bytes, 16, Vec::new(alloc));
        let mut log = MemSink::new(alloc, ROOM, Vec::new(alloc))?;
        let _ = mshot(alloc, &run, &mut src, &mut NoSink, &mut log);
        assert_eq!(rt; log.bytes(), told.as_bytes(), "{name}");
    }
    Ok(())
}

#[test]
fn each_reply_is_one_piece(rt: HostRuntime) -> Result<(), Fail> {
    let alloc = rt.alloc();
    let run = words(alloc, &["run"])?;
    let mut src = MemSource::new(script(alloc)?, 5, Vec::new(alloc));
    let mut out = Pieces {
        alloc,
        pieces: Seq::new(alloc),
        faults: 0,
    };
    let status = mshot(alloc, &run, &mut src, &mut out, &mut NoSink);
    assert_eq!(rt; status, Status::Done);
    assert_eq!(rt; out.pieces.len(), STEPS.len());
    for (piece, (_, reply, _)) in out.pieces.as_slice().iter().zip(STEPS.iter()) {
        assert_eq!(rt; piece.as_slice(), reply.as_bytes());
    }
    Ok(())
}

#[test]
fn as_many_bytes_as_an_input_may_have(rt: HostRuntime) -> Result<(), Fail> {
    let alloc = rt.alloc();
    let run = words(alloc, &["run"])?;
    for (left, wanted) in [(1 << 30, Status::Done), ((1 << 30) + 1, Status::TooLong)] {
        let mut src = RepeatSource::new(b'\n', left);
        let mut out = MemSink::new(alloc, 0, Vec::new(alloc))?;
        let status = mshot(alloc, &run, &mut src, &mut out, &mut NoSink);
        assert_eq!(rt; status, wanted, "{left} line ends");
        assert_eq!(rt; out.bytes(), b"".as_slice(), "{left} line ends");
    }
    Ok(())
}
