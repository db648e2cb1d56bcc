// Programs with their things and their completion nogoods.
use Row::{Choice, Constraint, Normal};

/// A rule over the atoms a to d, which are numbered from 0: its head, and the positive and the negated atoms of its body.
#[derive(Clone, Copy)]
pub enum Row {
    Normal(u32, &'static [u32], &'static [u32]),
    Choice(u32, &'static [u32], &'static [u32]),
    Constraint(&'static [u32], &'static [u32]),
}

/// A module with so many new atoms.
#[derive(Clone, Copy)]
pub struct Part {
    pub fresh: u32,
    pub rules: &'static [Row],
    pub externals: &'static [u32],
    pub heads: &'static [u32],
}

/// Modules that are joined one after the other. `lines` declare their things, and `nogoods` has those of their completion,
/// sorted. Both number the things from 1, and end each line by a semicolon.
#[derive(Clone, Copy)]
pub struct Program {
    pub message: &'static str,
    pub parts: &'static [Part],
    pub lines: &'static str,
    pub nogoods: &'static str,
}

/// {c}. a :- b. b :- a. a :- c.
pub const LOOP: Part = Part {
    fresh: 3,
    rules: &[
        Normal(0, &[1], &[]),
        Normal(0, &[2], &[]),
        Normal(1, &[0], &[]),
        Choice(2, &[], &[]),
    ],
    externals: &[],
    heads: &[0, 1, 2],
};

pub const PROGRAMS: &[Program] = &[
    Program {
        message: "nothing",
        parts: &[],
        lines: "",
        nogoods: "",
    },
    Program {
        message: "a fact: its body is empty",
        parts: &[Part {
            fresh: 1,
            rules: &[Normal(0, &[], &[])],
            externals: &[],
            heads: &[0],
        }],
        lines: "a a;b;",
        nogoods: "-1 2;1 -2;-2;",
    },
    Program {
        message: "a head whose rule was left out",
        parts: &[Part {
            fresh: 1,
            rules: &[],
            externals: &[],
            heads: &[0],
        }],
        lines: "a a;",
        nogoods: "1;",
    },
    Program {
        message: "a :- not b. b :- not a.",
        parts: &[Part {
            fresh: 2,
            rules: &[Normal(0, &[], &[1]), Normal(1, &[], &[0])],
            externals: &[],
            heads: &[0, 1],
        }],
        lines: "a a;a b;b -2;b -1;",
        nogoods: "-1 3;-1 -4;1 -3;1 4;-2 -3;-2 4;2 3;2 -4;",
    },
    Program {
        message: "{c}. a :- b. b :- a. a :- c.",
        parts: &[LOOP],
        lines: "a a;a b;a c;b 2;b 3;b 1;b;",
        nogoods: "-1 4;-1 5;-1 6;1 -4 -5;1 -6;-2 4;-2 6;2 -4;2 -6;-3 5;3 -5;3 -7;-7;",
    },
    Program {
        message: "{a}. :- a, not a. The body itself gives no nogood of all its parts",
        parts: &[Part {
            fresh: 1,
            rules: &[Choice(0, &[], &[]), Constraint(&[0], &[0])],
            externals: &[],
            heads: &[0],
        }],
        lines: "a a;b;b 1 -1;",
        nogoods: "-1 3;1 -2;1 3;-2;3;",
    },
    Program {
        message: "#external e. a :- e. b :- not e. Later e :- not f. {f}.",
        parts: &[
            Part {
                fresh: 3,
                rules: &[Normal(0, &[2], &[]), Normal(1, &[], &[2])],
                externals: &[2],
                heads: &[0, 1],
            },
            Part {
                fresh: 1,
                rules: &[Normal(2, &[], &[3]), Choice(3, &[], &[])],
                externals: &[],
                heads: &[2, 3],
            },
        ],
        lines: "a a;a b;a c;b 3;b -3;a d;b -6;b;",
        nogoods: "-1 4;1 -4;-2 5;2 -5;-3 4;-3 -5;-3 7;3 -4;3 5;3 -7;-6 -7;6 7;6 -8;-8;",
    },
    Program {
        message: "#external b. a :- b. Later :- b. :- b, not a. The body of the first is there already",
        parts: &[
            Part {
                fresh: 2,
                rules: &[Normal(0, &[1], &[])],
                externals: &[1],
                heads: &[0],
            },
            Part {
                fresh: 0,
                rules: &[Constraint(&[1], &[]), Constraint(&[1], &[0])],
                externals: &[],
                heads: &[],
            },
        ],
        lines: "a a;a b;b 2;b -1 2;",
        nogoods: "-1 2 -4;-1 3;1 -3;1 4;-2 3;-2 4;2 -3;3;4;",
    },
];
