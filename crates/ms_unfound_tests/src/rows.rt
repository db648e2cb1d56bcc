// Programs with loops: what the theory says of a trail, and which answer sets the search finds.
use crate::module::TinyRule::{Choice, From, FromInput};
use crate::module::{Head, TinyRule};
use ms_lits::Lit;

const A: Head = Head::A;

const B: Head = Head::B;

const C: Head = Head::C;

const A_HOLDS: Lit = Lit {
    var: 0,
    truth: true,
};

const A_FAILS: Lit = Lit {
    var: 0,
    truth: false,
};

const B_FAILS: Lit = Lit {
    var: 1,
    truth: false,
};

const C_FAILS: Lit = Lit {
    var: 2,
    truth: false,
};

const INPUT_FAILS: Lit = Lit {
    var: 3,
    truth: false,
};

const FIRST_FAILS: Lit = Lit {
    var: 4,
    truth: false,
};

const SECOND_FAILS: Lit = Lit {
    var: 5,
    truth: false,
};

const THIRD_HOLDS: Lit = Lit {
    var: 6,
    truth: true,
};

const THIRD_FAILS: Lit = Lit {
    var: 6,
    truth: false,
};

const FOURTH_FAILS: Lit = Lit {
    var: 7,
    truth: false,
};

/// What the theory says of a trail with these literals: a nogood, its literals numbered from 1, or `quiet`. Atoms have the
/// numbers 0 to 3, and bodies those from 4 on, in the
/// order of the rules: the first, the second and so on.
#[derive(Clone, Copy)]
pub(crate) struct Said {
    pub message: &'static str,
    pub rules: &'static [TinyRule],
    pub trail: &'static [Lit],
    pub says: &'static str,
}

/// The answer sets under assumptions, and those of the completion alone. Each is its true atoms in braces.
#[derive(Clone, Copy)]
pub(crate) struct Solved {
    pub message: &'static str,
    pub rules: &'static [TinyRule],
    pub assume: &'static [Lit],
    pub answers: &'static str,
    pub completion: &'static str,
}

/// a :- a.
const SELF_LOOP: &[TinyRule] = &[From(A, A)];

/// a :- b. b :- a.
const LOOP: &[TinyRule] = &[From(A, B), From(B, A)];

/// a :- b. b :- a. { a }.
pub(crate) const CHOSEN: &[TinyRule] = &[From(A, B), From(B, A), Choice(A)];

/// { c }. a :- b. b :- a. a :- c.
const OUTSIDE: &[TinyRule] = &[Choice(C), From(A, B), From(B, A), From(A, C)];

/// a :- b. b :- a. b :- i.
const INPUT: &[TinyRule] = &[From(A, B), From(B, A), FromInput(B)];

/// a :- b. b :- a. b :- c. c :- b. c :- i.
const TWO: &[TinyRule] = &[From(A, B), From(B, A), From(B, C), From(C, B), FromInput(C)];

/// a :- b. { b }.
const NO_LOOP: &[TinyRule] = &[From(A, B), Choice(B)];

const NO_INPUT: &[Lit] = &[INPUT_FAILS];

pub(crate) const SAID: &[Said] = &[
    Said {
        message: "a loop of one atom, on the empty trail",
        rules: SELF_LOOP,
        trail: &[],
        says: "1",
    },
    Said {
        message: "a loop of one atom that holds",
        rules: SELF_LOOP,
        trail: &[A_HOLDS],
        says: "1",
    },
    Said {
        message: "a loop of one atom that is false",
        rules: SELF_LOOP,
        trail: &[A_FAILS],
        says: "quiet",
    },
    Said {
        message: "a loop, on the empty trail",
        rules: LOOP,
        trail: &[],
        says: "1",
    },
    Said {
        message: "a loop that a choice supports, on the empty trail",
        rules: CHOSEN,
        trail: &[],
        says: "quiet",
    },
    Said {
        message: "a loop that a choice supports",
        rules: CHOSEN,
        trail: &[THIRD_HOLDS],
        says: "quiet",
    },
    Said {
        message: "a loop that loses its support before the trail is total",
        rules: CHOSEN,
        trail: &[THIRD_FAILS],
        says: "1 -7",
    },
    Said {
        message: "a loop of which one atom is left",
        rules: CHOSEN,
        trail: &[THIRD_FAILS, A_FAILS],
        says: "2 -7",
    },
    Said {
        message: "a loop whose atoms are false",
        rules: CHOSEN,
        trail: &[THIRD_FAILS, A_FAILS, B_FAILS],
        says: "quiet",
    },
    Said {
        message: "a loop that an input supports",
        rules: INPUT,
        trail: &[],
        says: "quiet",
    },
    Said {
        message: "a loop whose input is false, through its body",
        rules: INPUT,
        trail: &[INPUT_FAILS, THIRD_FAILS],
        says: "1 -7",
    },
    Said {
        message: "two loops in one component, on the empty trail",
        rules: TWO,
        trail: &[],
        says: "quiet",
    },
    Said {
        message: "two loops in one component: one lacks support by the other",
        rules: TWO,
        trail: &[THIRD_FAILS],
        says: "1 -7",
    },
    Said {
        message: "two loops in one component: both lack support",
        rules: TWO,
        trail: &[FOURTH_FAILS],
        says: "1 -8",
    },
    Said {
        message: "no cycle",
        rules: NO_LOOP,
        trail: &[A_HOLDS, FIRST_FAILS, SECOND_FAILS],
        says: "quiet",
    },
];

pub(crate) const SOLVED: &[Solved] = &[
    Solved {
        message: "a loop of one atom",
        rules: SELF_LOOP,
        assume: NO_INPUT,
        answers: "{}",
        completion: "{}{a}",
    },
    Solved {
        message: "a loop",
        rules: LOOP,
        assume: NO_INPUT,
        answers: "{}",
        completion: "{}{ab}",
    },
    Solved {
        message: "a loop with a choice outside",
        rules: OUTSIDE,
        assume: NO_INPUT,
        answers: "{}{abc}",
        completion: "{}{ab}{abc}",
    },
    Solved {
        message: "a loop with a choice outside that isn't made",
        rules: OUTSIDE,
        assume: &[INPUT_FAILS, C_FAILS],
        answers: "{}",
        completion: "{}{ab}",
    },
    Solved {
        message: "a loop that an input supports",
        rules: INPUT,
        assume: &[],
        answers: "{}{abi}",
        completion: "{}{ab}{abi}",
    },
    Solved {
        message: "two loops in one component",
        rules: TWO,
        assume: &[],
        answers: "{}{abci}",
        completion: "{}{abc}{abci}",
    },
    Solved {
        message: "no cycle",
        rules: NO_LOOP,
        assume: NO_INPUT,
        answers: "{}{ab}",
        completion: "{}{ab}",
    },
];
