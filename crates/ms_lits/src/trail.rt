// A set of entries with the place of each variable, so that no call but `grow` takes memory.
ghost use Rattle.std.specs.Prelude.{◌≡◌, ◌<◌, ◌≤◌, ◌∷◌, ◌++◌, [], length, max, option_map, slice_get, Some, None, OnOk, OnErr, IsSome, take, ◌+◌, ℕ};
ghost use Rattle.ms_lits.specs.Assignment.{IsAssignment, entry_of, place_in, value_in, up_to, entry_made};
ghost use Rattle.ms_lits.specs.Storage.{mark_for, truth_of};

use crate::lit::Lit;
use ms_base::memory::OutOfMemory;
use std::alloc::Global;
use std::marker::Model;

/// A literal of the trail, the level at which it was assigned, and the key of the nogood that forced it.
#[derive(Clone, Copy, Debug, PartialEq, Eq)]
pub struct Entry {
    pub lit: Lit,
    pub level: u32,
    pub reason: Option<usize>,
}

/// The value of a variable in one byte.
#[derive(Clone, Copy, Debug, PartialEq, Eq)]
#[repr(u8)]
enum Mark {
    Free,
    Negative,
    Positive,
}

impl Mark {
    fn new(truth: bool) -> Mark
        ensures { result ≡ mark_for truth }
    {
        if truth {
            Mark::Positive
        } else {
            Mark::Negative
        }
    }

    fn truth(self) -> Option<bool>
        ensures { result ≡ truth_of self }
    {
        match self {
            Mark::Free => None,
            Mark::Negative => Some(false),
            Mark::Positive => Some(true),
        }
    }
}

/// A partial assignment by levels: literals in the order in which they were assigned, no two of one
/// variable. Variables in calls are below the room. Only `grow` takes memory.
#[derive(Debug, Drop)]
pub struct Trail {
    room: u32,
    entries: Vec<Entry>,
    /// For each variable the place of its entry, where it has one.
    places: Vec<u32>,
    marks: Vec<Mark>,
    /// For each level below the present one the number of entries up to it.
    ends: Vec<u32>,
}

impl Model for Trail {
    ghost use Rattle.std.specs.Prelude.{vec_capacity};
    ghost use Rattle.ms_lits.specs.Assignment.{Assignment};
    ghost use Rattle.ms_lits.specs.Storage.{IsTrail, assignment_in};

    ghost Value = { Assignment };

    ghost view = { λ t. assignment_in t.entries.items t.ends.items t.room };

    ghost invariant = { λ t. IsTrail t.room t.entries.items t.places.items t.marks.items t.ends.items (vec_capacity t.entries) (vec_capacity t.ends) };
}

impl Trail {
    /// An empty trail without room.
    pub fn new(alloc: Global) -> Trail
        ensures entries { result.entries ≡ [] }
        ensures level { result.level ≡ 0 }
        ensures room { result.room ≡ 0 }
    {
        Trail {
            room: 0,
            entries: Vec::new(alloc),
            places: Vec::new(alloc),
            marks: Vec::new(alloc),
            ends: Vec::new(alloc),
        }
    }

    /// Makes room for so many variables, or keeps the room where it is greater.
    pub fn grow(&mut self, vars: u32) -> Result<(), OutOfMemory>
        requires { self.old.entries ≡ [] }
        ensures ok { OnOk result (self.new ≡ record self.old { room = max self.old.room vars }) }
        ensures err { OnErr result (self.new ≡ self.old) }
    {
        if vars <= self.room {
            return Ok(());
        }
        let count = vars as usize;
        self.places.resize(count, 0)?;
        self.entries.reserve(count)?;
        self.ends.reserve(count)?;
        self.marks.resize(count, Mark::Free)?;
        self.room = vars;
        Ok(())
    }

    /// The number of variables for which there is room.
    pub fn room(&self) -> u32
        ensures { result ≡ self.now.room }
    {
        self.room
    }

    /// The truth of a variable, where it is assigned.
    pub fn value(&self, var: u32) -> Option<bool>
        requires { var < self.now.room }
        ensures { result ≡ value_in self.now.entries var }
    {
        self.marks[var as usize].truth()
    }

    /// Assigns an unassigned variable at the present level.
    pub fn assign(&mut self, lit: Lit, reason: Option<usize>)
        requires room { lit.var < self.old.room }
        requires unassigned { entry_of self.old.entries lit.var ≡ None }
        ensures { self.new ≡ record self.old { entries = self.old.entries ++ entry_made lit self.old.level reason ∷ [] } }
    {
        let var = lit.var as usize;
        let level = self.ends.len() as u32;
        self.places[var] = self.entries.len() as u32;
        self.marks[var] = Mark::new(lit.truth);
        let entry = Entry { lit, level, reason };
        match self.entries.push(entry) {
            Ok(()) => (),
            Err(_) => unreachable!(),
        }
    }

    /// Begins a new level.
    pub fn push_level(&mut self)
        requires { self.old.level < self.old.room }
        ensures { self.new ≡ record self.old { level = self.old.level + 1 } }
    {
        let end = self.entries.len() as u32;
        match self.ends.push(end) {
            Ok(()) => (),
            Err(_) => unreachable!(),
        }
    }

    /// The present level.
    pub fn level(&self) -> u32
        ensures { result ≡ self.now.level }
    {
        self.ends.len() as u32
    }

    /// The level at which an assigned variable was assigned.
    pub fn level_of(&self, var: u32) -> u32
        requires room { var < self.now.room }
        requires assigned { IsSome (entry_of self.now.entries var) }
        ensures { option_map (λ e. e.level) (entry_of self.now.entries var) ≡ Some result }
    {
        self.entries[self.places[var as usize] as usize].level
    }

    /// The key that an assigned variable was assigned with.
    pub fn reason(&self, var: u32) -> Option<usize>
        requires room { var < self.now.room }
        requires assigned { IsSome (entry_of self.now.entries var) }
        ensures { option_map (λ e. e.reason) (entry_of self.now.entries var) ≡ Some result }
    {
        self.entries[self.places[var as usize] as usize].reason
    }

    /// The place of an assigned variable's literal.
    pub fn place_of(&self, var: u32) -> usize
        requires room { var < self.now.room }
        requires assigned { IsSome (entry_of self.now.entries var) }
        ensures place { result ≡ place_in self.now.entries var }
        ensures within { result < length self.now.entries }
    {
        self.places[var as usize] as usize
    }

    /// Goes back to a level that isn't above the present one, and keeps the literals up to it.
    pub fn back_to(&mut self, level: u32)
        requires { level ≤ self.old.level }
        ensures kept { self.new ≡ record self.old { level = level; entries = up_to level self.old.entries } }
        ensures front { self.new.entries ≡ take (length self.new.entries) self.old.entries }
    {
        let depth = level as usize;
        if depth == self.ends.len() {
            return;
        }
        let end = self.ends[depth] as usize;
        while self.entries.len() > end {
            if let Some(entry) = self.entries.pop() {
                self.marks[entry.lit.var as usize] = Mark::Free;
            }
        }
        self.ends.truncate(depth);
    }

    /// Empties the trail, level 0 included, and keeps the room.
    pub fn clear(&mut self)
        ensures { self.new ≡ record self.old { level = 0; entries = [] } }
    {
        self.ends.clear();
        while let Some(entry) = self.entries.pop() {
            self.marks[entry.lit.var as usize] = Mark::Free;
        }
    }

    /// The number of literals.
    pub fn len(&self) -> usize
        ensures len { result ≡ length self.now.entries }
        ensures assignment { IsAssignment self.now }
        // While a variable is unassigned, there are fewer literals than variables.
        ensures fewer { (var : ℕ) → var < self.now.room → value_in self.now.entries var ≡ None → result < self.now.room }
    {
        self.entries.len()
    }

    /// The literal in a place.
    pub fn at(&self, i: usize) -> Lit
        requires { i < length self.now.entries }
        ensures { option_map (λ e. e.lit) (slice_get self.now.entries i) ≡ Some result }
    {
        self.entries[i].lit
    }

    /// The literal in a place, with its level and its reason.
    pub fn entry(&self, i: usize) -> Entry
        requires { i < length self.now.entries }
        ensures { slice_get self.now.entries i ≡ Some result }
    {
        self.entries[i]
    }
}
