// Lists of watches, linked in one vector.
ghost use Rattle.std.specs.Prelude.{◌≡◌, ◌<◌, [], OnOk, IfSome, IfNone, length};
ghost use Rattle.ms_watch.specs.declared.lists.Watch.{Watch};
ghost use Rattle.ms_watch.specs.Links.{HasFront, IsGrown, relinked, swapped, added};

use ms_lits::{Lit, OutOfMemory};
use std::alloc::Global;
use std::marker::Model;

/// The key of a nogood, and a literal of it that is looked at before the nogood is.
#[derive(Clone, Copy, Debug, PartialEq, Eq)]
pub(crate) struct Watch {
    pub key: usize,
    pub blocker: Lit,
}

/// A watch with what is behind it: 0 at the end, and else one more than the place of a node.
#[derive(Clone, Copy, Debug, PartialEq, Eq)]
struct Node {
    watch: Watch,
    next: usize,
}

/// Lists of watches under numbers. Each node is in one list, so that a watch goes from list to list without taking
/// memory.
#[derive(Debug, Drop)]
pub(crate) struct Lists {
    /// For each list 0 where it is empty, and else one more than the place of its first node.
    heads: Vec<usize>,
    nodes: Vec<Node>,
}

impl Model for Lists {
    ghost use Rattle.ms_watch.specs.Links.{Links};

    ghost Value = { Links };

    ghost view = { λ l. record { heads = l.heads.items; nodes = l.nodes.items } };
}

impl Lists {
    /// No lists.
    pub fn new(alloc: Global) -> Lists
        ensures heads { result.heads ≡ [] }
        ensures nodes { result.nodes ≡ [] }
    {
        Lists {
            heads: Vec::new(alloc),
            nodes: Vec::new(alloc),
        }
    }

    /// The number of lists.
    pub fn len(&self) -> usize
        ensures { result ≡ length self.now.heads }
    {
        self.heads.len()
    }

    /// Makes so many lists, where there are fewer.
    pub fn grow(&mut self, count: usize) -> Result<(), OutOfMemory>
        ensures { OnOk result (IsGrown self.old self.new count) }
    {
        if count > self.heads.len() {
            self.heads.resize(count, 0)?;
        }
        Ok(())
    }

    /// The first watch of a list.
    pub fn front(&self, list: usize) -> Option<Watch>
        ensures some { IfSome result (HasFront self.now list) }
        ensures none { IfNone result ((first : Watch) → ¬ HasFront self.now list first) }
    {
        let node = self.heads.get(list)?.checked_sub(1)?;
        Some(self.nodes.get(node)?.watch)
    }

    /// Puts a new watch in front of a list.
    pub fn add(&mut self, list: usize, watch: Watch) -> Result<(), OutOfMemory>
        requires { list < length self.old.heads }
        ensures { OnOk result (self.new ≡ added self.old list watch) }
    {
        let next = self.heads[list];
        self.nodes.push(Node { watch, next })?;
        self.heads[list] = self.nodes.len();
        Ok(())
    }

    /// Takes the first watch out of a list, and puts this one in front of another instead.
    pub fn relink(&mut self, from: usize, to: usize, watch: Watch)
        requires front { (first : Watch) × HasFront self.old from first }
        requires there { to < length self.old.heads }
        ensures { self.new ≡ relinked self.old from to watch }
    {
        let head = self.heads[from];
        let place = head - 1;
        self.heads[from] = self.nodes[place].next;
        self.nodes[place] = Node {
            watch,
            next: self.heads[to],
        };
        self.heads[to] = head;
    }

    /// Exchanges two lists.
    pub fn swap(&mut self, one: usize, other: usize)
        requires one { one < length self.old.heads }
        requires other { other < length self.old.heads }
        ensures { self.new ≡ swapped self.old one other }
    {
        self.heads.swap(one, other);
    }
}
