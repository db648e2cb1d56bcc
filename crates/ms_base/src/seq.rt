ghost use Rattle.std.specs.Prelude.{◌≡◌, ◌∷◌, [], ◌++◌, length, take, slice_get, slice_index_or, slice_set, option_copied, option_to_list, IsSome, IsTrue, ◌<◌, ◌-◌, ◌↔◌, OnOk, OnErr, IfErr, IfOk};
ghost use Rattle.std.specs.List.{swap_remove};
ghost use Rattle.std.specs.Cmp.Lexicographic.{pointwise, slice_cmp, slice_partial_cmp, lists_equiv, lists_agrees, lists_total, lists_ties, lists_po, lists_per};
ghost use Rattle.std.specs.Hash as fed;
ghost use Rattle.std.specs.Hash.{items_Alike};

use std::alloc::{AllocError, AllocFailed, Global};
use std::cmp::Ordering;
use std::hash::{Hash, Hasher};
use std::marker::Model;

/// A list. Contracts see it as the list of its elements, at every depth.
#[derive(Debug, Drop)]
pub struct Seq<T> {
    items: Vec<T>,
}

/// A text, or another run of bytes.
pub type Bytes = Seq<u8>;

impl<T> Model for Seq<T> {
    ghost use Rattle.std.specs.Prelude.{List};

    ghost Value = { List T };

    ghost view = { λ s. s.items.items };
}

impl<T> Seq<T> {
    /// The empty list. It takes no memory until an element is added.
    pub fn new(alloc: Global) -> Self
        ensures { result ≡ [] }
    {
        Seq {
            items: Vec::new(alloc),
        }
    }

    /// The empty list, with room for so many elements.
    pub fn with_capacity(alloc: Global, capacity: usize) -> Result<Self, AllocError>
        ensures { IfOk result (λ list. list ≡ []) }
    {
        Ok(Seq {
            items: Vec::with_capacity(alloc, capacity)?,
        })
    }

    /// The list of a vector's elements, which takes no memory.
    pub fn from_vec(items: Vec<T>) -> Self
        ensures { result ≡ items.items }
    {
        Seq { items }
    }

    /// A vector of the elements, which takes no memory.
    pub fn into_vec(self) -> Vec<T>
        ensures { result.items ≡ self }
    {
        self.items
    }

    pub fn as_slice(&self) -> &[T]
        ensures { result.now ≡ self.now }
    {
        self.items.as_slice()
    }

    pub fn len(&self) -> usize
        ensures { result ≡ length self.now }
    {
        self.items.len()
    }

    pub fn is_empty(&self) -> bool
        ensures { IsTrue result ↔ (self.now ≡ []) }
    {
        self.items.is_empty()
    }

    /// Adds an element at the end, or gives it back where there is no memory for it.
    pub fn push(&mut self, item: T) -> Result<(), AllocFailed<T>>
        ensures ok { OnOk result (self.new ≡ self.old ++ item ∷ []) }
        ensures err { OnErr result (self.new ≡ self.old) }
        ensures back { IfErr result (λ failed. failed.value ≡ item) }
    {
        self.items.push(item)
    }

    /// The last element, or `None` where there is none.
    pub fn last(&self) -> Option<&T>
        ensures { option_copied result ≡ slice_get self.now (length self.now - 1) }
    {
        self.items.last()
    }

    /// The element at a place, counted from 0, or `None` past the end.
    pub fn get(&self, place: usize) -> Option<&T>
        ensures { option_copied result ≡ slice_get self.now place }
    {
        self.items.get(place)
    }

    /// Takes the last element off, or leaves the empty list as it is.
    pub fn pop(&mut self) -> Option<T>
        ensures taken { self.old ≡ self.new ++ option_to_list result }
        ensures found { IsSome result ↔ (0 < length self.old) }
    {
        self.items.pop()
    }

    /// Takes an element out, and the last one takes its place.
    pub fn swap_remove(&mut self, place: usize) -> T
        requires { place < length self.old }
        ensures taken { result ≡ slice_index_or self.old place result }
        ensures left { self.new ≡ swap_remove self.old place result }
    {
        self.items.swap_remove(place)
    }

    /// Moves the elements of the other list to the end, or leaves both lists where there is no memory for it.
    pub fn append(&mut self, other: &mut Self) -> Result<(), AllocError>
        ensures ok { OnOk result (self.new ≡ self.old ++ other.old) }
        ensures moved { OnOk result (other.new ≡ []) }
        ensures err { OnErr result (self.new ≡ self.old) }
        ensures back { OnErr result (other.new ≡ other.old) }
    {
        self.items.append(&mut other.items)
    }
}

impl<T: Drop> Seq<T> {
    /// Puts an element in the place of another.
    pub fn set(&mut self, place: usize, item: T)
        requires { place < length self.old }
        ensures { self.new ≡ slice_set self.old place item }
    {
        self.items[place] = item;
    }

    /// Keeps the first so many elements, or all where there are fewer.
    pub fn truncate(&mut self, len: usize)
        ensures { self.new ≡ take len self.old }
    {
        self.items.truncate(len);
    }
}

impl<T: Copy> Seq<T> {
    /// The elements of a slice.
    pub fn copied(alloc: Global, items: &[T]) -> Result<Self, AllocError>
        ensures { IfOk result (λ copy. copy ≡ items.now) }
    {
        Ok(Seq {
            items: Vec::from_slice(alloc, items)?,
        })
    }

    /// Adds the elements of a slice at the end, or none where there is no memory for all.
    pub fn extend_from_slice(&mut self, more: &[T]) -> Result<(), AllocError>
        ensures ok { OnOk result (self.new ≡ self.old ++ more.now) }
        ensures err { OnErr result (self.new ≡ self.old) }
    {
        self.items.extend_from_slice(more)
    }
}

impl<T: PartialEq> PartialEq for Seq<T> {
    ghost eq = { pointwise T.eq };

    ghost laws = { lists_per T.laws };

    fn eq(&self, other: &Self) -> bool {
        self.items == other.items
    }
}

impl<T: Eq> Eq for Seq<T> {
    ghost laws = { lists_equiv T.Eq.laws };
}

impl<T: PartialOrd> PartialOrd for Seq<T> {
    ghost partial_cmp = { slice_partial_cmp T.partial_cmp };

    ghost laws = { lists_po T.PartialOrd.laws };

    fn partial_cmp(&self, other: &Self) -> Option<Ordering> {
        self.items.partial_cmp(&other.items)
    }
}

/// The first pair of elements that differ decides, and else the lengths do.
impl<T: Ord> Ord for Seq<T> {
    ghost cmp = { slice_cmp T.cmp };

    ghost total = { lists_total T.total };

    ghost matches_partial_cmp = { lists_agrees T.matches_partial_cmp };

    ghost matches_eq = { lists_ties T.cmp T.matches_eq };

    fn cmp(&self, other: &Self) -> Ordering {
        self.items.cmp(&other.items)
    }
}

/// As a slice is hashed: the length, and then each element.
impl<T: Hash> Hash for Seq<T> {
    ghost hash_input = { fed.slice T.hash_input };

    ghost respects_eq = { (items_Alike (record { fed = T.respects_eq })).fed };

    fn hash<H: Hasher>(&self, state: &mut H) {
        self.items.hash(state);
    }
}
