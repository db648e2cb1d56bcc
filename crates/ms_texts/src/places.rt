// An index from names to places.
ghost use Rattle.std.specs.Prelude.{◌≡◌, ℕ, List, [], ◌∷◌, ◌++◌, OnOk, OnErr, if◌then◌else◌};
ghost use Rattle.ms_core.specs.Texts.{is_name};
ghost use Rattle.ms_texts.specs.Sections.{places_in};

use indexmap::IndexMap;
use ms_base::memory::OutOfMemory;
use std::alloc::Global;

/// The places of a name, ascending.
pub(crate) type Places = IndexMap<Vec<u8>, Vec<usize>>;

/// Adds a place to those of a name.
pub(crate) fn note(
    alloc: Global,
    places: &mut Places,
    name: &[u8],
    place: usize,
) -> Result<(), OutOfMemory>
    ensures ok { OnOk result ((other : List ℕ) → places_in other places.new.entries ≡ places_in other places.old.entries ++ (if is_name name.now other then place ∷ [] else [])) }
    ensures err { OnErr result ((other : List ℕ) → places_in other places.new.entries ≡ places_in other places.old.entries) }
{
    if let Some(list) = places.get_mut(name) {
        list.push(place)?;
        return Ok(());
    }
    let mut list = Vec::new(alloc);
    list.push(place)?;
    places.insert(Vec::from_slice(alloc, name)?, list)?;
    Ok(())
}

/// The places of a name.
pub(crate) fn places_of<'a>(places: &'a Places, name: &[u8]) -> &'a [usize]
    ensures { result.now ≡ places_in name.now places.now.entries }
{
    match places.get(name) {
        Some(list) => list.as_slice(),
        None => &[],
    }
}
