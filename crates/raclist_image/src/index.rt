//! The places of classes by their names.
ghost use Rattle.std.specs.Prelude.{◌≡◌, ℕ, List, Some, None, bytes_eq, IfOk, OnOk, if◌then◌else◌};
ghost use Rattle.std.specs.Option.{option_or};
ghost use Rattle.indexmap.specs.IndexMap.{get};
ghost use Rattle.raclist_image.specs.KeptClasses.{ArePlacesOf};

use crate::classes::ClassEntry;
use access_levels::Id;
use indexmap::IndexMap;
use racf_profiles::NoMemory;
use std::alloc::Global;

/// The place of each class by its name.
pub(crate) fn places_of(
    alloc: Global,
    classes: &[ClassEntry],
) -> Result<IndexMap<Id, usize>, NoMemory>
    ensures { IfOk result (λ places. ArePlacesOf classes.now places) }
{
    let mut places = IndexMap::new(alloc);
    for place in 0..classes.len() {
        put_first(&mut places, classes[place].name(), place)?;
    }
    Ok(places)
}

/// Puts the place of a name, unless the name has one.
fn put_first(places: &mut IndexMap<Id, usize>, name: Id, place: usize) -> Result<(), NoMemory>
    ensures { OnOk result ((other : List ℕ) → get bytes_eq places.new other ≡ option_or (get bytes_eq places.old other) (if bytes_eq name other then Some place else None)) }
{
    if !places.contains_key(&name) {
        places.insert(name, place)?;
    }
    Ok(())
}
