//! The groups of an image by their names.
ghost use Rattle.std.specs.Prelude.{◌≡◌, List, ℕ, Some, None, is_some, bytes_eq, IfOk, OnOk, if◌then◌else◌};
ghost use Rattle.std.specs.Option.{option_or, option_and_then};
ghost use Rattle.indexmap.specs.IndexMap.{get};
ghost use Rattle.database_image.specs.Ways.{IsIndexOf};

use access_levels::Id;
use indexmap::IndexMap;
use racf_profiles::{Group, NoMemory};
use std::alloc::Global;

/// Each group's superior group by the group's name.
pub fn index_of(alloc: Global, groups: &[Group]) -> Result<IndexMap<Id, Option<Id>>, NoMemory>
    ensures { IfOk result (λ index. IsIndexOf groups.now index) }
{
    let mut index = IndexMap::new(alloc);
    for group in groups {
        put_first(&mut index, group)?;
    }
    Ok(index)
}

/// Puts a group in its place, unless one of that name is there.
fn put_first(index: &mut IndexMap<Id, Option<Id>>, group: &Group) -> Result<(), NoMemory>
    ensures { OnOk result ((id : List ℕ) → get bytes_eq index.new id ≡ option_or (get bytes_eq index.old id) (if bytes_eq group.now.id id then Some group.now.superior else None)) }
{
    if !index.contains_key(&group.id) {
        index.insert(group.id, group.superior)?;
    }
    Ok(())
}

/// Whether a group has that name.
pub fn is_there(index: &IndexMap<Id, Option<Id>>, id: Id) -> bool
    ensures { result ≡ is_some (get bytes_eq index.now id) }
{
    index.contains_key(&id)
}

/// The superior group of the group of that name.
pub fn above(index: &IndexMap<Id, Option<Id>>, id: Id) -> Option<Id>
    ensures { result ≡ option_and_then (λ superior. superior) (get bytes_eq index.now id) }
{
    match index.get(&id) {
        Some(superior) => *superior,
        None => None,
    }
}
