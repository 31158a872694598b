//! How long the names of profiles are.
ghost use Rattle.std.specs.Prelude.{◌≡◌, IfOk, sum_by};
ghost use Rattle.racf_profiles.specs.declared.class_rows.ClassRow.{ClassRow};
ghost use Rattle.raclist_image.specs.PlacedNames.{profile_names};

use racf_profiles::{ClassRow, NoMemory, Profile};
use std::alloc::AllocError;

/// The lengths of the names of all profiles of these classes. More than a `usize` can count have no room in memory.
pub(crate) fn names_length(classes: &[ClassRow]) -> Result<usize, NoMemory>
    ensures { IfOk result (λ total. total ≡ sum_by (λ (class : ClassRow). profile_names class.profiles) classes.now) }
{
    let mut total: usize = 0;
    for class in classes {
        let names = names_of(&class.profiles.items)?;
        total = total.checked_add(names).ok_or(AllocError)?;
    }
    Ok(total)
}

/// The lengths of the names of these profiles.
fn names_of(profiles: &[Profile]) -> Result<usize, NoMemory>
    ensures { IfOk result (λ total. total ≡ profile_names profiles.now) }
{
    let mut total: usize = 0;
    for profile in profiles {
        total = total
            .checked_add(profile.name.text().len())
            .ok_or(AllocError)?;
    }
    Ok(total)
}
