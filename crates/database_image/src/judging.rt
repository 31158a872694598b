//! Rows, judged by their image.
ghost use Rattle.std.specs.Prelude.{◌≡◌, IfOk, IfErr};
ghost use Rattle.racf_profiles.specs.Lawful.{AreLawful};
ghost use Rattle.database_image.specs.Spelled.{AreSpelled};
ghost use Rattle.database_image.specs.Image.{rows_of, IsStored, IsFirst, Judges};

use crate::faults::ImageFault;
use crate::misleading::first_misleading;
use crate::reading::read;
use crate::writing::write;
use racf_profiles::{NoMemory, Rows};
use std::alloc::Global;

/// A copy of rows, where an image may hold them. They are judged as their image is.
///
/// # Errors
///
/// `BadField` at the first field of their image that isn't lawful, or, where each is, at the first whose fact about
/// others doesn't hold; `NoMemory` where there was no room for the image, for the copy or for what the facts are looked
/// up in.
pub fn stored_copy(alloc: Global, rows: &Rows) -> Result<Rows, ImageFault>
    // The copy has the same rows, and an image may hold them.
    ensures copy { IfOk result (λ copy. (copy ≡ rows.now) × IsStored rows.now) }

    // A fault is the first of the rows.
    ensures first { IfErr result (IsFirst rows.now) }

    // Nothing but want of memory is told of lawful rows.
    ensures lawful { AreLawful rows.now → IfErr result (λ fault. fault ≡ ImageFault.NoMemory) }
{
    match telling_image(alloc, rows) {
        Ok(image) => read(alloc, &image),
        Err(_) => Err(ImageFault::NoMemory),
    }
}

/// The image of rows, up to the first field that misleads: a field that doesn't end within its bytes has no lawful
/// value.
fn telling_image(alloc: Global, rows: &Rows) -> Result<Vec<u8>, NoMemory>
    ensures judges { IfOk result (λ bytes. Judges rows.now (rows_of bytes.items)) }
    ensures spelled { IfOk result (λ bytes. AreSpelled rows.now) }
{
    let mut image = write(alloc, rows)?;
    let size = image.len();
    let end = first_misleading(rows).unwrap_or(size);
    image.truncate(end);
    Ok(image)
}
