//! An image, read field by field.
ghost use Rattle.std.specs.Prelude.{◌≡◌, ◌-◌, ◌<◌, ◌^◌, length, Ok, IfOk};
ghost use Rattle.racf_profiles.specs.DynamicClasses.{cdt};
ghost use Rattle.racf_profiles.specs.Edits.{added_class};
ghost use Rattle.database_image.specs.Description.{image};
ghost use Rattle.database_image.specs.Image.{AreImageOf, image_of, completed, first_pass, second_pass, rows_of, IsStored, Reads};

use crate::between::first_broken;
use crate::classes::rows_at;
use crate::faults::{ImageFault, ReadFault};
use crate::laws;
use crate::left::Left;
use racf_profiles::{ClassRow, FixedClass, LogOption, Profiles, Rows};
use std::alloc::Global;

/// The rows of an image. Each field was tested by itself, and then each fact between fields.
///
/// # Errors
///
/// `BadField` at the first field that has no lawful value, or at the first byte behind the last field; where there is
/// none, at the first field whose fact doesn't hold. `NoMemory` where there was no room for the rows or for what the
/// facts are looked up in.
pub fn read(alloc: Global, bytes: &[u8]) -> Result<Rows, ImageFault>
    // What is read is what the definition finds, and a fault is its first.
    ensures exact { Reads result (rows_of bytes.now) }

    // What is read is what an image may hold, and these bytes are the image of it.
    ensures found { IfOk result (λ rows. IsStored rows × AreImageOf bytes.now rows) }
{
    laws::images_are_of_rows();
    match read_fields(alloc, bytes) {
        Ok(rows) => unless_broken(alloc, rows),
        Err(fault) => Err(fault),
    }
}

/// The rows, unless a fact between their fields doesn't hold.
#[tactic(auto, unfolding(crate::specs::Image::second_pass))]
fn unless_broken(alloc: Global, rows: Rows) -> Result<Rows, ImageFault>
    requires fields { image.Fits rows }
    requires room { length (image_of rows) < 2 ^ 64 }
    ensures { Reads result (second_pass rows) }
{
    match first_broken(alloc, &rows) {
        Ok(None) => Ok(rows),
        Ok(Some(place)) => Err(ImageFault::BadField(place as u64)),
        Err(_) => Err(ImageFault::NoMemory),
    }
}

/// The rows of an image, each field of which was tested by itself. The facts between fields are not.
///
/// # Errors
///
/// `BadField` at the first field that has no lawful value, or at the first byte behind the last field; `NoMemory` where
/// there was no room for the rows.
pub fn read_fields(alloc: Global, bytes: &[u8]) -> Result<Rows, ImageFault>
    // What is read is what the first pass finds, and a fault is its first.
    ensures exact { Reads result (first_pass bytes.now) }

    // What is read is lawful field by field, and these bytes are the image of it.
    ensures found { IfOk result (λ rows. image.Fits rows × AreImageOf bytes.now rows) }
{
    laws::fields_are_of_rows();
    whole(alloc, bytes)
}

/// What the first pass finds.
#[tactic(auto, unfolding(crate::specs::Image::first_pass))]
fn whole(alloc: Global, bytes: &[u8]) -> Result<Rows, ImageFault>
    ensures { Reads result (first_pass bytes.now) }
{
    let mut left = Left::of(bytes);
    match rows_at(alloc, &mut left) {
        Ok(rows) => {
            if left.len() == 0 {
                completed(alloc, rows)
            } else {
                Err(ImageFault::BadField(place(bytes, left.len())))
            }
        }
        Err(ReadFault::At(count)) => Err(ImageFault::BadField(place(bytes, count))),
        Err(ReadFault::NoMemory) => Err(ImageFault::NoMemory),
    }
}

/// The rows with class CDT behind GLOBAL, where it wasn't there.
fn completed(alloc: Global, rows: Rows) -> Result<Rows, ImageFault>
    ensures { Reads result (Ok (completed rows)) }
{
    let mut completed = rows;
    if completed.classes.items.len() == 14
        && completed.classes.items.push(new_cdt(alloc)).is_err()
    {
        return Err(ImageFault::NoMemory);
    }
    Ok(completed)
}

/// Class CDT as a new database has it.
fn new_cdt(alloc: Global) -> ClassRow
    ensures { result ≡ added_class cdt }
{
    ClassRow {
        name: FixedClass::Cdt.id(),
        active: false,
        listed: false,
        global: false,
        log: LogOption::ByProfile,
        profiles: Profiles {
            items: Vec::new(alloc),
        },
    }
}

/// The place at which so many bytes are left.
fn place(bytes: &[u8], left: usize) -> u64
    ensures { result ≡ length bytes.now - left }
{
    bytes.len().saturating_sub(left) as u64
}
