//! Databases of images and of rows.
ghost use Rattle.std.specs.Prelude.{◌≡◌, IfErr, IfOk, None};
ghost use Rattle.racf_profiles.specs.Lawful.{AreLawful};
ghost use Rattle.database_image.specs.Image.{rows_of, IsStored};
ghost use Rattle.stored_database.specs.Making.{Makes, Reads, IsFirst, fault_of};

use crate::faults::RowsFault;
use crate::tables::tables_of;
use database_image::{ImageFault, laws, read, stored_copy};
use racf_database::Database;
use racf_profiles::{NoMemory, Rows};
use std::alloc::Global;

/// The database of an image: each field of it was tested by itself, and then each fact between fields.
///
/// # Errors
///
/// `BadRow` at the first unlawful field, in the order in which `database_image` tests them; `NoMemory` where there was
/// no room for the rows or for their tables.
pub fn of_image(alloc: Global, bytes: &[u8]) -> Result<Database, RowsFault>
    // The database has the rows that there are to be read, and a fault is their first.
    ensures exact { Makes result (rows_of bytes.now) }
    ensures nothing_prepared { IfOk result (λ database. database.prepared ≡ None) }
{
    let rows = lawful_rows(alloc, bytes)?;
    let tables = tables_of(alloc, rows)?;
    Ok(Database::of(tables))
}

/// The database of rows, judged as their image is.
///
/// # Errors
///
/// `BadRow` at the first field of their image that isn't lawful, or, where each is, at the first whose fact about
/// others doesn't hold; `NoMemory` where there was no room for the image, for the rows or for their tables.
pub fn of_rows(alloc: Global, rows: &Rows) -> Result<Database, RowsFault>
    // The database has the rows, and an image may hold them.
    ensures made { IfOk result (λ database. (database.rows ≡ rows.now) × IsStored rows.now) }

    // A fault is the first of the rows. Rows that an image may hold have none, and all others have but one.
    ensures first { IfErr result (IsFirst rows.now) }

    // Rows that an image may hold are the database's, and nothing but want of memory is told of them.
    ensures stored { IsStored rows.now → IfOk result (λ database. database.rows ≡ rows.now) }
    ensures refused { IsStored rows.now → IfErr result (λ fault. fault ≡ RowsFault.NoMemory) }

    // Nor of lawful rows, as those of every database are.
    ensures lawful { AreLawful rows.now → IfErr result (λ fault. fault ≡ RowsFault.NoMemory) }
    ensures nothing_prepared { IfOk result (λ database. database.prepared ≡ None) }
{
    let copy = lawful_copy(alloc, rows)?;
    let tables = tables_of(alloc, copy)?;
    Ok(Database::of(tables))
}

/// The database of rows that an image may hold, as those that were read of one. They are moved into it, and not judged
/// again.
pub fn of_stored_rows(alloc: Global, rows: Rows) -> Result<Database, NoMemory>
    requires stored { IsStored rows }
    ensures made { IfOk result (λ database. database.rows ≡ rows) }
    ensures nothing_prepared { IfOk result (λ database. database.prepared ≡ None) }
{
    laws::stored_rows_are_lawful();
    let tables = tables_of(alloc, rows)?;
    Ok(Database::of(tables))
}

/// A copy of rows, which are lawful.
fn lawful_copy(alloc: Global, rows: &Rows) -> Result<Rows, RowsFault>
    ensures copy { IfOk result (λ copy. (copy ≡ rows.now) × IsStored rows.now) }
    ensures copy_lawful { IfOk result AreLawful }
    ensures first { IfErr result (IsFirst rows.now) }
    ensures refused { IsStored rows.now → IfErr result (λ fault. fault ≡ RowsFault.NoMemory) }
    ensures lawful { AreLawful rows.now → IfErr result (λ fault. fault ≡ RowsFault.NoMemory) }
{
    laws::stored_rows_are_lawful();
    laws::first_fault_is_one();
    match stored_copy(alloc, rows) {
        Ok(copy) => Ok(copy),
        Err(fault) => Err(fault_of(fault)),
    }
}

/// The rows of an image, which are lawful.
fn lawful_rows(alloc: Global, bytes: &[u8]) -> Result<Rows, RowsFault>
    ensures exact { Reads result (rows_of bytes.now) }
    ensures lawful { IfOk result AreLawful }
{
    laws::stored_rows_are_lawful();
    match read(alloc, bytes) {
        Ok(rows) => Ok(rows),
        Err(fault) => Err(fault_of(fault)),
    }
}

/// The fault of an image, as it is told of its rows.
fn fault_of(fault: ImageFault) -> RowsFault
    ensures { result ≡ fault_of fault }
{
    match fault {
        ImageFault::BadField(place) => RowsFault::BadRow(place),
        ImageFault::NoMemory => RowsFault::NoMemory,
    }
}
