//! A new database made again, and faults at their places: that memory is wanting is told of none of these.

use database_image::write;
use racf_database::Database;
use racf_profiles::{NoMemory, Rows, ibmuser};
use std::alloc::Global;
use std::test::Fail;
use stored_database::{RowsFault, of_image, of_rows};

/// The image of a new database.
fn new_image(alloc: Global) -> Result<Vec<u8>, NoMemory> {
    let rows = Rows::new_database(alloc)?;
    write(alloc, &rows)
}

/// Whether a database was made that has this image.
fn has_image(alloc: Global, made: Result<Database, RowsFault>, image: &[u8]) -> bool {
    let Ok(database) = made else {
        return false;
    };
    let Ok(rows) = database.to_rows(alloc) else {
        return false;
    };
    match write(alloc, &rows) {
        Ok(bytes) => bytes.as_slice() == image,
        Err(_) => false,
    }
}

/// Whether a new database is made again of its image.
fn is_made_of_image(alloc: Global) -> bool {
    match new_image(alloc) {
        Ok(image) => has_image(alloc, of_image(alloc, &image), &image),
        Err(_) => false,
    }
}

/// Whether it is made again of its rows.
fn is_made_of_rows(alloc: Global) -> bool {
    let (Ok(rows), Ok(image)) = (Rows::new_database(alloc), new_image(alloc)) else {
        return false;
    };
    has_image(alloc, of_rows(alloc, &rows), &image)
}

#[test]
fn a_new_database(rt: HostRuntime) {
    assert!(rt; is_made_of_image(rt.alloc()));
    assert!(rt; is_made_of_rows(rt.alloc()));
}

/// The place of the fault that is told.
fn place_told(made: Result<Database, RowsFault>) -> Option<u64> {
    match made {
        Err(RowsFault::BadRow(place)) => Some(place),
        Ok(_) | Err(RowsFault::NoMemory) => None,
    }
}

/// The place of the fault of a new database's image, of which the last byte lacks.
fn place_of_cut(alloc: Global) -> Option<u64> {
    match new_image(alloc) {
        Ok(mut image) => {
            image.pop();
            place_told(of_image(alloc, &image))
        }
        Err(_) => None,
    }
}

/// The place of the fault of a new database's rows, whose user has no group as his default group.
fn place_of_default(alloc: Global) -> Option<u64> {
    let Ok(mut rows) = Rows::new_database(alloc) else {
        return None;
    };
    for user in rows.users.items.iter_mut() {
        user.default_group = ibmuser();
    }
    place_told(of_rows(alloc, &rows))
}

/// The place of the fault of a new database's rows with that many categories.
fn place_of_categories(alloc: Global, count: usize) -> Option<u64> {
    let Ok(mut rows) = Rows::new_database(alloc) else {
        return None;
    };
    for _ in 0..count {
        if rows.options.categories.items.push(ibmuser()).is_err() {
            return None;
        }
    }
    place_told(of_rows(alloc, &rows))
}

/// The place of the fault of a new database's rows, whose user has that many classes.
fn place_of_classes(alloc: Global, count: usize) -> Option<u64> {
    let Ok(mut rows) = Rows::new_database(alloc) else {
        return None;
    };
    for user in rows.users.items.iter_mut() {
        for _ in 0..count {
            if user.classes.items.push(ibmuser()).is_err() {
                return None;
            }
        }
    }
    place_told(of_rows(alloc, &rows))
}

/// Rows that no image has are judged by themselves: a count of 65,541 is written as 5, and one of 258 in one byte as 2.
#[test]
fn counts_without_room(rt: HostRuntime) {
    assert_eq!(rt; place_of_categories(rt.alloc(), 65_541), Some(1));
    assert_eq!(rt; place_of_classes(rt.alloc(), 258), Some(102));
}

#[test]
fn faults(rt: HostRuntime) {
    assert_eq!(rt; place_told(of_image(rt.alloc(), &[])), Some(0));
    assert_eq!(rt; place_told(of_image(rt.alloc(), &[8])), Some(0));
    assert_eq!(rt; place_of_cut(rt.alloc()), Some(323));
    assert_eq!(rt; place_of_default(rt.alloc()), Some(43));
}
