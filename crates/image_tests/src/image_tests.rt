//! Images that an independent program wrote, and that of a new database.

mod rows;

use database_image::{ImageFault, read, read_fields, write};
use racf_profiles::Rows;
use rows::{FACTS, IMAGES};
use std::alloc::{AllocError, Global};
use std::test::Fail;

/// The value of a hexadecimal digit.
fn digit(byte: u8) -> u8 {
    match byte {
        b'a'..=b'f' => byte.wrapping_sub(b'a').wrapping_add(10),
        _ => byte.wrapping_sub(b'0'),
    }
}

/// The bytes that hexadecimal digits spell.
fn bytes_of(alloc: Global, digits: &[u8]) -> Result<Vec<u8>, AllocError> {
    let mut bytes = Vec::new(alloc);
    for pair in digits.chunks_exact(2) {
        if let [high, low] = pair {
            bytes.push(digit(*high).wrapping_mul(16).wrapping_add(digit(*low)))?;
        }
    }
    Ok(bytes)
}

/// The number that digits spell; none for a dash.
fn place_of(digits: &[u8]) -> Option<u64> {
    let mut place = 0u64;
    for byte in digits {
        if *byte == b'-' {
            return None;
        }
        place = place.wrapping_mul(10).wrapping_add(u64::from(digit(*byte)));
    }
    Some(place)
}

/// Whether the rows of an image are written as it.
fn is_written_again(alloc: Global, rows: &Rows, image: &[u8]) -> bool {
    match write(alloc, rows) {
        Ok(bytes) => bytes.as_slice() == image,
        Err(_) => false,
    }
}

/// The rows of an image by both passes, or by the first alone.
fn read_by(both: bool, alloc: Global, image: &[u8]) -> Result<Rows, ImageFault> {
    if both {
        read(alloc, image)
    } else {
        read_fields(alloc, image)
    }
}

/// Whether an image is read with this fault, or written again as `again`.
fn is_read(both: bool, alloc: Global, image: &[u8], place: Option<u64>, again: &[u8]) -> bool {
    match read_by(both, alloc, image) {
        Ok(rows) => place.is_none() && is_written_again(alloc, &rows, again),
        Err(ImageFault::BadField(found)) => place == Some(found),
        Err(ImageFault::NoMemory) => false,
    }
}

/// Whether a row of the table is right.
fn is_right(both: bool, alloc: Global, row: &[u8]) -> bool {
    let mut parts = row.split(|byte| *byte == b' ');
    let (Some(place), Some(digits)) = (parts.next(), parts.next()) else {
        return false;
    };
    let again = parts.next().unwrap_or(digits);
    match (bytes_of(alloc, digits), bytes_of(alloc, again)) {
        (Ok(image), Ok(again)) => is_read(both, alloc, &image, place_of(place), &again),
        (Ok(_) | Err(_), _) => false,
    }
}

/// How many rows of a table are wrong.
fn count_wrong(both: bool, alloc: Global, rows: &[u8]) -> u32 {
    let mut count = 0u32;
    for row in rows.split(|byte| *byte == b'\n') {
        if !is_right(both, alloc, row) {
            count = count.wrapping_add(1);
        }
    }
    count
}

#[test]
fn images_of_another_program(rt: HostRuntime) {
    assert_eq!(rt; count_wrong(false, rt.alloc(), IMAGES), 0);
}

#[test]
fn facts_between_fields(rt: HostRuntime) {
    assert_eq!(rt; count_wrong(true, rt.alloc(), FACTS), 0);
}

/// How many bytes the image of a new database has, if it is read as what it was written for.
fn length_of_new(alloc: Global) -> Option<usize> {
    let Ok(rows) = Rows::new_database(alloc) else {
        return None;
    };
    let Ok(image) = write(alloc, &rows) else {
        return None;
    };
    if is_read(true, alloc, &image, None, &image) {
        Some(image.len())
    } else {
        None
    }
}

#[test]
fn a_new_database(rt: HostRuntime) {
    assert_eq!(rt; length_of_new(rt.alloc()), Some(327));
}
