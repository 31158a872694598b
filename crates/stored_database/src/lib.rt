//! Databases made of images and of rows.
//!
//! [`of_image`] gives the [`Database`](racf_database::Database) whose rows an image has, or the place of the image's
//! first fault; [`of_rows`] gives the database of rows that are at hand, or the place of their first unlawful field in
//! the image that they would have. So what an image on a disk may hold, and what a database may be made of, is one
//! rule: that of `database_image`. Rows of a database are lawful, and never refused. [`of_stored_rows`] takes rows that
//! are known to be such, as those that were read of an image: they are moved into the database.
//!
//! A [`RowsFault`] tells the byte of the image at which the first unlawful field stands. Images, and what is lawful in
//! them, are those of `database_image`, the database is that of `racf_database`, and its tables are those of
//! `row_tables`, `group_tree` and `class_profiles`; disks, and which image on them counts, are no matter of this crate.
//!
//! ```
//! let database = of_image(alloc, &image)?;
//! let rows = database.to_rows(alloc)?;
//! let again = of_rows(alloc, &rows)?;         // the same rows
//! let fault = of_image(alloc, &[8]);          // Err(RowsFault::BadRow(0)): there is no such option
//! ```
#![tactic(auto)]

mod class_rows;
mod faults;
mod making;
mod tables;
mod user_rows;

pub use faults::RowsFault;
pub use making::{of_image, of_rows, of_stored_rows};
