//! Security levels, categories and labels: which label dominates which, and what bars a user from a resource.
//!
//! A [`Label`] is a level and a set of categories; [`dominates`] tells which of two covers the other, as a partial
//! order between SYSLOW and SYSHIGH. [`check`] sets what a user has against what a resource has, each a [`Clearance`],
//! and tells what bars him, a [`Classified`], by the [`Checks`] that are made. Nothing here takes memory. Sets of
//! categories and access levels are those of `access_levels`; `decision` asks [`check`].
//!
//! ```
//! let pay = Label { level: 100, categories: Categories::none().with(7) };
//! let user = Clearance { level: 150, categories: Categories::none(), label: None };
//! let payroll = Clearance { level: 100, categories: pay.categories, label: Some(pay) };
//! let checks = Checks { labels: false, levels: true, mls: false };
//! let barred = check(&user, &payroll, checks, Level::Read);    // Err(Classified::CategoryMissing(7))
//! ```
#![tactic(auto)]

mod classified;
mod labels;
pub mod laws;

pub use classified::{Checks, Classified, check};
pub use labels::{Clearance, Label, dominates};
