//! The global access table: what everyone may do, before any profile is asked.
//!
//! A class has a table of members, each the name of resources, in which a qualifier may stand for the user or his
//! group, and the level that everyone has to them. [`grants`] tells which member gives a user the access that he asks
//! for, a [`Grant`]. Names and what they cover are those of `generic_names`, and members are rows of `racf_profiles`;
//! `decision` asks it for a class whose table is on. Nothing here takes memory.
//!
//! ```
//! // the table of DATASET: SYS1.HELP/READ and &RACUID.**/ALTER
//! let own = Resource::read(NameKind::DataSet, b"JOE.DATA")?;
//! let grant = grants(image.members(dataset), joe, pay, &own, Level::Update);  // the second: place 1, Level::Alter
//! ```
#![tactic(auto)]

mod table;

pub use table::{Grant, grants};
