//! The rows of a database in tables, [`RowTables`]: users, groups and profiles by name, the options, and the edits
//! made to them.
//!
//! Groups stand in the tree of `group_tree`, profiles in the tables of `class_profiles`. What a command makes of the
//! rows is told by `command_effects`, as a list of edits.
//!
//! ```
//! let mut tables = RowTables::new(alloc)?;
//! tables.reserve(&edits)?; // wants memory
//! tables.apply(edits);     // takes none
//! ```
#![tactic(auto)]

mod apply;
mod limits;
mod tables;
mod user_table;

pub use limits::{
    MOST_CATEGORIES, MOST_CONNECTIONS, MOST_CONNECTIONS_IN_ALL, MOST_DYNAMIC_CLASSES, MOST_GROUPS,
    MOST_MEMBERS, MOST_USERS,
};
pub use tables::RowTables;
pub use user_table::{
    UserTable, connections_added, connections_with, is_connected_to, is_special_user,
};
