//! The database of users, groups, connections and profiles: what a command conflicts with, and one step of the rows,
//! which leaves them lawful.
//!
//! `Database` is the type that holds it. `row_tables` keeps its rows, `command_conflicts` and `command_effects` say
//! what a command meets and makes; `lawful_commands` has the law that the rows stay lawful. `racf_desk` gives it the
//! commands.
//!
//! ```
//! let mut database = Database::new(alloc)?;
//! let command = parse(alloc, issuer.id, b"ADDUSER JOE")?;
//! if database.check(&issuer, &command).is_ok() {
//!     let change = database.prepare(alloc, &issuer, &command)?;
//!     database.apply(change);
//! }
//! ```
#![tactic(auto)]

mod database;
mod prepare;

pub use command_rules::{Conflict, Holder, Limit, Named};
pub use database::Database;
pub use row_tables::{
    MOST_CATEGORIES, MOST_CONNECTIONS, MOST_CONNECTIONS_IN_ALL, MOST_GROUPS, MOST_MEMBERS,
    MOST_USERS,
};
