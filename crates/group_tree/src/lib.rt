//! The tree of groups, [`Tree`]: each group's superior group and owner, and what is in scope of a group.
//!
//! The rows of groups are those of `racf_profiles`, and so are the definitions of scope and of what every tree keeps.
//! The tables of a database hold a tree; what keeps groups otherwise, as images do, is a [`GroupList`], and has scope
//! by [`in_scope_group`] and [`in_scope_user`].
//!
//! ```
//! let mut tree = Tree::new(alloc)?;
//! tree.add(payroll, sys1(), ibmuser())?;
//! let is_below = tree.in_scope_group(sys1(), payroll); // only where SYS1 owns it
//! ```
#![tactic(auto)]

mod climb;
mod faults;
pub mod laws;
mod scope;
mod tree;

pub use climb::GroupList;
pub use faults::TreeFault;
pub use scope::{in_scope_group, in_scope_user};
pub use tree::Tree;
