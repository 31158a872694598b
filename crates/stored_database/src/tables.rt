//! The tables of lawful rows.
ghost use Rattle.std.specs.Prelude.{◌≡◌, IfOk};
ghost use Rattle.racf_profiles.specs.Lawful.{AreLawful};
ghost use Rattle.racf_profiles.specs.Tree.{IsTree};

use crate::class_rows::classes_of;
use crate::user_rows::users_of;
use group_tree::Tree;
use racf_profiles::{Group, NoMemory, Rows};
use row_tables::RowTables;
use std::alloc::{AllocError, Global};

/// The tables that have these rows. The rows are moved into them.
pub(crate) fn tables_of(alloc: Global, rows: Rows) -> Result<RowTables, NoMemory>
    requires { AreLawful rows }
    ensures { IfOk result (λ tables. tables.rows ≡ rows) }
{
    let users = users_of(alloc, rows.users.items)?;
    let tree = tree_of(alloc, rows.groups.items.as_slice())?;
    let classes = classes_of(alloc, rows.classes.items)?;
    Ok(RowTables::of(users, tree, classes, rows.options))
}

/// The tree of these groups.
fn tree_of(alloc: Global, groups: &[Group]) -> Result<Tree, NoMemory>
    requires { IsTree groups.now }
    ensures { IfOk result (λ tree. tree.groups ≡ groups.now) }
{
    match Tree::of(alloc, groups) {
        Ok(tree) => Ok(tree),
        Err(_) => Err(AllocError),
    }
}
