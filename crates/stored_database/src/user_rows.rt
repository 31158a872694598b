//! The table of users.
ghost use Rattle.std.specs.Prelude.{◌≡◌, ◌≤◌, IfOk};
ghost use Rattle.racf_profiles.specs.Names.{connections};
ghost use Rattle.racf_profiles.specs.Limits.{most_connections_in_all};
ghost use Rattle.racf_profiles.specs.LawfulUsers.{AreUsers};

use racf_profiles::{NoMemory, User};
use row_tables::UserTable;
use std::alloc::Global;

/// The table of these users, in their order.
pub(crate) fn users_of(alloc: Global, users: Vec<User>) -> Result<UserTable, NoMemory>
    requires lawful { AreUsers users.items }
    requires few_connections { connections users.items ≤ most_connections_in_all }
    ensures { IfOk result (λ table. table.users ≡ users.items) }
{
    let mut table = UserTable::new(alloc);
    table.reserve(users.len())?;
    for user in users {
        table.put(user);
    }
    Ok(table)
}
