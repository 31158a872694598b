//! How many members a profile may have, and how many categories there may be.
ghost use Rattle.std.specs.Prelude.{◌≡◌, [], length};
ghost use Rattle.std.specs.Result.{result_err};
ghost use Rattle.racf_profiles.specs.Limits.{most_members, most_categories};
ghost use Rattle.command_fields.specs.declared.fields.CommandFields.TheVariants as fields;
ghost use Rattle.command_rules.specs.Members.{members_after, categories_defined};
ghost use Rattle.command_rules.specs.Required.{over};
ghost use Rattle.command_rules.specs.ProfileConflicts.{members_full};

use crate::limits::check_count;
use command_fields::{Issuer, RAlter, RDefine};
use command_rules::{Conflict, Limit, categories_count, members_count};
use racf_profiles::{Members, View};
use row_tables::{MOST_CATEGORIES, MOST_MEMBERS, RowTables};

/// The profile's members are within the limit after RALTER.
pub(super) fn check_members_fit(
    tables: &RowTables,
    issuer: &Issuer,
    command: &RAlter,
) -> Result<(), Conflict>
    ensures { result_err result ≡ members_full issuer.now (fields.RAlter command.now) command.now.class command.now.profile tables.now.rows }
{
    match tables.profile(command.class, &command.profile) {
        None => Ok(()),
        Some(old) => check_count(
            Limit::Members,
            MOST_MEMBERS,
            members_count(
                command.addmem.items.as_slice(),
                command.delmem.items.as_slice(),
                old.members.items.as_slice(),
            ),
        ),
    }
}

/// The categories ever defined are within the limit, once these members were added.
pub(super) fn check_categories_fit(tables: &RowTables, added: &Members) -> Result<(), Conflict>
    ensures { result_err result ≡ over Limit.Categories most_categories (length (categories_defined added.now tables.now.rows.options.categories)) }
{
    check_count(
        Limit::Categories,
        MOST_CATEGORIES,
        categories_count(
            added.items.as_slice(),
            tables.options().categories.items.as_slice(),
        ),
    )
}

/// The members of a new profile are within the limit.
pub(super) fn check_new_members_fit(command: &RDefine) -> Result<(), Conflict>
    ensures { result_err result ≡ over Limit.Members most_members (length (members_after command.now.addmem [] [])) }
{
    check_count(
        Limit::Members,
        MOST_MEMBERS,
        members_count(command.addmem.items.as_slice(), &[], &[]),
    )
}
