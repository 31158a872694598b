//! The operands that the commands on profiles have in common.
ghost use Rattle.std.specs.Prelude.{◌≡◌};
ghost use Rattle.command_effects.specs.Operands.{with_operands};

use super::security::{label_given, level_given, with_categories, without_categories};
use access_levels::{Id, Level};
use command_rules::switched;
use racf_profiles::{AuditRule, Profile};
use row_tables::RowTables;

/// What ADDSD, ALTDSD, RDEFINE and RALTER may name of a profile. A command names none of the operands that it lacks.
#[derive(Clone, Copy)]
pub(super) struct Operands<'a> {
    pub(super) owner: Option<Id>,
    pub(super) uacc: Option<Level>,
    pub(super) warning: bool,
    pub(super) nowarning: bool,
    pub(super) audit: Option<AuditRule>,
    pub(super) globalaudit: Option<AuditRule>,
    pub(super) seclevel: Option<Id>,
    pub(super) noseclevel: bool,
    pub(super) addcategory: &'a [Id],
    pub(super) delcategory: &'a [Id],
    pub(super) seclabel: Option<Id>,
    pub(super) noseclabel: bool,
}

/// The operands of a command that defines a profile.
macro_rules! operands_of_new {
    ($command:expr) => {
        Operands {
            owner: $command.owner,
            uacc: $command.uacc,
            warning: $command.warning,
            nowarning: $command.nowarning,
            audit: $command.audit,
            globalaudit: None,
            seclevel: $command.seclevel,
            noseclevel: false,
            addcategory: $command.addcategory.items.as_slice(),
            delcategory: &[],
            seclabel: $command.seclabel,
            noseclabel: false,
        }
    };
}

/// The operands of a command that changes a profile.
macro_rules! operands_of_altered {
    ($command:expr) => {
        Operands {
            owner: $command.owner,
            uacc: $command.uacc,
            warning: $command.warning,
            nowarning: $command.nowarning,
            audit: $command.audit,
            globalaudit: $command.globalaudit,
            seclevel: $command.seclevel,
            noseclevel: $command.noseclevel,
            addcategory: $command.addcategory.items.as_slice(),
            delcategory: $command.delcategory.items.as_slice(),
            seclabel: $command.seclabel,
            noseclabel: $command.noseclabel,
        }
    };
}

pub(super) use operands_of_altered;
pub(super) use operands_of_new;

/// The profile with what the operands name, and as it was in all else.
pub(super) fn with_operands(tables: &RowTables, profile: Profile, operands: &Operands) -> Profile
    ensures { result ≡ with_operands operands.now tables.now.rows profile }
{
    let fewer = without_categories(tables, profile.categories, operands.delcategory);
    Profile {
        owner: operands.owner.unwrap_or(profile.owner),
        uacc: operands.uacc.unwrap_or(profile.uacc),
        warning: switched(operands.warning, operands.nowarning, profile.warning),
        level: level_given(
            tables,
            operands.seclevel,
            operands.noseclevel,
            profile.level,
        ),
        categories: with_categories(tables, fewer, operands.addcategory),
        label: label_given(operands.seclabel, operands.noseclabel, profile.label),
        audit: operands.audit.unwrap_or(profile.audit),
        global_audit: operands.globalaudit.unwrap_or(profile.global_audit),
        ..profile
    }
}
