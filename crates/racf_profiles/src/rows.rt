//! The rows of a database.
ghost use Rattle.std.specs.Prelude.{◌≡◌, IfOk};
ghost use Rattle.racf_profiles.specs.NewDatabase.{new_database, ibmuser, empty_class, new_classes};
ghost use Rattle.racf_profiles.specs.ClassTable.{is_dataset};

use crate::NoMemory;
use crate::class_rows::{ClassRow, ClassRows, LogOption};
use crate::fixed_classes::FixedClass;
use crate::groups::{Group, Groups};
use crate::known::{ibmuser, sys1};
use crate::options::{CategoryNames, Options};
use crate::profiles::Profiles;
use crate::users::{Classes, Connect, Connects, User, Users};
use access_levels::{Attributes, Categories, GroupAuthority, Id, Text};
use std::alloc::Global;

/// The rows of a database.
#[derive(Drop)]
pub struct Rows {
    /// In order of definition.
    pub users: Users,
    /// In order of definition.
    pub groups: Groups,
    /// The fixed classes in their order, and behind them the dynamic ones in order of definition.
    pub classes: ClassRows,
    pub options: Options,
}

impl Rows {
    /// The rows of a new database (this product's own): the user IBMUSER, the group SYS1, the fixed
    /// classes without profiles, DATASET alone active, and all options off.
    pub fn new_database(alloc: Global) -> Result<Rows, NoMemory>
        ensures { IfOk result (λ rows. rows ≡ new_database) }
    {
        let mut users = Vec::new(alloc);
        users.push(first_user(alloc)?)?;
        let mut groups = Vec::new(alloc);
        groups.push(Group {
            id: sys1(),
            superior: None,
            owner: ibmuser(),
        })?;
        Ok(Rows {
            users: Users { items: users },
            groups: Groups { items: groups },
            classes: empty_classes(alloc)?,
            options: Options {
                grplist: false,
                protectall: false,
                mls: false,
                categories: CategoryNames {
                    items: Vec::new(alloc),
                },
            },
        })
    }
}

/// IBMUSER, as a new database has it.
fn first_user(alloc: Global) -> Result<User, NoMemory>
    ensures { IfOk result (λ user. user ≡ ibmuser) }
{
    let mut connects = Vec::new(alloc);
    connects.push(Connect {
        group: sys1(),
        authority: GroupAuthority::MayJoin,
        special: false,
        operations: false,
        auditor: false,
        revoked: false,
    })?;
    Ok(User {
        id: ibmuser(),
        default_group: sys1(),
        owner: sys1(),
        name: Text::of(alloc, b"")?,
        attributes: Attributes {
            special: true,
            operations: true,
            auditor: true,
            restricted: false,
            revoked: false,
            uaudit: false,
        },
        classes: Classes {
            items: Vec::new(alloc),
        },
        level: 0,
        categories: Categories::none(),
        label: None,
        connects: Connects { items: connects },
    })
}

/// A class without profiles.
fn empty_class(alloc: Global, active: bool, class: FixedClass) -> ClassRow
    ensures { result ≡ empty_class active class }
{
    ClassRow {
        name: class.id(),
        active,
        listed: false,
        global: false,
        log: LogOption::ByProfile,
        profiles: Profiles {
            items: Vec::new(alloc),
        },
    }
}

/// The fixed classes, DATASET alone active.
fn empty_classes(alloc: Global) -> Result<ClassRows, NoMemory>
    ensures { IfOk result (λ classes. classes ≡ new_classes is_dataset) }
{
    let mut items = Vec::new(alloc);
    for class in &FixedClass::ALL {
        let active = matches!(class, FixedClass::Dataset);
        items.push(empty_class(alloc, active, *class))?;
    }
    Ok(ClassRows { items })
}
