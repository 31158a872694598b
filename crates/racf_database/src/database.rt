//! The database: its rows, by name, and the change that was prepared.
ghost use Rattle.std.specs.Prelude.{◌≡◌, None, Some, IfOk};
ghost use Rattle.std.specs.Result.{result_err};
ghost use Rattle.racf_profiles.specs.Edits.{changed};
ghost use Rattle.racf_profiles.specs.Lawful.{AreLawful};
ghost use Rattle.racf_profiles.specs.NewDatabase.{new_database};
ghost use Rattle.command_rules.specs.Conflicts.{conflict_of};

use access_levels::Id;
use command_conflicts::check_command;
use command_parser::{Command, Issuer};
use command_rules::Conflict;
use generic_names::Pattern;
use group_tree::Tree;
use lawful_commands::new_rows_are_lawful;
use racf_profiles::{Change, Group, NoMemory, Profile, Rows, User, View};
use row_tables::RowTables;
use std::alloc::Global;
use std::marker::Model;
use std::snapshot::Snapshot;

/// The users, groups, connections and profiles of a database, which are lawful at any time. Users and groups are
/// found by name in one look-up, whatever their number, and a profile by a search in the order of its class's.
///
/// A command is judged by `check`, then `prepare` takes all memory and answers its edits, and `apply` makes them.
#[derive(Drop)]
pub struct Database {
    /// The rows. What holds of the rows of every database holds of them.
    pub(crate) tables: RowTables,
    /// The change that was prepared last and isn't applied, as contracts see it: the value itself is its owner's. It
    /// can be applied without memory, and leaves lawful rows.
    pub(crate) prepared: Option<Snapshot<Change>>,
}

impl Model for Database {
    ghost use Rattle.racf_database.specs.Contents.{Contents};

    ghost Value = { Contents };

    ghost use Rattle.racf_database.specs.Kept.{contents_of, IsKept};

    ghost view = { contents_of };

    ghost invariant = { IsKept };
}

impl Database {
    /// A new database: IBMUSER and SYS1, and DATASET alone active.
    pub fn new(alloc: Global) -> Result<Database, NoMemory>
        ensures rows { IfOk result (λ database. database.rows ≡ new_database) }
        ensures nothing_prepared { IfOk result (λ database. database.prepared ≡ None) }
    {
        let tables = RowTables::new(alloc)?;
        new_rows_are_lawful();
        Ok(Database {
            tables,
            prepared: None,
        })
    }

    /// The database of lawful rows that are in tables already.
    pub fn of(tables: RowTables) -> Database
        requires { AreLawful tables.rows }
        ensures rows { result.rows ≡ tables.rows }
        ensures nothing_prepared { result.prepared ≡ None }
    {
        Database {
            tables,
            prepared: None,
        }
    }

    /// Whether the rows allow the command. It takes no memory. A command takes a look-up for each name in it.
    /// DELGROUP also looks at every group, where a user may be connected at every user, and where a data set profile
    /// may have its name, as DELUSER does, at every data set profile. PERMIT compares each ID with those before it
    /// and with the entries of the list, and ADDMEM each member with those before it and with the others.
    ///
    /// # Errors
    ///
    /// The first conflict that is met, by the order of the kinds and then of the operands in the canonical text.
    pub fn check(&self, issuer: &Issuer, command: &Command) -> Result<(), Conflict>
        ensures { result_err result ≡ conflict_of issuer.now command.now self.now.rows }
    {
        check_command(&self.tables, issuer, command.fields())
    }

    /// Makes the change that was prepared last. It takes no memory. A user or a group that goes takes time that grows
    /// with the users or the groups, and a profile that comes or goes moves those behind it in its class; any other
    /// row that is put takes a look-up.
    pub fn apply(&mut self, change: Change)
        requires { self.old.prepared ≡ Some change }
        ensures rows { self.new.rows ≡ changed change.edits self.old.rows }
        ensures nothing_prepared { self.new.prepared ≡ None }
    {
        self.prepared = None;
        self.tables.apply(change.edits.items);
    }

    /// The tree of its groups.
    pub fn tree(&self) -> &Tree
        ensures { result.now.groups ≡ self.now.rows.groups }
    {
        self.tables.tree()
    }

    /// All rows, copied.
    pub fn to_rows(&self, alloc: Global) -> Result<Rows, NoMemory>
        ensures rows { IfOk result (λ rows. rows ≡ self.now.rows) }
        ensures lawful { AreLawful self.now.rows }
    {
        self.tables.to_rows(alloc)
    }
}

impl View for Database {
    ghost rows = { λ database. database.rows };

    fn user(&self, id: Id) -> Option<&User> {
        self.tables.user(id)
    }

    fn group(&self, id: Id) -> Option<&Group> {
        self.tables.group(id)
    }

    fn profile(&self, class: Id, name: &Pattern) -> Option<&Profile> {
        self.tables.profile(class, name)
    }
}
