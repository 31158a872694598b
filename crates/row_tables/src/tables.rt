//! The tables: the rows of a database, by name.
ghost use Rattle.std.specs.Prelude.{◌≡◌, ◌≤◌, [], ◌∷◌, length, IsTrue, IfOk, OnOk, OnErr};
ghost use Rattle.std.specs.List.{list_any};
ghost use Rattle.racf_profiles.specs.NewDatabase.{new_database, no_options};
ghost use Rattle.racf_profiles.specs.Names.{connections};
ghost use Rattle.racf_profiles.specs.Counts.{profile_count, entry_count};
ghost use Rattle.racf_profiles.specs.Tree.{IsTree};
ghost use Rattle.racf_profiles.specs.LawfulUsers.{AreUsers};
ghost use Rattle.racf_profiles.specs.LawfulProfiles.{AreClasses};
ghost use Rattle.racf_profiles.specs.Limits.{most_connections_in_all, most_profiles, most_entries_in_all, most_categories};
ghost use Rattle.row_tables.specs.Tables.{rows_of};
ghost use Rattle.row_tables.specs.Applying.{HasRoom, HasRoomFor, HasAtLeast, adds};

use crate::user_table::UserTable;
use access_levels::Id;
use class_profiles::ClassTables;
use generic_names::Pattern;
use group_tree::Tree;
use racf_profiles::{
    CategoryNames, Edit, Group, Groups, NoMemory, Options, Profile, Rows, User, View,
};
use std::alloc::{AllocError, Global};
use std::marker::Model;

/// The users, groups, connections and profiles of a database. Users and groups are found by name in one look-up,
/// whatever their number, and a profile by a search in the order of its class's. In a new database
/// DATASET alone is active, and the options are off but for the names of categories.
#[derive(Drop)]
pub struct RowTables {
    /// The users with their connections.
    pub(crate) users: UserTable,
    /// The groups.
    pub(crate) tree: Tree,
    /// The classes with their profiles.
    pub(crate) classes: ClassTables,
    /// The options of the whole database.
    pub(crate) options: Options,
}

impl Model for RowTables {
    ghost use Rattle.row_tables.specs.Tables.{Tables};

    ghost Value = { Tables };

    ghost use Rattle.row_tables.specs.KeptTables.{tables_of, NamesFew};

    ghost view = { tables_of };

    ghost invariant = { NamesFew };
}

impl RowTables {
    /// The tables of a new database.
    pub fn new(alloc: Global) -> Result<RowTables, NoMemory>
        ensures { IfOk result (λ tables. tables.rows ≡ new_database) }
    {
        let users = first_users(alloc)?;
        let tree = first_tree(alloc)?;
        let classes = ClassTables::new(alloc)?;
        let options = first_options(alloc);
        Ok(RowTables {
            users,
            tree,
            classes,
            options,
        })
    }

    /// The tables of these users, groups, classes and options.
    pub fn of(users: UserTable, tree: Tree, classes: ClassTables, options: Options) -> RowTables
        requires { length options.categories ≤ most_categories }
        ensures { result.rows ≡ rows_of users.users tree.groups classes.classes options }
    {
        RowTables {
            users,
            tree,
            classes,
            options,
        }
    }

    /// The users.
    pub fn users(&self) -> &UserTable
        ensures { result.now.users ≡ self.now.rows.users }
    {
        &self.users
    }

    /// The tree of the groups.
    pub fn tree(&self) -> &Tree
        ensures { result.now.groups ≡ self.now.rows.groups }
    {
        &self.tree
    }

    /// The classes with their profiles.
    pub fn classes(&self) -> &ClassTables
        ensures { result.now.classes ≡ self.now.rows.classes }
    {
        &self.classes
    }

    /// The options.
    pub fn options(&self) -> &Options
        ensures options { result.now ≡ self.now.rows.options }
        ensures few { length result.now.categories ≤ most_categories }
    {
        &self.options
    }

    /// What the tables keep by themselves, whatever edits are made. It does nothing: its contract is what it is for.
    pub fn what_is_kept(&self)
        ensures users { AreUsers self.now.rows.users }
        ensures connections { connections self.now.rows.users ≤ most_connections_in_all }
        ensures groups { IsTree self.now.rows.groups }
        ensures classes { AreClasses self.now.rows.classes }
        ensures profiles { profile_count self.now.rows.classes ≤ most_profiles }
        ensures entries { entry_count self.now.rows.classes ≤ most_entries_in_all }
        ensures categories { length self.now.rows.options.categories ≤ most_categories }
    {
        let _users = self.users.len();
        let _connections = self.users.connections();
        let _groups = self.tree.len();
        let _profiles = self.classes.count();
        let _entries = self.classes.entries();
    }

    /// All rows, copied.
    pub fn to_rows(&self, alloc: Global) -> Result<Rows, NoMemory>
        ensures { IfOk result (λ rows. rows ≡ self.now.rows) }
    {
        let users = self.users.rows(alloc)?;
        let groups = group_rows(alloc, &self.tree)?;
        let classes = self.classes.rows(alloc)?;
        let options = self.options.copy(alloc)?;
        Ok(Rows {
            users,
            groups,
            classes,
            options,
        })
    }

    /// Makes room for the rows that edits add: where one of them puts a user, a group or a profile of a class that
    /// isn't there, room for as many of these as there are edits; where one adds a class, room for a class.
    ///
    /// # Errors
    ///
    /// Want of memory, where an edit adds a row: the rows are as they were, and there is no less room.
    pub fn reserve(&mut self, edits: &[Edit]) -> Result<(), NoMemory>
        ensures kept { HasAtLeast self.old self.new }
        ensures room { OnOk result (HasRoom self.new edits.now) }
        ensures err { OnErr result (IsTrue (list_any (adds self.old.rows) edits.now)) }
    {
        let more = edits.len();
        for edit in edits {
            self.reserve_for(edit, more)?;
        }
        Ok(())
    }

    /// Makes room for this many rows of the kind that the edit puts, or for a class. That there is none counts only where it adds one,
    /// which is looked up only then.
    #[inline(always)]
    fn reserve_for(&mut self, edit: &Edit, more: usize) -> Result<(), NoMemory>
        ensures kept { HasAtLeast self.old self.new }
        ensures room { OnOk result (HasRoomFor more (edit.now ∷ []) self.new) }
        ensures err { OnErr result (IsTrue (adds self.old.rows edit.now)) }
    {
        match self.reserve_kind(edit, more) {
            Ok(()) => Ok(()),
            Err(fault) => {
                if self.adds(edit) {
                    return Err(fault);
                }
                Ok(())
            }
        }
    }

    /// Makes room for this many rows of the kind that the edit puts, or for the class that it adds.
    #[inline(always)]
    fn reserve_kind(&mut self, edit: &Edit, more: usize) -> Result<(), NoMemory>
        ensures kept { HasAtLeast self.old self.new }
        ensures room { OnOk result (HasRoomFor more (edit.now ∷ []) self.new) }
    {
        match edit {
            Edit::PutUser(_) => self.users.reserve(more),
            Edit::PutGroup(_) => reserve_groups(&mut self.tree, more),
            Edit::PutProfile(class, _) => self.classes.reserve(*class, more),
            Edit::AddClass(_) => self.classes.reserve_class(),
            _ => Ok(()),
        }
    }

    /// Whether the edit puts a row that isn't there, or adds a class.
    #[inline(always)]
    fn adds(&self, edit: &Edit) -> bool
        ensures { result ≡ adds self.now.rows edit.now }
    {
        match edit {
            Edit::PutUser(user) => self.users.get(user.id).is_none(),
            Edit::PutGroup(group) => self.tree.get(group.id).is_none(),
            Edit::PutProfile(class, profile) => {
                self.classes.profile(*class, &profile.name).is_none()
            }
            Edit::AddClass(_) => true,
            _ => false,
        }
    }
}

impl View for RowTables {
    ghost rows = { λ tables. tables.rows };

    fn user(&self, id: Id) -> Option<&User> {
        self.users.get(id)
    }

    fn group(&self, id: Id) -> Option<&Group> {
        self.tree.get(id)
    }

    fn profile(&self, class: Id, name: &Pattern) -> Option<&Profile> {
        self.classes.profile(class, name)
    }
}

/// Makes room for this many groups.
fn reserve_groups(tree: &mut Tree, more: usize) -> Result<(), NoMemory>
    ensures groups { tree.new.groups ≡ tree.old.groups }
    ensures room { OnOk result (more ≤ tree.new.spare) }
    ensures kept { tree.old.spare ≤ tree.new.spare }
{
    match tree.reserve(more) {
        Ok(()) => Ok(()),
        Err(_) => Err(AllocError),
    }
}

/// The groups, copied.
fn group_rows(alloc: Global, tree: &Tree) -> Result<Groups, NoMemory>
    ensures { IfOk result (λ groups. groups ≡ tree.now.groups) }
{
    let mut items = Vec::new(alloc);
    for place in 0..tree.len() {
        let group = tree.at(place);
        let _superior: Option<Id> = group.superior;
        items.push(*group)?;
    }
    Ok(Groups { items })
}

/// The users of a new database.
fn first_users(alloc: Global) -> Result<UserTable, NoMemory>
    ensures { IfOk result (λ table. table.users ≡ new_database.users) }
{
    let rows = Rows::new_database(alloc)?;
    let mut items = rows.users.items;
    let mut table = UserTable::new(alloc);
    if let Some(user) = items.pop() {
        table.reserve(1)?;
        table.put(user);
    }
    Ok(table)
}

/// The tree of a new database.
fn first_tree(alloc: Global) -> Result<Tree, NoMemory>
    ensures { IfOk result (λ tree. tree.groups ≡ new_database.groups) }
{
    match Tree::new(alloc) {
        Ok(tree) => Ok(tree),
        Err(_) => Err(AllocError),
    }
}

/// The options of a new database.
fn first_options(alloc: Global) -> Options
    ensures { result ≡ no_options }
{
    Options {
        grplist: false,
        protectall: false,
        mls: false,
        categories: CategoryNames {
            items: Vec::new(alloc),
        },
    }
}
