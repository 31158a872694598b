//! The state that an image holds, and what an edit makes of it.
ghost use Rattle.std.specs.Prelude.{◌≡◌, ◌<◌, ◌≤◌, length, slice_get, Some, IsOk, IfOk, OnOk};
ghost use Rattle.std.specs.Arc.{arc_value};
ghost use Rattle.std.specs.Option.{option_copied};
ghost use Rattle.racf_profiles.specs.declared.edits.Edit.TheVariants as edits;
ghost use Rattle.racf_profiles.specs.Lookup.{user_of, group_of};
ghost use Rattle.racf_profiles.specs.Edits.{edited};
ghost use Rattle.racf_profiles.specs.State.{restart, edited_state, changed_state};
ghost use Rattle.racf_profiles.specs.Lawful.{AreLawful, LeaveLawfulClasses};
ghost use Rattle.racf_profiles.specs.LawfulProfiles.{AreClasses};
ghost use Rattle.racf_profiles.specs.LawfulUsers.{AreUsers};
ghost use Rattle.racf_profiles.specs.Tree.{IsTree};
ghost use Rattle.raclist_image.specs.PlacedNames.{placed_at_most, most_placed_by};

use crate::classes::ClassList;
use crate::copies::CopyList;
use crate::rows::{GroupRow, UserRow};
use access_levels::Id;
use defined_rows::DefinedRows;
use generic_names::Pattern;
use group_tree::GroupList;
use racf_profiles::{Edit, Group, LogOption, NoMemory, Options, Profile, Rows, User, View};
use std::alloc::Global;
use std::marker::Model;
use std::sync::Arc;

/// The rows and the listed copies. A state that was shared is changed without touching the one that it was shared with:
/// an edit makes anew what leads to the row that it names, and the rest has one more owner.
#[derive(Drop)]
pub(crate) struct ImageState {
    /// The users in order of definition.
    users: Arc<DefinedRows<UserRow>>,
    /// The groups in order of definition.
    groups: Arc<DefinedRows<GroupRow>>,
    /// The classes in their order, with their live profiles.
    pub(crate) classes: ClassList,
    /// The options of the whole system.
    options: Arc<Options>,
    /// The listed copies.
    pub(crate) copies: CopyList,
}

impl Model for ImageState {
    ghost use Rattle.racf_profiles.specs.State.{State};

    ghost Value = { State };

    ghost use Rattle.raclist_image.specs.KeptState.{state_of};

    ghost view = { state_of };
}

impl ImageState {
    /// The state in which each listed copy is equal to the live profiles: the rows, copied.
    pub(crate) fn of(alloc: Global, rows: &Rows) -> Result<ImageState, NoMemory>
        requires { AreLawful rows.now }
        ensures { IfOk result (λ state. state ≡ restart rows.now) }
    {
        let classes = ClassList::of(alloc, rows.classes.items.as_slice())?;
        Ok(ImageState {
            users: users_of(alloc, rows.users.items.as_slice())?,
            groups: groups_of(alloc, rows.groups.items.as_slice())?,
            options: Arc::new(alloc, rows.options.copy(alloc)?)?,
            copies: CopyList::of(alloc, &classes)?,
            classes,
        })
    }

    /// The same state once more. It takes as long whatever the number of rows.
    pub(crate) fn share(&self, alloc: Global) -> Result<ImageState, NoMemory>
        ensures { IfOk result (λ state. state ≡ self.now) }
    {
        Ok(ImageState {
            users: Arc::try_clone(&self.users)?,
            groups: Arc::try_clone(&self.groups)?,
            classes: self.classes.share(alloc)?,
            options: Arc::try_clone(&self.options)?,
            copies: self.copies.share(alloc)?,
        })
    }

    /// The user of that ID.
    pub(crate) fn user(&self, id: Id) -> Option<&User>
        ensures { option_copied result ≡ user_of id self.now.rows }
    {
        match self.users.get(id.text()) {
            Some(row) => Some(&row.user),
            None => None,
        }
    }

    /// The group of that name.
    pub(crate) fn group(&self, id: Id) -> Option<&Group>
        ensures { option_copied result ≡ group_of id self.now.rows }
    {
        match self.groups.get(id.text()) {
            Some(row) => Some(&row.group),
            None => None,
        }
    }

    /// How many users there are.
    pub(crate) fn user_count(&self) -> usize
        ensures { result ≡ length self.now.rows.users }
    {
        self.users.len()
    }

    /// The user at that place, from 0, in order of definition.
    pub(crate) fn user_at(&self, place: usize) -> &User
        requires { place < length self.now.rows.users }
        ensures { slice_get self.now.rows.users place ≡ Some result.now }
    {
        &self.users.at(place).user
    }

    /// The options of the whole system.
    pub(crate) fn options(&self) -> &Options
        ensures { result.now ≡ self.now.rows.options }
    {
        &self.options
    }

    /// Makes edits in their order, and answers the lengths of the profile names in the buckets that each made anew.
    pub(crate) fn make_all(&mut self, alloc: Global, edits: &[Edit]) -> Result<usize, NoMemory>
        requires { LeaveLawfulClasses edits.now self.old.rows }
        ensures state { OnOk result (self.new ≡ changed_state edits.now self.old) }
        ensures placed { IfOk result (λ placed. placed ≤ most_placed_by edits.now) }
    {
        let mut placed: usize = 0;
        for edit in edits {
            placed = placed.saturating_add(self.make(alloc, edit)?);
        }
        Ok(placed)
    }

    /// Makes an edit. An edit that names what isn't there changes nothing.
    fn make(&mut self, alloc: Global, edit: &Edit) -> Result<usize, NoMemory>
        requires { AreClasses (edited edit.now self.old.rows).classes }
        ensures state { OnOk result (self.new ≡ edited_state edit.now self.old) }
        ensures placed { IfOk result (λ placed. placed ≤ placed_at_most edit.now) }
    {
        match edit {
            Edit::PutUser(user) => none_placed(self.put_user(alloc, user)),
            Edit::DropUser(id) => none_placed(self.drop_user(alloc, *id)),
            Edit::PutGroup(group) => none_placed(self.put_group(alloc, group)),
            Edit::DropGroup(id) => none_placed(self.drop_group(alloc, *id)),
            Edit::PutProfile(class, profile) => self.classes.put_profile(alloc, *class, profile),
            Edit::DropProfile(class, name) => self.classes.remove_profile(alloc, *class, name),
            Edit::PutOptions(options) => none_placed(self.put_options(alloc, options)),
            Edit::PutClass(class, active, global, log) => {
                none_placed(self.classes.set_flags(*class, *active, *global, *log))
            }
            Edit::List(class) => none_placed(self.list(*class)),
            Edit::Unlist(class) => none_placed(self.unlist(*class)),
            Edit::AddClass(class) => none_placed(self.classes.add(alloc, *class)),
            Edit::DropClass(class) => none_placed(self.drop_class(alloc, *class)),
        }
    }

    /// Puts a user, copied, in the place of the one of that ID, or else last.
    fn put_user(&mut self, alloc: Global, user: &User) -> Result<(), NoMemory>
        ensures { OnOk result (self.new ≡ edited_state (edits.PutUser user.now) self.old) }
    {
        let user = user.copy(alloc)?;
        let users = self.users.with_row(alloc, UserRow { user })?;
        self.users = Arc::new(alloc, users)?;
        Ok(())
    }

    /// Takes the user of that ID away, if there is one.
    fn drop_user(&mut self, alloc: Global, id: Id) -> Result<(), NoMemory>
        ensures { OnOk result (self.new ≡ edited_state (edits.DropUser id) self.old) }
    {
        let users = self.users.without_row(alloc, id.text())?;
        self.users = Arc::new(alloc, users)?;
        Ok(())
    }

    /// Puts a group in the place of the one of that name, or else last.
    fn put_group(&mut self, alloc: Global, group: &Group) -> Result<(), NoMemory>
        ensures { OnOk result (self.new ≡ edited_state (edits.PutGroup group.now) self.old) }
    {
        let groups = self.groups.with_row(alloc, GroupRow { group: *group })?;
        self.groups = Arc::new(alloc, groups)?;
        Ok(())
    }

    /// Takes the group of that name away, if there is one.
    fn drop_group(&mut self, alloc: Global, id: Id) -> Result<(), NoMemory>
        ensures { OnOk result (self.new ≡ edited_state (edits.DropGroup id) self.old) }
    {
        let groups = self.groups.without_row(alloc, id.text())?;
        self.groups = Arc::new(alloc, groups)?;
        Ok(())
    }

    /// Puts options, copied, in the place of those that stood.
    fn put_options(&mut self, alloc: Global, options: &Options) -> Result<(), NoMemory>
        ensures { OnOk result (self.new ≡ edited_state (edits.PutOptions options.now) self.old) }
    {
        self.options = Arc::new(alloc, options.copy(alloc)?)?;
        Ok(())
    }

    /// Makes the listed copy of a class equal to its live profiles, if the class is there.
    fn list(&mut self, class: Id) -> Result<(), NoMemory>
        ensures { OnOk result (self.new ≡ edited_state (edits.List class) self.old) }
    {
        racf_profiles::laws::absent_changes_nothing();
        let Some(entry) = self.classes.get(class) else {
            return Ok(());
        };
        self.copies.put(entry)?;
        self.classes.set_listed(class, true)
    }

    /// Drops the listed copy of a class, if the class is there.
    fn unlist(&mut self, class: Id) -> Result<(), NoMemory>
        ensures { OnOk result (self.new ≡ edited_state (edits.Unlist class) self.old) }
    {
        racf_profiles::laws::absent_changes_nothing();
        let Some(_entry) = self.classes.get(class) else {
            return Ok(());
        };
        self.copies.remove(class);
        self.classes.set_listed(class, false)
    }

    /// Drops a class, with its profiles and its listed copy, if the class is there.
    fn drop_class(&mut self, alloc: Global, class: Id) -> Result<(), NoMemory>
        ensures { OnOk result (self.new ≡ edited_state (edits.DropClass class) self.old) }
    {
        racf_profiles::laws::absent_changes_nothing();
        let Some(_entry) = self.classes.get(class) else {
            return Ok(());
        };
        self.copies.remove(class);
        self.classes.drop_class(alloc, class)
    }
}

impl View for ImageState {
    ghost rows = { λ state. state.rows };

    fn user(&self, id: Id) -> Option<&User> {
        ImageState::user(self, id)
    }

    fn group(&self, id: Id) -> Option<&Group> {
        ImageState::group(self, id)
    }

    fn profile(&self, class: Id, name: &Pattern) -> Option<&Profile> {
        match self.classes.get(class) {
            Some(entry) => entry.profiles().get(name),
            None => None,
        }
    }
}

impl GroupList for ImageState {
    ghost groups = { λ state. state.rows.groups };

    fn find_group(&self, id: Id) -> Option<&Group> {
        self.group(id)
    }
}

/// These users, copied.
fn users_of(alloc: Global, users: &[User]) -> Result<Arc<DefinedRows<UserRow>>, NoMemory>
    requires { AreUsers users.now }
    ensures { IfOk result (λ rows. arc_value rows ≡ users.now) }
{
    let mut items = Vec::with_capacity(alloc, users.len())?;
    for user in users {
        items.push(UserRow {
            user: user.copy(alloc)?,
        })?;
    }
    Ok(Arc::new(alloc, DefinedRows::of(alloc, items)?)?)
}

/// These groups.
fn groups_of(alloc: Global, groups: &[Group]) -> Result<Arc<DefinedRows<GroupRow>>, NoMemory>
    requires { IsTree groups.now }
    ensures { IfOk result (λ rows. arc_value rows ≡ groups.now) }
{
    let mut items = Vec::with_capacity(alloc, groups.len())?;
    for group in groups {
        items.push(GroupRow { group: *group })?;
    }
    Ok(Arc::new(alloc, DefinedRows::of(alloc, items)?)?)
}

/// That an edit made no bucket of profiles anew.
fn none_placed(made: Result<(), NoMemory>) -> Result<usize, NoMemory>
    ensures ok { IsOk result → IsOk made }
    ensures none { IfOk result (λ placed. placed ≡ 0) }
{
    made?;
    Ok(0)
}
