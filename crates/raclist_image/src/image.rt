//! The image of a state.
ghost use Rattle.std.specs.Prelude.{◌≡◌, ◌↔◌, ◌<◌, ◌≤◌, length, slice_get, Some, IfOk, IfSome, IsSome, IsTrue, option_map};
ghost use Rattle.std.specs.Arc.{arc_value};
ghost use Rattle.std.specs.Option.{option_copied};
ghost use Rattle.racf_profiles.specs.Lookup.{user_of, group_of, class_of};
ghost use Rattle.racf_profiles.specs.Edits.{changed};
ghost use Rattle.racf_profiles.specs.State.{restart, effective, changed_state};
ghost use Rattle.racf_profiles.specs.Scope.{InScopeProfile};
ghost use Rattle.racf_profiles.specs.LawfulProfiles.{kind_in};
ghost use Rattle.racf_profiles.specs.Lawful.{AreLawful, LeaveLawfulClasses};
ghost use Rattle.racf_profiles.specs.DynamicClasses.{facts_in, allows_operations};
ghost use Rattle.raclist_image.specs.Flags.{options_of, flags_of};
ghost use Rattle.raclist_image.specs.GlobalMembers.{global_members};
ghost use Rattle.raclist_image.specs.PlacedNames.{names_placed, most_placed_by};

use crate::class_image::ClassImage;
use crate::flags::{ClassFlags, ClassOptions};
use crate::names::names_length;
use crate::state::ImageState;
use access_levels::Id;
use class_profiles::Made;
use generic_names::Pattern;
use group_tree::{in_scope_group, in_scope_user};
use racf_profiles::{
    Change, ClassFacts, FixedClass, Group, Member, NoMemory, Options, Rows, User, facts_in,
    general_name,
};
use std::alloc::Global;
use std::marker::Model;
use std::sync::Arc;

/// The state that decisions read, with its number: users, groups, classes and options as they stood behind a command.
/// It never changes, and no call that reads it takes memory.
#[derive(Drop)]
pub struct Image {
    /// The rows and the listed copies.
    state: ImageState,
    /// How many commands were accepted before this state.
    generation: u64,
    /// The lengths of the profile names in the buckets that were made anew when this image was made.
    placed: usize,
}

impl Model for Image {
    ghost use Rattle.raclist_image.specs.Imaged.{Imaged};

    ghost Value = { Imaged };

    ghost use Rattle.raclist_image.specs.KeptImage.{imaged, IsKept};

    ghost view = { imaged };

    ghost invariant = { IsKept };
}

impl Image {
    /// The image of these rows, copied, in which each listed copy is equal to the live profiles. It takes time that
    /// grows with the rows.
    pub fn of(alloc: Global, rows: &Rows, generation: u64) -> Result<Arc<Image>, NoMemory>
        requires { AreLawful rows.now }
        ensures { IfOk result (λ image. arc_value image ≡ record { state = restart rows.now; generation = generation }) }
    {
        Ok(Image::made_of(alloc, rows, generation)?.what)
    }

    /// The image of the state behind these edits, made in their order, with its number. What the edits don't lead to
    /// has one more owner, so that the time grows with the edits, and hardly with the rows.
    pub fn after(
        &self,
        alloc: Global,
        change: &Change,
        generation: u64,
    ) -> Result<Arc<Image>, NoMemory>
        requires classes { LeaveLawfulClasses change.now.edits self.now.state.rows }
        requires lawful { AreLawful (changed change.now.edits self.now.state.rows) }
        ensures { IfOk result (λ image. arc_value image ≡ record { state = changed_state change.now.edits self.now.state; generation = generation }) }
    {
        Ok(self.made_after(alloc, change, generation)?.what)
    }

    /// The image of these rows, as `of` makes it, and what it placed: the names of all profiles, each in its bucket.
    pub fn made_of(
        alloc: Global,
        rows: &Rows,
        generation: u64,
    ) -> Result<Made<Arc<Image>>, NoMemory>
        requires { AreLawful rows.now }
        ensures image { IfOk result (λ made. arc_value made.what ≡ record { state = restart rows.now; generation = generation }) }
        ensures placed { IfOk result (λ made. made.placed ≡ names_placed rows.now) }
    {
        racf_profiles::laws::listed_classes_have_copies();
        let state = ImageState::of(alloc, rows)?;
        let placed = names_length(&rows.classes.items)?;
        let image = Image {
            state,
            generation,
            placed,
        };
        Ok(Made {
            what: Arc::new(alloc, image)?,
            placed,
        })
    }

    /// The image of the state behind these edits, as `after` makes it, and what it placed: the names of the buckets
    /// that each edit of a profile made anew.
    pub fn made_after(
        &self,
        alloc: Global,
        change: &Change,
        generation: u64,
    ) -> Result<Made<Arc<Image>>, NoMemory>
        requires classes { LeaveLawfulClasses change.now.edits self.now.state.rows }
        requires lawful { AreLawful (changed change.now.edits self.now.state.rows) }
        ensures image { IfOk result (λ made. arc_value made.what ≡ record { state = changed_state change.now.edits self.now.state; generation = generation }) }
        ensures placed { IfOk result (λ made. made.placed ≤ most_placed_by change.now.edits) }
    {
        racf_profiles::laws::rows_are_changed();
        racf_profiles::laws::listed_classes_have_copies();
        let mut state = self.state.share(alloc)?;
        let placed = state.make_all(alloc, change.edits.items.as_slice())?;
        let image = Image {
            state,
            generation,
            placed,
        };
        Ok(Made {
            what: Arc::new(alloc, image)?,
            placed,
        })
    }

    /// The lengths of the profile names, summed over the buckets that were made anew when this image was made: what
    /// `made_of` or `made_after` answered beside it.
    pub fn placed(&self) -> usize {
        self.placed
    }

    /// How many commands were accepted before this state.
    pub fn generation(&self) -> u64
        ensures { result ≡ self.now.generation }
    {
        self.generation
    }

    /// The effective profiles of the class of that name: its listed copy where it is RACLISTed, else its live
    /// profiles. None where no class has the name.
    pub fn effective(&self, class: Id) -> Option<&ClassImage>
        ensures profiles { option_map (λ image. image.profiles) (option_copied result) ≡ effective class self.now.state }
        ensures known { IsSome result ↔ IsSome (class_of class self.now.state.rows) }
        ensures kind { IfSome result (λ image. image.now.kind ≡ kind_in class) }
    {
        let entry = self.state.classes.get(class)?;
        if entry.options().listed {
            return self.state.copies.get(class);
        }
        Some(entry.profiles())
    }

    /// The user of that ID, in as many comparisons as the number of users has binary digits, and a few more.
    pub fn user(&self, id: Id) -> Option<&User>
        ensures { option_copied result ≡ user_of id self.now.state.rows }
    {
        self.state.user(id)
    }

    /// The group of that name, in as many comparisons as the number of groups has binary digits, and a few more.
    pub fn group(&self, id: Id) -> Option<&Group>
        ensures { option_copied result ≡ group_of id self.now.state.rows }
    {
        self.state.group(id)
    }

    /// How many users there are, at most 20,000.
    pub fn user_count(&self) -> usize
        ensures count { result ≡ length self.now.state.rows.users }
        ensures lawful { AreLawful self.now.state.rows }
    {
        self.state.user_count()
    }

    /// The user at that place, from 0, in order of definition.
    pub fn user_at(&self, place: usize) -> &User
        requires { place < length self.now.state.rows.users }
        ensures { slice_get self.now.state.rows.users place ≡ Some result.now }
    {
        self.state.user_at(place)
    }

    /// The options of the whole system.
    pub fn options(&self) -> &Options
        ensures { result.now ≡ self.now.state.rows.options }
    {
        self.state.options()
    }

    /// What is set for the class of that name. None where no class has the name.
    pub fn class(&self, class: Id) -> Option<ClassOptions>
        ensures { result ≡ options_of class self.now.state }
    {
        match self.state.classes.get(class) {
            Some(entry) => Some(entry.options()),
            None => None,
        }
    }

    /// The flags of the class of that name: what `class` answers, with whether the class allows OPERATIONS, for which
    /// it is looked up once more. None where no class has the name.
    pub fn class_flags(&self, class: Id) -> Option<ClassFlags>
        ensures { result ≡ flags_of class self.now.state }
    {
        match self.state.classes.get(class) {
            Some(entry) => {
                let options = entry.options();
                Some(ClassFlags {
                    active: options.active,
                    listed: options.listed,
                    global: options.global,
                    operations: self.allows_operations(class),
                    log: options.log,
                })
            }
            None => None,
        }
    }

    /// What the class of that name allows: of a fixed class what the class table says, of a dynamic one what its live
    /// profile in CDT says, which is looked up. None where it is neither.
    pub fn facts_in(&self, class: Id) -> Option<ClassFacts>
        ensures { result ≡ facts_in class self.now.state.rows }
    {
        facts_in(&self.state, class)
    }

    /// Whether OPERATIONS gives access in the class of that name, as `facts_in` says.
    pub fn allows_operations(&self, class: Id) -> bool
        ensures { result ≡ allows_operations class self.now.state.rows }
    {
        match self.facts_in(class) {
            Some(facts) => facts.operations,
            None => false,
        }
    }

    /// The global access table of a class, in the order in which its members were added: those of the live profile of
    /// class GLOBAL that has the name of the class. It is empty where there is no such profile.
    pub fn members(&self, class: Id) -> &[Member]
        ensures { result.now ≡ global_members class self.now.state.rows }
    {
        match self.state.classes.get(FixedClass::Global.id()) {
            Some(entry) => entry
                .profiles()
                .members(&Pattern::discrete(&general_name(class))),
            None => &[],
        }
    }

    /// Whether a profile of that owner is in scope of the group `top`: a group in scope owns it, or a user in scope
    /// (this product's own rule). One look-up for each group on the way up to `top`.
    pub fn in_scope(&self, top: Id, owner: Id) -> bool
        ensures { IsTrue result ↔ InScopeProfile self.now.state.rows top owner }
    {
        if in_scope_group(&self.state, top, owner) {
            return true;
        }
        match self.user(owner) {
            Some(user) => in_scope_user(&self.state, top, user.owner),
            None => false,
        }
    }
}
