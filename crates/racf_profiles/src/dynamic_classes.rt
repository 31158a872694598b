//! Dynamic classes, which RDEFINE in class CDT defines, and what a class of either kind allows.
ghost use Rattle.std.specs.Prelude.{◌≡◌, option_map, option_and_then, option_copied};
ghost use Rattle.racf_profiles.specs.declared.profiles.Profile.{Profile};
ghost use Rattle.racf_profiles.specs.DynamicClasses.{traits_of, facts_of_traits, facts_in};

use crate::fixed_classes::{ClassFacts, FixedClass, NameForm, class_facts};
use crate::names::general_name;
use crate::profiles::{ClassTraits, Member, Profile};
use crate::view::View;
use access_levels::Id;
use generic_names::Pattern;

impl ClassTraits {
    /// What a class of these traits allows.
    pub fn facts(self) -> ClassFacts
        ensures { result ≡ facts_of_traits self }
    {
        ClassFacts {
            names: if self.ids {
                NameForm::Identifier
            } else {
                NameForm::General
            },
            longest: Some(self.longest),
            operations: self.operations,
            generic: !self.ids,
            raclist: true,
        }
    }
}

/// The traits that these members of a CDT profile are; none where they are others.
pub fn traits_of(members: &[Member]) -> Option<ClassTraits>
    ensures { result ≡ traits_of members.now }
{
    match members {
        [Member::Traits(traits)] => Some(*traits),
        _ => None,
    }
}

/// What the class of that name allows: of a fixed class what the class table says, of a dynamic one what its profile in
/// CDT says, which is looked up; none where it is no class.
pub fn facts_in<V: View>(view: &V, class: Id) -> Option<ClassFacts>
    ensures { result ≡ facts_in class (V.rows view.now) }
{
    match class_facts(class) {
        Some(facts) => Some(*facts),
        None => {
            let name = Pattern::discrete(&general_name(class));
            facts_of_profile(view.profile(FixedClass::Cdt.id(), &name))
        }
    }
}

/// What the traits in this CDT profile allow.
fn facts_of_profile(profile: Option<&Profile>) -> Option<ClassFacts>
    ensures { result ≡ option_map facts_of_traits (option_and_then (λ (p : Profile). traits_of p.members) (option_copied profile.entry)) }
{
    match traits_of(profile?.members.items.as_slice()) {
        Some(traits) => Some(traits.facts()),
        None => None,
    }
}
