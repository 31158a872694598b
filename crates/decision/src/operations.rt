//! The cases of the attribute OPERATIONS.
ghost use Rattle.std.specs.Prelude.{◌≡◌, ◌&&◌};
ghost use Rattle.racf_profiles.specs.Tree.{IsTree};
ghost use Rattle.group_tree.specs.ScopeTest.{is_profile_in_scope};
ghost use Rattle.decision.specs.Table.{is_considered, operating_over, first_answer};
ghost use Rattle.decision.specs.Steps.{operations_cases};

use crate::answer::Answer;
use crate::outcome::Rule;
use access_levels::{Id, Level};
use acee::{Acee, AceeGroup};
use group_tree::laws::scope_is_tested;
use racf_profiles::Options;
use raclist_image::Image;

/// The answer of OPERATIONS, the user's or in a group, where it may give access.
pub(crate) fn operations_case(
    image: &Image,
    acee: &Acee,
    owner: Id,
    may: bool,
    standing: Level,
) -> Option<Answer>
    ensures { result ≡ first_answer (operations_cases may acee.now.attributes.operations (operating_over image.now.state.rows acee.now owner) standing) }
{
    if !may {
        return None;
    }
    if acee.attributes.operations {
        return Some(Answer::allowed(Rule::Operations, standing));
    }
    match operating_over(image, acee, owner) {
        Some(group) => Some(Answer::allowed(Rule::GroupOperations(group), standing)),
        None => None,
    }
}

/// The first considered group with group-OPERATIONS in whose scope a profile of that owner is.
fn operating_over(image: &Image, acee: &Acee, owner: Id) -> Option<Id>
    ensures { result ≡ operating_over image.now.state.rows acee.now owner }
{
    match acee
        .groups
        .as_slice()
        .iter()
        .find(|group| operates_over(image, acee, group, owner))
    {
        Some(group) => Some(group.group),
        None => None,
    }
}

/// Whether a group is considered, has group-OPERATIONS, and has a profile of that owner in its scope.
fn operates_over(image: &Image, acee: &Acee, group: &AceeGroup, owner: Id) -> bool
    ensures { result ≡ (is_considered image.now.state.rows.options acee.now group.now && group.now.operations && is_profile_in_scope image.now.state.rows group.now.group owner) }
{
    is_considered(image.options(), acee, group)
        && group.operations
        && is_in_scope(image, group.group, owner)
}

/// Whether a group is considered.
fn is_considered(options: &Options, acee: &Acee, group: &AceeGroup) -> bool
    ensures { result ≡ is_considered options.now acee.now group.now }
{
    options.grplist || group.group == acee.current
}

/// The groups of an image are a tree, where the test tells what is in scope. It does nothing: its contract is what it
/// is for.
pub(crate) fn groups_are_a_tree(image: &Image)
    ensures { IsTree image.now.state.rows.groups }
{
    let _users = image.user_count();
}

/// Whether a profile of that owner is in scope of a group. The groups of every image are a tree, in which
/// the walk up tells it.
fn is_in_scope(image: &Image, top: Id, owner: Id) -> bool
    ensures { result ≡ is_profile_in_scope image.now.state.rows top owner }
{
    groups_are_a_tree(image);
    scope_is_tested();
    image.in_scope(top, owner)
}
