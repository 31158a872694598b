//! The decision on a request: the first case of the table that fits, for AUTH and for FASTAUTH.
ghost use Rattle.std.specs.Prelude.{◌≡◌, ◌&&◌, ◌↔◌, ℕ, not, List, None, IsTrue, bytes_eq, unwrap_or, codes};
ghost use Rattle.acee.specs.Verify.{is_active};
ghost use Rattle.generic_names.specs.Spelled.{first_qualifier};
ghost use Rattle.racf_profiles.specs.DynamicClasses.{allows_operations};
ghost use Rattle.racf_profiles.specs.declared.profiles.Profile.{Profile};
ghost use Rattle.racf_profiles.specs.Scope.{InScopeProfile};
ghost use Rattle.group_tree.specs.ScopeTest.{is_profile_in_scope};
ghost use Rattle.raclist_image.specs.Facts.{AreFacts, AreFactsOf};
ghost use Rattle.decision.specs.Steps.{is_open};
ghost use Rattle.decision.specs.Classification.{profile_for, classified};
ghost use Rattle.decision.specs.Table.{decided, fast_decided, cases_of_class, fast_cases_of_class, first_answer, case, with, else_case, granted_to, is_dataset, answer_with_profile, answer_without_profile};

use crate::answer::Answer;
use crate::classification::classified;
use crate::entries::{conditional_case, entry_case, is_open, listed, standing};
use crate::operations::{groups_are_a_tree, operations_case};
use crate::outcome::{Decision, Rule};
use crate::request::Request;
use access_levels::{Id, Level};
use access_lists::Found;
use acee::{Acee, is_active};
use generic_names::{Resource, first_qualifier};
use global_table::grants;
use group_tree::laws::scope_is_tested;
use racf_profiles::{FixedClass, Options};
use raclist_image::{Facts, Image};

/// Whether the user of the ACEE may have the access that is asked for (z/OS Security Server RACF Security
/// Administrator's Guide, authorization checking), as the image has classes, profiles, groups and options.
///
/// It goes through the global access table where the class uses it, looks for the profile once, asks each of its access
/// lists once, and takes no memory.
#[tactic(auto, unfolding(crate::specs::Table::decided))]
pub fn auth(image: &Image, acee: &Acee, request: &Request) -> Decision
    ensures decided { result ≡ decided image.now.state image.now.generation acee.now request.now.class request.now.name request.now.asked }

    // Scope is asked by a test that can be computed; this says that it is scope by ways up.
    ensures scope { (top owner : List ℕ) → IsTrue (is_profile_in_scope image.now.state.rows top owner) ↔ InScopeProfile image.now.state.rows top owner }
{
    groups_are_a_tree(image);
    scope_is_tested();
    let generation = image.generation();
    if let Some(answer) = class_answer(image, acee, request) {
        return answer.decision(generation);
    }
    match facts_for(image, request) {
        None => without_profile(image.options(), request.class).decision(generation),
        Some(facts) => with_profile(image, acee, request, &facts).decision_on(&facts, generation),
    }
}

/// The same, answered from the listed copy of the class (z/OS Security Server RACROUTE Macro Reference, FASTAUTH). It
/// decides in RACLISTed classes alone, and asks neither the global access table nor PROTECTALL (this product's own
/// rules).
///
/// It looks for the profile once, asks each of its access lists once, and takes no memory.
#[tactic(auto, unfolding(crate::specs::Table::fast_decided))]
pub fn fastauth(image: &Image, acee: &Acee, request: &Request) -> Decision
    ensures decided { result ≡ fast_decided image.now.state image.now.generation acee.now request.now.class request.now.name request.now.asked }
    ensures scope { (top owner : List ℕ) → IsTrue (is_profile_in_scope image.now.state.rows top owner) ↔ InScopeProfile image.now.state.rows top owner }
{
    groups_are_a_tree(image);
    scope_is_tested();
    let generation = image.generation();
    if let Some(answer) = listed_class_answer(image, request.class) {
        return answer.decision(generation);
    }
    match facts_for(image, request) {
        None => undecided(Rule::NoProfile).decision(generation),
        Some(facts) => with_profile(image, acee, request, &facts).decision_on(&facts, generation),
    }
}

/// What a decision reads of the profile that covers the name, where one does.
#[inline(always)]
fn facts_for<'a>(image: &'a Image, request: &Request) -> Option<Facts<'a>>
    ensures { AreFactsOf (profile_for image.now.state request.now.class request.now.name) result }
{
    match image.effective(request.class) {
        Some(profiles) => profiles.find(&request.name),
        None => None,
    }
}

/// The answer that comes before a profile is asked.
#[inline(always)]
fn class_answer(image: &Image, acee: &Acee, request: &Request) -> Option<Answer>
    ensures { result ≡ first_answer (cases_of_class image.now.state.rows acee.now request.now.class request.now.name request.now.asked) }
{
    match image.class(request.class) {
        None => Some(undecided(Rule::NoClass)),
        Some(options) if !options.active => Some(undecided(Rule::ClassOff)),
        Some(options) if options.global => global_answer(image, acee, request),
        Some(_) => None,
    }
}

/// The answer of the global access table of a class that uses it. It gives nothing to a RESTRICTED user, and nothing
/// while labels are checked; then it is not looked up.
fn global_answer(image: &Image, acee: &Acee, request: &Request) -> Option<Answer>
    ensures { result ≡ with (granted_to image.now.state.rows acee.now request.now.class request.now.name request.now.asked) (λ grant. case (not (is_active (codes "SECLABEL") image.now.state.rows) && not acee.now.attributes.restricted) (Rule.Global grant.place) 0 grant.level) }
{
    if acee.attributes.restricted || is_active(image, FixedClass::Seclabel.id()) {
        return None;
    }
    let members = image.members(request.class);
    match grants(
        members,
        acee.user,
        acee.current,
        &request.name,
        request.asked,
    ) {
        Some(grant) => Some(Answer::allowed(Rule::Global(grant.place), grant.level)),
        None => None,
    }
}

/// The answer that comes before a profile is asked, in FASTAUTH.
#[inline(always)]
fn listed_class_answer(image: &Image, class: Id) -> Option<Answer>
    ensures { result ≡ first_answer (fast_cases_of_class image.now.state.rows class) }
{
    match image.class(class) {
        None => Some(undecided(Rule::NoClass)),
        Some(options) if !options.active => Some(undecided(Rule::ClassOff)),
        Some(options) if !options.listed => Some(undecided(Rule::NotListed)),
        Some(_) => None,
    }
}

/// Nothing is decided.
#[inline(always)]
fn undecided(rule: Rule) -> Answer
    ensures { result ≡ else_case rule 4 Level.NoAccess }
{
    Answer {
        rule,
        rc: 4,
        found: Level::NoAccess,
    }
}

/// The answer where no profile covers the name.
#[inline(always)]
fn without_profile(options: &Options, class: Id) -> Answer
    ensures { result ≡ answer_without_profile options.now class }
{
    if is_dataset(class) && options.protectall {
        Answer {
            rule: Rule::ProtectAll,
            rc: 8,
            found: Level::NoAccess,
        }
    } else {
        undecided(Rule::NoProfile)
    }
}

/// The answer of the profile that covers the name.
#[inline(always)]
fn with_profile(image: &Image, acee: &Acee, request: &Request, facts: &Facts<'_>) -> Answer
    ensures { (p : Profile) → AreFacts p facts.now → result ≡ answer_with_profile (classified image.now.state acee.now p request.now.asked) image.now.state.rows acee.now request.now.class request.now.name request.now.asked p }
{
    match classified(image, acee, facts, request.asked) {
        Some(why) => Answer {
            rule: Rule::Classified(why),
            rc: 8,
            found: Level::NoAccess,
        },
        None => unclassified(image, acee, request, facts),
    }
}

/// The answer of the profile, where the classification check passes.
#[inline(always)]
fn unclassified(image: &Image, acee: &Acee, request: &Request, facts: &Facts<'_>) -> Answer
    ensures { (p : Profile) → AreFacts p facts.now → result ≡ answer_with_profile None image.now.state.rows acee.now request.now.class request.now.name request.now.asked p }
{
    if is_own(acee, request.class, &request.name) {
        return Answer::allowed(Rule::OwnData, Level::NoAccess);
    }
    let options = image.options();
    let restricted = acee.attributes.restricted;
    let found = listed(options, acee, facts.standard);
    if let Some(answer) = entry_case(&found, restricted, facts.uacc, request.asked) {
        return answer;
    }
    if let Some(answer) = conditional_case(options, acee, facts.conditional, request.asked) {
        return answer;
    }
    let standing = standing(&found, restricted, facts.uacc);
    let may = may_operate(image, request.class, &found);
    if let Some(answer) = operations_case(image, acee, facts.owner, may, standing) {
        return answer;
    }
    last_case(facts.warning, standing)
}

/// Whether OPERATIONS may give access: the class allows it, and there is no entry for the user or his groups. The image
/// is asked only where there is none.
#[inline(always)]
fn may_operate(image: &Image, class: Id, found: &Found) -> bool
    ensures { result ≡ (allows_operations class image.now.state.rows && is_open found.now) }
{
    is_open(found) && image.allows_operations(class)
}

/// The answer where nothing gives access: a profile that only warns gives it then.
#[inline(always)]
fn last_case(warning: bool, standing: Level) -> Answer
    ensures { result ≡ unwrap_or (case warning Rule.Warning 0 standing) (else_case Rule.Insufficient 8 standing) }
{
    if warning {
        Answer::allowed(Rule::Warning, standing)
    } else {
        Answer {
            rule: Rule::Insufficient,
            rc: 8,
            found: standing,
        }
    }
}

/// Whether the request is for the user's own data.
#[inline(always)]
fn is_own(acee: &Acee, class: Id, name: &Resource) -> bool
    ensures { result ≡ (is_dataset class && bytes_eq (first_qualifier name.now.text) acee.now.user) }
{
    is_dataset(class) && first_qualifier(name.text()) == acee.user.text()
}

/// Whether it is the class of data sets.
#[inline(always)]
fn is_dataset(class: Id) -> bool
    ensures { result ≡ is_dataset class }
{
    class.text() == FixedClass::Dataset.name()
}
