//! Profiles, read.
ghost use Rattle.std.specs.Prelude.{◌≡◌, ◌≤◌, ◌+◌, ◌++◌, ◌∷◌, [], length, IfOk, nat_le, ◌&&◌};
ghost use Rattle.std.specs.List.{sum_by};
ghost use Rattle.std.specs.Option.{option_map_or};
ghost use Rattle.std.specs.Result.{result_ok};
ghost use Rattle.generic_names.specs.Faults.{longest, pattern_of};
ghost use Rattle.racf_profiles.specs.Counts.{entries_in};
ghost use Rattle.racf_profiles.specs.Limits.{most_entries_in_all};
ghost use Rattle.racf_profiles.specs.ClassTable.{facts_of};
ghost use Rattle.racf_profiles.specs.LawfulProfiles.{kind_in};
ghost use Rattle.racf_profiles.specs.declared.profiles.Profile.{Profile};
ghost use Rattle.racf_profiles.specs.declared.fixed_classes.ClassFacts.{ClassFacts};
ghost use Rattle.database_image.specs.Reading.{Gives};
ghost use Rattle.database_image.specs.Forms.{spelled_at, items_from, number};
ghost use Rattle.database_image.specs.Fields.{text_spelling};
ghost use Rattle.database_image.specs.Description.{pattern, pattern_in, spelled_text, is_named_by, is_name_in, comes_behind, is_pattern_at, profile};

use crate::categories::defined_at;
use crate::entries::{cond_entries_at, entries_at};
use crate::faults::ReadFault;
use crate::fields::{audit_at, byte_at, flag_at, id_at, label_at, level_at, short_at};
use crate::left::{Left, require};
use crate::members::members_at;
use access_levels::Id;
use generic_names::{NameKind, Pattern, first_qualifier};
use racf_profiles::{AuditRule, ClassFacts, NameForm, Profile, class_facts, kind_in};
use std::alloc::Global;

/// So many profiles of a class; the profiles of the classes before have so many entries.
pub fn profiles_from(
    alloc: Global,
    categories: &[Id],
    class: Id,
    earlier: usize,
    count: u32,
    left: &mut Left<'_>,
) -> Result<Vec<Profile>, ReadFault>
    requires categories { length categories.now ≤ 256 }
    requires few { earlier ≤ most_entries_in_all }
    ensures reads { Gives (λ x. (x.items, left.new)) result (items_from (profile categories.now class earlier) count [] left.old) }
    ensures count { IfOk result (λ x. length x.items ≡ count) }
    ensures few { IfOk result (λ x. earlier + sum_by entries_in x.items ≤ most_entries_in_all) }
{
    let mut held = earlier;
    let mut items = Vec::new(alloc);
    for _ in 0..count {
        let profile = next_profile(alloc, categories, class, earlier, &items, held, left)?;
        held += entries_in(&profile);
        items.push(profile)?;
    }
    Ok(items)
}

/// How many entries a profile has.
pub fn entries_in(profile: &Profile) -> usize
    ensures { result ≡ entries_in profile.now }
{
    profile.standard.items.len() + profile.conditional.items.len()
}

/// A profile of a class behind others; all before have so many entries.
#[tactic(auto, unfolding(crate::specs::Description::profile))]
fn next_profile(
    alloc: Global,
    categories: &[Id],
    class: Id,
    earlier: usize,
    before: &[Profile],
    held: usize,
    left: &mut Left<'_>,
) -> Result<Profile, ReadFault>
    requires categories { length categories.now ≤ 256 }
    requires held { held ≡ earlier + sum_by entries_in before.now }
    requires few { held ≤ most_entries_in_all }
    ensures reads { Gives (λ x. (x, left.new)) result ((profile categories.now class earlier before.now).reading left.old) }
    ensures few { IfOk result (λ x. held + entries_in x ≤ most_entries_in_all) }
{
    let name = pattern_at(class, before, left)?;
    let owner = id_at(left)?;
    let uacc = level_at(left)?;
    let warning = flag_at(left)?;
    let success = audit_at(left)?;
    let failures = audit_at(left)?;
    let global_success = audit_at(left)?;
    let global_failures = audit_at(left)?;
    let level = byte_at(left)?;
    let set = defined_at(categories.len(), left)?;
    let label = label_at(left)?;
    let standard = entries_at(alloc, held, left)?;
    let conditional = cond_entries_at(alloc, held + standard.items.len(), left)?;
    let members = members_at(alloc, categories, class, &name, left)?;
    Ok(Profile {
        name,
        owner,
        uacc,
        warning,
        standard,
        conditional,
        level,
        categories: set,
        label,
        audit: AuditRule { success, failures },
        global_audit: AuditRule {
            success: global_success,
            failures: global_failures,
        },
        members,
    })
}

/// The name of a profile of the class behind others.
fn pattern_at(class: Id, before: &[Profile], left: &mut Left<'_>) -> Result<Pattern, ReadFault>
    ensures { Gives (λ x. (x, left.new)) result ((pattern class before.now).reading left.old) }
{
    let count = name_length_at(class, left)?;
    let begin = left.len();
    let name = name_at(class, usize::from(count), left)?;
    require(is_pattern_at(class, before, &name), begin)?;
    Ok(name)
}

/// The length of a name in the class.
fn name_length_at(class: Id, left: &mut Left<'_>) -> Result<u16, ReadFault>
    ensures { Gives (λ x. (x, left.new)) result ((number 2 (λ count. nat_le 1 count && nat_le count (longest (kind_in class)))).reading left.old) }
{
    let begin = left.len();
    let count = short_at(left)?;
    let most = longest(kind_in(class));
    require(1 <= count && count <= most, begin)?;
    Ok(count)
}

/// The most bytes of a name.
pub fn longest(kind: NameKind) -> u16
    ensures { result ≡ longest kind }
{
    match kind {
        NameKind::DataSet => 44,
        NameKind::General => 246,
    }
}

/// A name in the class, of so many bytes.
#[tactic(auto, unfolding(crate::specs::Forms::spelled_at, crate::specs::Description::pattern_in))]
fn name_at(class: Id, count: usize, left: &mut Left<'_>) -> Result<Pattern, ReadFault>
    ensures { Gives (λ x. (x, left.new)) result (spelled_at (text_spelling spelled_text (pattern_in class) count) left.old) }
{
    let begin = left.len();
    let text = left.part(count)?;
    match Pattern::read(kind_in(class), text) {
        Ok(name) => Ok(name),
        Err(_) => Err(ReadFault::At(begin)),
    }
}

/// Whether a profile of the class may have the name, behind others.
#[tactic(auto, unfolding(crate::specs::Description::is_pattern_at))]
fn is_pattern_at(class: Id, before: &[Profile], name: &Pattern) -> bool
    ensures { result ≡ is_pattern_at class before.now name.now }
{
    match class_facts(class) {
        Some(facts) => is_name_in(facts, name) && comes_behind(before, name),
        None => comes_behind(before, name),
    }
}

/// Whether a profile of a class that allows this may have the name.
fn is_name_in(facts: &ClassFacts, name: &Pattern) -> bool
    ensures { result ≡ is_name_in facts.now name.now }
{
    is_named_by(facts.names, name.text()) && (!name.is_generic() || facts.generic)
}

/// Whether a text is a name of this form.
fn is_named_by(names: NameForm, text: &[u8]) -> bool
    ensures { result ≡ is_named_by names text.now }
{
    match names {
        NameForm::DataSet => Id::read(first_qualifier(text)).is_ok(),
        NameForm::General => true,
        NameForm::LevelOrCategory => text == b"SECLEVEL".as_slice()
            || text == b"CATEGORY".as_slice(),
        NameForm::Identifier => Id::read(text).is_ok(),
        NameForm::Class => Id::read(text).is_ok(),
    }
}

/// Whether the last of the profiles before is more specific.
fn comes_behind(before: &[Profile], name: &Pattern) -> bool
    ensures { result ≡ comes_behind before.now name.now }
{
    match before.last() {
        Some(last) => last.name.before(name),
        None => true,
    }
}
