//! From the table's view of a command to the command.

ghost use Rattle.std.specs.Prelude.{◌≡◌};
ghost use Rattle.command_grammar.specs.Lawful.{IsLawful};
ghost use Rattle.command_grammar.specs.Parts.{generic};
ghost use Rattle.command_parser.specs.Fields.{only_id as only_id_in, only_profile as only_profile_in, class_and_profile as class_and_profile_in, cdt_profile as cdt_profile_in, no_word as no_word_in};
ghost use Rattle.command_parser.specs.CommandOf.{command_of};
ghost use Rattle.command_parser.specs.Canonical.{generic_view};

use crate::convert_options::set_ropts;
use crate::convert_profiles::{
    add_sd, alt_sd, alter_class, define_class, permit, r_alter, r_define,
};
use crate::convert_users::{add_group, add_user, alt_group, alt_user, connect, remove};
use access_levels::Id;
use command_fields::{CommandFields, DelGroup, DelSd, DelUser, RDelete, is_cdt};
use command_grammar::{Parts, Verb};
use command_values::Content;
use generic_names::Pattern;
use std::alloc::Global;

/// The only positional word, where it is a name.
#[inline(always)]
fn only_id(words: &[Content]) -> Option<Id>
    ensures { result ≡ only_id_in words.now }
{
    match words {
        [Content::Id(id)] => Some(*id),
        _ => None,
    }
}

/// The only positional word, where it is a profile.
#[inline(always)]
fn only_profile(words: &[Content]) -> Option<Pattern>
    ensures { result ≡ only_profile_in words.now }
{
    match words {
        [Content::Profile(name)] => Some(*name.pattern()),
        _ => None,
    }
}

/// The two positional words, where they are a class and a profile.
#[inline(always)]
fn class_and_profile(words: &[Content]) -> Option<(Id, Pattern)>
    ensures { result ≡ class_and_profile_in words.now }
{
    match words {
        [Content::Id(class), Content::Profile(name)] => Some((*class, *name.pattern())),
        _ => None,
    }
}

/// The profile of class CDT, where the positional words name one.
#[inline(always)]
fn cdt_profile(words: &[Content]) -> Option<Pattern>
    ensures { result ≡ cdt_profile_in words.now }
{
    let (class, profile) = class_and_profile(words)?;
    if is_cdt(class) { Some(profile) } else { None }
}

/// Nothing, where no positional word stands.
fn no_word(words: &[Content]) -> Option<()>
    ensures { result ≡ no_word_in words.now }
{
    if words.is_empty() { Some(()) } else { None }
}

/// The command of which this is the table's view, if there is one.
#[tactic(auto, unfolding(crate::specs::CommandOf::command_of))]
fn command_in_parts(alloc: Global, parts: Parts) -> Option<CommandFields>
    ensures { result ≡ command_of (generic parts) }
{
    let Parts {
        verb,
        positions,
        slots,
    } = parts;
    let words = positions.as_slice();
    Some(match verb {
        Verb::AddUser => CommandFields::AddUser(add_user(alloc, only_id(words)?, slots)),
        Verb::AltUser => CommandFields::AltUser(alt_user(alloc, only_id(words)?, slots)),
        Verb::DelUser => CommandFields::DelUser(DelUser {
            user: only_id(words)?,
        }),
        Verb::AddGroup => CommandFields::AddGroup(add_group(only_id(words)?, slots)),
        Verb::AltGroup => CommandFields::AltGroup(alt_group(only_id(words)?, slots)),
        Verb::DelGroup => CommandFields::DelGroup(DelGroup {
            group: only_id(words)?,
        }),
        Verb::Connect => CommandFields::Connect(connect(only_id(words)?, slots)),
        Verb::Remove => CommandFields::Remove(remove(only_id(words)?, slots)),
        Verb::AddSd => CommandFields::AddSd(add_sd(alloc, only_profile(words)?, slots)),
        Verb::AltSd => CommandFields::AltSd(alt_sd(alloc, only_profile(words)?, slots)),
        Verb::DelSd => CommandFields::DelSd(DelSd {
            profile: only_profile(words)?,
        }),
        Verb::RDefine => CommandFields::RDefine(r_define(alloc, class_and_profile(words)?, slots)),
        Verb::RAlter => CommandFields::RAlter(r_alter(alloc, class_and_profile(words)?, slots)),
        Verb::DefineClass => CommandFields::DefineClass(define_class(cdt_profile(words)?, slots)),
        Verb::AlterClass => CommandFields::AlterClass(alter_class(cdt_profile(words)?, slots)),
        Verb::RDelete => {
            let (class, profile) = class_and_profile(words)?;
            CommandFields::RDelete(RDelete { class, profile })
        }
        Verb::Permit => CommandFields::Permit(permit(alloc, only_profile(words)?, slots)?),
        Verb::SetRopts => {
            no_word(words)?;
            CommandFields::SetRopts(set_ropts(alloc, slots))
        }
    })
}

/// The command of which this is the table's view.
pub fn fields_in_parts(alloc: Global, parts: Parts) -> CommandFields
    requires { IsLawful (generic parts) }
    ensures { generic_view result ≡ generic parts }
{
    match command_in_parts(alloc, parts) {
        Some(fields) => fields,
        None => unreachable!(),
    }
}
