//! The commands on profiles, from their positional words and the values of their operands.

ghost use Rattle.std.specs.Prelude.{◌≡◌};
ghost use Rattle.std.specs.Option.{option_map};
ghost use Rattle.command_values.specs.declared.operand_words.Word.TheVariants as words;
ghost use Rattle.command_grammar.specs.declared.table.Verb.TheVariants as verbs;
ghost use Rattle.command_parser.specs.Fields.{found_for, id_in};
ghost use Rattle.command_parser.specs.ProfileFields.{add_sd_in, alt_sd_in, r_define_in, define_class_in, r_alter_in, alter_class_in, permit_in};

use crate::slots::Slots;
use access_levels::Id;
use command_fields::{AddSd, AltSd, AlterClass, DefineClass, Permit, RAlter, RDefine};
use command_values::Content;
use generic_names::Pattern;
use std::alloc::Global;

/// ADDSD, of whose operands these are the values.
pub fn add_sd(alloc: Global, profile: Pattern, slots: Vec<Option<Content>>) -> AddSd
    ensures { result ≡ add_sd_in profile slots.items }
{
    let mut slots = Slots::new(slots);
    AddSd {
        profile,
        owner: slots.id(),
        uacc: slots.level(),
        warning: slots.flag(),
        nowarning: slots.flag(),
        audit: slots.audit(),
        seclevel: slots.id(),
        addcategory: slots.ids(alloc),
        seclabel: slots.id(),
    }
}

/// ALTDSD, of whose operands these are the values.
pub fn alt_sd(alloc: Global, profile: Pattern, slots: Vec<Option<Content>>) -> AltSd
    ensures { result ≡ alt_sd_in profile slots.items }
{
    let mut slots = Slots::new(slots);
    AltSd {
        profile,
        owner: slots.id(),
        uacc: slots.level(),
        warning: slots.flag(),
        nowarning: slots.flag(),
        audit: slots.audit(),
        globalaudit: slots.audit(),
        seclevel: slots.id(),
        noseclevel: slots.flag(),
        addcategory: slots.ids(alloc),
        delcategory: slots.ids(alloc),
        seclabel: slots.id(),
        noseclabel: slots.flag(),
    }
}

/// RDEFINE, of this class and profile, of whose operands these are the values.
pub fn r_define(alloc: Global, names: (Id, Pattern), slots: Vec<Option<Content>>) -> RDefine
    ensures { result ≡ r_define_in names.0 names.1 slots.items }
{
    let (class, profile) = names;
    let mut slots = Slots::new(slots);
    RDefine {
        class,
        profile,
        owner: slots.id(),
        uacc: slots.level(),
        warning: slots.flag(),
        nowarning: slots.flag(),
        audit: slots.audit(),
        seclevel: slots.id(),
        addcategory: slots.ids(alloc),
        seclabel: slots.id(),
        addmem: slots.members(alloc),
    }
}

/// RDEFINE in class CDT, of whose operands these are the values.
pub fn define_class(profile: Pattern, slots: Vec<Option<Content>>) -> DefineClass
    ensures { result ≡ define_class_in profile slots.items }
{
    let mut slots = Slots::new(slots);
    DefineClass {
        profile,
        owner: slots.id(),
        maxlength: slots.length(),
        operations: slots.truth(),
        names: slots.class_names(),
    }
}

/// RALTER in class CDT, of whose operands these are the values.
pub fn alter_class(profile: Pattern, slots: Vec<Option<Content>>) -> AlterClass
    ensures { result ≡ alter_class_in profile slots.items }
{
    let mut slots = Slots::new(slots);
    AlterClass {
        profile,
        owner: slots.id(),
    }
}

/// RALTER, of this class and profile, of whose operands these are the values.
pub fn r_alter(alloc: Global, names: (Id, Pattern), slots: Vec<Option<Content>>) -> RAlter
    ensures { result ≡ r_alter_in names.0 names.1 slots.items }
{
    let (class, profile) = names;
    let mut slots = Slots::new(slots);
    RAlter {
        class,
        profile,
        owner: slots.id(),
        uacc: slots.level(),
        warning: slots.flag(),
        nowarning: slots.flag(),
        audit: slots.audit(),
        globalaudit: slots.audit(),
        seclevel: slots.id(),
        noseclevel: slots.flag(),
        addcategory: slots.ids(alloc),
        delcategory: slots.ids(alloc),
        seclabel: slots.id(),
        noseclabel: slots.flag(),
        addmem: slots.members(alloc),
        delmem: slots.member_names(alloc),
    }
}

/// PERMIT, of whose operands these are the values, where its class is among them.
pub fn permit(alloc: Global, profile: Pattern, slots: Vec<Option<Content>>) -> Option<Permit>
    ensures { result ≡ option_map (λ class. permit_in profile class slots.items) (id_in (found_for verbs.Permit slots.items words.Class)) }
{
    let mut slots = Slots::new(slots);
    let class = slots.id()?;
    Some(Permit {
        profile,
        class,
        reset: slots.reset(),
        id: slots.whos(alloc),
        access: slots.level(),
        delete: slots.flag(),
        when: slots.when(),
    })
}
