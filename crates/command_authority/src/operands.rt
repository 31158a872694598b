//! Which operands of a command stand.
ghost use Rattle.std.specs.Prelude.{◌≡◌, ◌||◌, not};
ghost use Rattle.generic_names.specs.Spelled.{is_empty};
ghost use Rattle.command_authority.specs.Operands.{gives_attribute, alters_attribute, alters_uaudit, alters_uaudit_alone, alters_group_attribute, alt_sd_audits_alone, r_alter_audits_alone, logs_alone};
ghost use Rattle.command_authority.specs.OperandGroups.{alters_person, alters_rights, alters_state, alters_security, alters_profile, sets_classes, sets_switches};

use access_levels::{Id, Level};
use command_fields::{AddUser, AltSd, AltUser, Connect, Ids, RAlter, SetRopts};
use racf_profiles::AuditRule;

/// ADDUSER: SPECIAL, OPERATIONS, AUDITOR or CLAUTH stands.
pub(crate) fn gives_attribute(command: &AddUser) -> bool
    ensures { result ≡ gives_attribute command.now }
{
    command.special || command.operations || command.auditor || !command.clauth.items.is_empty()
}

/// ALTUSER: [NO]SPECIAL, [NO]OPERATIONS, [NO]AUDITOR, CLAUTH or NOCLAUTH stands.
pub(crate) fn alters_attribute(command: &AltUser) -> bool
    ensures { result ≡ alters_attribute command.now }
{
    command.special
        || command.nospecial
        || command.operations
        || command.nooperations
        || command.auditor
        || command.noauditor
        || !command.clauth.items.is_empty()
        || !command.noclauth.items.is_empty()
}

/// ALTUSER: [NO]UAUDIT stands.
pub(crate) fn alters_uaudit(command: &AltUser) -> bool
    ensures { result ≡ alters_uaudit command.now }
{
    command.uaudit || command.nouaudit
}

/// ALTUSER: [NO]UAUDIT is the only operand.
pub(crate) fn alters_uaudit_alone(command: &AltUser) -> bool
    ensures { result ≡ alters_uaudit_alone command.now }
{
    alters_uaudit(command) && !alters_more(command)
}

/// ALTUSER: an operand other than [NO]UAUDIT stands.
fn alters_more(command: &AltUser) -> bool
    ensures { result ≡ (alters_person command.now || alters_rights command.now || alters_state command.now || alters_security command.now.seclevel command.now.noseclevel command.now.addcategory command.now.delcategory command.now.seclabel command.now.noseclabel) }
{
    alters_person(command)
        || alters_rights(command)
        || alters_state(command)
        || alters_security(
            command.seclevel,
            command.noseclevel,
            &command.addcategory,
            &command.delcategory,
            command.seclabel,
            command.noseclabel,
        )
}

/// NAME, DFLTGRP or OWNER stands.
fn alters_person(command: &AltUser) -> bool
    ensures { result ≡ alters_person command.now }
{
    command.name.is_some() || command.dfltgrp.is_some() || command.owner.is_some()
}

/// An attribute other than UAUDIT stands.
fn alters_rights(command: &AltUser) -> bool
    ensures { result ≡ alters_rights command.now }
{
    command.special
        || command.nospecial
        || command.operations
        || command.nooperations
        || command.auditor
        || command.noauditor
        || command.restricted
        || command.norestricted
}

/// REVOKE, RESUME, CLAUTH or NOCLAUTH stands.
fn alters_state(command: &AltUser) -> bool
    ensures { result ≡ alters_state command.now }
{
    command.revoke
        || command.resume
        || !command.clauth.items.is_empty()
        || !command.noclauth.items.is_empty()
}

/// An operand stands that is about the security level, the categories or the label.
fn alters_security(
    seclevel: Option<Id>,
    noseclevel: bool,
    addcategory: &Ids,
    delcategory: &Ids,
    seclabel: Option<Id>,
    noseclabel: bool,
) -> bool
    ensures { result ≡ alters_security seclevel noseclevel addcategory.now delcategory.now seclabel noseclabel }
{
    seclevel.is_some()
        || noseclevel
        || !addcategory.items.is_empty()
        || !delcategory.items.is_empty()
        || seclabel.is_some()
        || noseclabel
}

/// CONNECT: [NO]SPECIAL, [NO]OPERATIONS or [NO]AUDITOR stands.
pub(crate) fn alters_group_attribute(command: &Connect) -> bool
    ensures { result ≡ alters_group_attribute command.now }
{
    command.special
        || command.nospecial
        || command.operations
        || command.nooperations
        || command.auditor
        || command.noauditor
}

/// ALTDSD: GLOBALAUDIT is the only operand.
pub(crate) fn alt_sd_audits_alone(command: &AltSd) -> bool
    ensures { result ≡ alt_sd_audits_alone command.now }
{
    command.globalaudit.is_some() && !alters_data_set(command)
}

/// ALTDSD: an operand other than GLOBALAUDIT stands.
fn alters_data_set(command: &AltSd) -> bool
    ensures { result ≡ (alters_profile command.now.owner command.now.uacc command.now.warning command.now.nowarning command.now.audit || alters_security command.now.seclevel command.now.noseclevel command.now.addcategory command.now.delcategory command.now.seclabel command.now.noseclabel) }
{
    alters_profile(
        command.owner,
        command.uacc,
        command.warning,
        command.nowarning,
        command.audit,
    ) || alters_security(
        command.seclevel,
        command.noseclevel,
        &command.addcategory,
        &command.delcategory,
        command.seclabel,
        command.noseclabel,
    )
}

/// RALTER: GLOBALAUDIT is the only operand.
pub(crate) fn r_alter_audits_alone(command: &RAlter) -> bool
    ensures { result ≡ r_alter_audits_alone command.now }
{
    command.globalaudit.is_some() && !alters_resource(command)
}

/// RALTER: an operand other than GLOBALAUDIT stands.
fn alters_resource(command: &RAlter) -> bool
    ensures { result ≡ (alters_profile command.now.owner command.now.uacc command.now.warning command.now.nowarning command.now.audit || alters_security command.now.seclevel command.now.noseclevel command.now.addcategory command.now.delcategory command.now.seclabel command.now.noseclabel || (not (is_empty command.now.addmem) || not (is_empty command.now.delmem))) }
{
    alters_profile(
        command.owner,
        command.uacc,
        command.warning,
        command.nowarning,
        command.audit,
    ) || alters_security(
        command.seclevel,
        command.noseclevel,
        &command.addcategory,
        &command.delcategory,
        command.seclabel,
        command.noseclabel,
    ) || alters_members(command)
}

/// RALTER: ADDMEM or DELMEM stands.
fn alters_members(command: &RAlter) -> bool
    ensures { result ≡ (not (is_empty command.now.addmem) || not (is_empty command.now.delmem)) }
{
    !command.addmem.items.is_empty() || !command.delmem.items.is_empty()
}

/// OWNER, UACC, [NO]WARNING or AUDIT of a profile stands.
fn alters_profile(
    owner: Option<Id>,
    uacc: Option<Level>,
    warning: bool,
    nowarning: bool,
    audit: Option<AuditRule>,
) -> bool
    ensures { result ≡ alters_profile owner uacc warning nowarning audit }
{
    owner.is_some() || uacc.is_some() || warning || nowarning || audit.is_some()
}

/// SETROPTS: LOGOPTIONS is the only operand.
pub(crate) fn logs_alone(command: &SetRopts) -> bool
    ensures { result ≡ logs_alone command.now }
{
    !command.logoptions.items.is_empty() && !(sets_classes(command) || sets_switches(command))
}

/// A list of classes stands.
fn sets_classes(command: &SetRopts) -> bool
    ensures { result ≡ sets_classes command.now }
{
    !command.classact.items.is_empty()
        || !command.noclassact.items.is_empty()
        || !command.raclist.items.is_empty()
        || !command.noraclist.items.is_empty()
        || !command.global.items.is_empty()
        || !command.noglobal.items.is_empty()
        || !command.generic.items.is_empty()
}

/// An operand stands that is no list.
fn sets_switches(command: &SetRopts) -> bool
    ensures { result ≡ sets_switches command.now }
{
    command.grplist
        || command.nogrplist
        || command.protectall
        || command.noprotectall
        || command.mls
        || command.nomls
        || command.refresh
}
