//! The words that operands and positional words go by.

ghost use Rattle.std.specs.Prelude.{◌≡◌};
ghost use Rattle.command_values.specs.OperandWords.{same_word};

/// The words of the operands, and those that a refusal names a positional word by (z/OS Security Server RACF Command
/// Language Reference).
#[derive(Clone, Copy, Debug, PartialEq, Eq)]
pub enum Word {
    /// The user that a command names (as the word that lacks).
    User,
    /// GROUP, the group of a connection; also the group that a command names.
    Group,
    /// NAME, the user's name.
    Name,
    /// DFLTGRP, the user's default group.
    Dfltgrp,
    /// OWNER, the user or group that owns what the command makes or changes.
    Owner,
    /// AUTHORITY, what a user may do in a group.
    Authority,
    /// SPECIAL, the attribute that lets a user administer everything.
    Special,
    /// NOSPECIAL takes it away.
    Nospecial,
    /// OPERATIONS, the attribute for the care of resources.
    Operations,
    /// NOOPERATIONS takes it away.
    Nooperations,
    /// AUDITOR, the attribute that lets a user control logging.
    Auditor,
    /// NOAUDITOR takes it away.
    Noauditor,
    /// RESTRICTED keeps a user from access by ID(*) and universal access.
    Restricted,
    /// NORESTRICTED takes that back.
    Norestricted,
    /// UAUDIT logs all that a user does.
    Uaudit,
    /// NOUAUDIT takes that back.
    Nouaudit,
    /// REVOKE keeps a user or a connection from use.
    Revoke,
    /// RESUME takes that back.
    Resume,
    /// CLAUTH, the classes in which a user may define profiles.
    Clauth,
    /// NOCLAUTH takes classes away.
    Noclauth,
    /// SECLEVEL, the user's security level.
    Seclevel,
    /// NOSECLEVEL takes it away.
    Noseclevel,
    /// ADDCATEGORY, security categories that are added.
    Addcategory,
    /// DELCATEGORY, security categories that are taken away.
    Delcategory,
    /// SECLABEL, the user's security label.
    Seclabel,
    /// NOSECLABEL takes it away.
    Noseclabel,
    /// SUPGROUP, the group above a group.
    Supgroup,
    /// CLASS, the class of a profile; also the class that a command names.
    Class,
    /// The profile that a command names (as the word that lacks).
    Profile,
    /// UACC, the universal access.
    Uacc,
    /// WARNING gives access that would be refused, with a warning.
    Warning,
    /// NOWARNING takes that back.
    Nowarning,
    /// AUDIT, which accesses are logged.
    Audit,
    /// GLOBALAUDIT, which accesses are logged on an auditor's demand.
    Globalaudit,
    /// GENERIC says that the profile is generic; in SETROPTS, the classes whose generic profiles are meant.
    Generic,
    /// ADDMEM, members that are added.
    Addmem,
    /// DELMEM, members that are taken away.
    Delmem,
    /// RESET empties access lists.
    Reset,
    /// ID, the users and groups whose entries are meant.
    Id,
    /// ACCESS, the access that an entry gives.
    Access,
    /// DELETE takes entries away.
    Delete,
    /// WHEN, the port of entry at which entries count.
    When,
    /// CLASSACT, classes that are used in decisions from now on.
    Classact,
    /// NOCLASSACT, classes that are no longer used.
    Noclassact,
    /// GRPLIST lets all groups of a user count.
    Grplist,
    /// NOGRPLIST lets his current group count alone.
    Nogrplist,
    /// PROTECTALL refuses data sets that no profile covers.
    Protectall,
    /// NOPROTECTALL takes that back.
    Noprotectall,
    /// MLS keeps users from writing down from a security label to a lower one.
    Mls,
    /// NOMLS takes that back.
    Nomls,
    /// RACLIST, classes that decisions read from a copy of their profiles.
    Raclist,
    /// NORACLIST, classes whose copy is dropped.
    Noraclist,
    /// GLOBAL, classes for which the global access table is asked.
    Global,
    /// NOGLOBAL, classes for which it is no longer asked.
    Noglobal,
    /// REFRESH makes anew what RACLIST, GLOBAL and GENERIC name.
    Refresh,
    /// LOGOPTIONS, what is logged of accesses to a class.
    Logoptions,
    /// MAXLENGTH, how long the names of a class that is defined may be.
    Maxlength,
    /// NAMES, which names the profiles of a class that is defined have.
    Names,
}

/// The words in full, in the order of the variants.
const SPELLINGS: [&[u8]; 58] = [
    b"USER",
    b"GROUP",
    b"NAME",
    b"DFLTGRP",
    b"OWNER",
    b"AUTHORITY",
    b"SPECIAL",
    b"NOSPECIAL",
    b"OPERATIONS",
    b"NOOPERATIONS",
    b"AUDITOR",
    b"NOAUDITOR",
    b"RESTRICTED",
    b"NORESTRICTED",
    b"UAUDIT",
    b"NOUAUDIT",
    b"REVOKE",
    b"RESUME",
    b"CLAUTH",
    b"NOCLAUTH",
    b"SECLEVEL",
    b"NOSECLEVEL",
    b"ADDCATEGORY",
    b"DELCATEGORY",
    b"SECLABEL",
    b"NOSECLABEL",
    b"SUPGROUP",
    b"CLASS",
    b"PROFILE",
    b"UACC",
    b"WARNING",
    b"NOWARNING",
    b"AUDIT",
    b"GLOBALAUDIT",
    b"GENERIC",
    b"ADDMEM",
    b"DELMEM",
    b"RESET",
    b"ID",
    b"ACCESS",
    b"DELETE",
    b"WHEN",
    b"CLASSACT",
    b"NOCLASSACT",
    b"GRPLIST",
    b"NOGRPLIST",
    b"PROTECTALL",
    b"NOPROTECTALL",
    b"MLS",
    b"NOMLS",
    b"RACLIST",
    b"NORACLIST",
    b"GLOBAL",
    b"NOGLOBAL",
    b"REFRESH",
    b"LOGOPTIONS",
    b"MAXLENGTH",
    b"NAMES",
];

impl Word {
    ghost use Rattle.command_values.specs.OperandWords.{spelling_of};

    /// The word as it is written in full.
    pub fn spelling(self) -> &'static [u8]
        ensures { result.now ≡ spelling_of self }
    {
        SPELLINGS[self as usize]
    }
}

/// Whether two words are one: they are spelled alike.
pub fn is_same(one: Word, other: Word) -> bool
    ensures { result ≡ same_word one other }
{
    one.spelling() == other.spelling()
}
