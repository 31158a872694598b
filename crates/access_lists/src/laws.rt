//! Laws of the definitions. The functions do nothing: their contracts are what is proved.

ghost use Rattle.access_lists.specs.Answers.{GroupEntryIsFirst};

/// The group entry is one of the entries for the groups, and none of these goes before it: none has a higher level, and
/// of those with its level its group comes first. There is none exactly where no entry is for one of the groups.
pub fn group_entry_is_first()
    ensures { GroupEntryIsFirst }
{}
