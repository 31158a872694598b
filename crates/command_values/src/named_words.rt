//! What a single word names. Letters are folded to upper case.

ghost use Rattle.std.specs.Prelude.{◌≡◌};
ghost use Rattle.command_values.specs.NamedWords.{id_named, group_named, level_named, authority_named, port_class_named};

use access_levels::{GroupAuthority, Id, Level, PortClass};
use command_words::ShortWord;

/// The name with an ID's spelling that a word is.
pub fn id_named(word: &[u8]) -> Option<Id>
    ensures { result ≡ id_named word.now }
{
    let short = ShortWord::of(word)?;
    Id::read(short.as_slice()).ok()
}

/// The group's name that a word spells.
pub fn group_named(word: &[u8]) -> Option<Id>
    ensures { result ≡ group_named word.now }
{
    let short = ShortWord::of(word)?;
    Id::read_group(short.as_slice()).ok()
}

/// The access level that a word is.
pub fn level_named(word: &[u8]) -> Option<Level>
    ensures { result ≡ level_named word.now }
{
    let short = ShortWord::of(word)?;
    Level::read(short.as_slice())
}

/// The group authority that a word names.
pub(crate) fn authority_named(word: &[u8]) -> Option<GroupAuthority>
    ensures { result ≡ authority_named word.now }
{
    let short = ShortWord::of(word)?;
    GroupAuthority::read(short.as_slice())
}

/// The class of ports of entry that a word names.
pub fn port_class_named(word: &[u8]) -> Option<PortClass>
    ensures { result ≡ port_class_named word.now }
{
    let short = ShortWord::of(word)?;
    PortClass::read(short.as_slice())
}
