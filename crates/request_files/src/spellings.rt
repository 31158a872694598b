//! What a single word of a line says. Letters are folded to upper case.

ghost use Rattle.std.specs.Prelude.{◌≡◌, ◌==◌, IfOk, IfSome, IsTrue};
ghost use Rattle.std.specs.List.{list_all};
ghost use Rattle.command_words.specs.Bytes.{upper};
ghost use Rattle.command_values.specs.NamedWords.{id_named as id_in};
ghost use Rattle.generic_names.specs.Faults.{resource_of};
ghost use Rattle.decision.specs.Asked.{may_be_asked};
ghost use Rattle.request_files.specs.Spellings.{folded, level_word};

use access_levels::{Id, Level};
use command_values::{id_named, level_named};
use command_words::{FoldedWord, folded};
use generic_names::{NameFault, NameKind, Resource};

/// A word of at most 246 bytes, as the names of resources are.
type LongWord = FoldedWord<246>;

/// The name with an ID's spelling that a word is. A word that needs no folding is read as it stands.
#[inline(always)]
#[tactic(auto, using(crate::proofs::Folding::id_stays))]
pub(crate) fn id_word(word: &[u8]) -> Option<Id>
    ensures { result ≡ id_in word.now }
{
    match Id::read(word) {
        Ok(id) => Some(id),
        Err(_) => id_named(word),
    }
}

/// The level that a word asks for: READ, UPDATE, CONTROL or ALTER.
#[inline(always)]
pub(crate) fn level_word(word: &[u8]) -> Option<Level>
    ensures level { result ≡ level_word word.now }
    ensures asked { IfSome result (λ level. IsTrue (may_be_asked level)) }
{
    let level = level_named(word)?;
    match level {
        Level::NoAccess | Level::Execute => None,
        Level::Read | Level::Update | Level::Control | Level::Alter => Some(level),
    }
}

/// The name of a resource, as a word spells it. A word that needs no folding is read as it stands.
#[inline(always)]
#[tactic(auto, using(crate::proofs::Folding::folded_stays))]
pub(crate) fn name_word(kind: NameKind, word: &[u8]) -> Result<Resource, NameFault>
    ensures name { result ≡ resource_of kind (folded word.now) }
    ensures kind { IfOk result (λ name. name.kind ≡ kind) }
{
    if is_folded(word) {
        return Resource::read(kind, word);
    }
    folded_name(kind, word)
}

/// The name of a resource, as a word spells it that is folded first. It is a function of its own, since one that may
/// hold the folded word makes room for it each time.
fn folded_name(kind: NameKind, word: &[u8]) -> Result<Resource, NameFault>
    ensures name { result ≡ resource_of kind (folded word.now) }
    ensures kind { IfOk result (λ name. name.kind ≡ kind) }
{
    match LongWord::of(word) {
        Some(long) => Resource::read(kind, long.as_slice()),
        None => Err(NameFault::TooLong),
    }
}

/// Whether no letter of a word is to be folded.
#[inline(always)]
fn is_folded(word: &[u8]) -> bool
    ensures { result ≡ list_all (λ byte. upper byte == byte) word.now }
{
    word.iter().all(|byte| folded(*byte) == *byte)
}
