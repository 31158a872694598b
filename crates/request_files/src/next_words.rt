//! The next word of a line, taken for what it says. What doesn't fit is told by its place; where a word lacks, that is
//! the place behind the line's last byte.

ghost use Rattle.std.specs.Prelude.{◌≡◌, IfOk, IsTrue};
ghost use Rattle.decision.specs.Asked.{may_be_asked};
ghost use Rattle.command_values.specs.NamedWords.{id_named as id_in};
ghost use Rattle.request_files.specs.Spellings.{level_word as level_in, name_word as name_in, number_word as number_of};
ghost use Rattle.request_files.specs.Grammar.{next, ended};
ghost use Rattle.request_files.specs.Seen.{name_seen};

use crate::asked::ResourceWord;
use crate::numbers::number_word;
use crate::spellings::{id_word, level_word};
use access_levels::{Id, Level};
use command_words::LineWords;
use generic_names::NameKind;

/// An ID, and the words behind it.
#[inline(always)]
#[tactic(auto, unfolding(crate::specs::Grammar::next))]
pub(crate) fn next_id<'a>(words: &LineWords<'a>) -> Result<(Id, LineWords<'a>), u32>
    ensures { result ≡ next id_in words.now }
{
    let Some((word, rest)) = words.split_first() else {
        return Err(words.end());
    };
    match id_word(word.text) {
        Some(id) => Ok((id, rest)),
        None => Err(word.place),
    }
}

/// A number, and the words behind it.
#[tactic(auto, unfolding(crate::specs::Grammar::next))]
pub(crate) fn next_number<'a>(words: &LineWords<'a>) -> Result<(u64, LineWords<'a>), u32>
    ensures { result ≡ next number_of words.now }
{
    let Some((word, rest)) = words.split_first() else {
        return Err(words.end());
    };
    match number_word(word.text) {
        Some(number) => Ok((number, rest)),
        None => Err(word.place),
    }
}

/// The word that names a resource, whatever is wrong with it, and the words behind it.
#[inline(always)]
#[tactic(auto, unfolding(crate::specs::Grammar::next))]
pub(crate) fn next_name<'a>(
    kind: NameKind,
    words: &LineWords<'a>,
) -> Result<(ResourceWord<'a>, LineWords<'a>), u32>
    ensures name { name_seen result ≡ next (name_in kind) words.now }
    ensures kind { IfOk result (λ t. t.0.kind ≡ kind) }
{
    let Some((word, rest)) = words.split_first() else {
        return Err(words.end());
    };
    let text = word.text;
    Ok((ResourceWord { kind, text }, rest))
}

/// A level that may be asked for, and the words behind it.
#[inline(always)]
#[tactic(auto, unfolding(crate::specs::Grammar::next))]
pub(crate) fn next_level<'a>(words: &LineWords<'a>) -> Result<(Level, LineWords<'a>), u32>
    ensures level { result ≡ next level_in words.now }
    ensures asked { IfOk result (λ t. IsTrue (may_be_asked t.0)) }
{
    let Some((word, rest)) = words.split_first() else {
        return Err(words.end());
    };
    match level_word(word.text) {
        Some(level) => Ok((level, rest)),
        None => Err(word.place),
    }
}

/// What was said, unless a word is left.
#[inline(always)]
pub(crate) fn ended<T: Drop>(words: &LineWords, said: T) -> Result<T, u32>
    ensures { result ≡ ended words.now.words said }
{
    match words.split_first() {
        Some((word, _)) => Err(word.place),
        None => Ok(said),
    }
}
