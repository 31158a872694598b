//! The words behind the first one of a line, read for each kind of line.

ghost use Rattle.std.specs.Prelude.{◌≡◌};
ghost use Rattle.command_words.specs.TakingWords.{seen};
ghost use Rattle.request_files.specs.Grammar.{with_word as with_one, with_words as with_all, user_alone, deleted, number_after, verified_by, asked_by};
ghost use Rattle.request_files.specs.Seen.{asked_seen};

use crate::asked::Asked;
use crate::next_words::{ended, next_id, next_level, next_name, next_number};
use crate::operands::{operand_word, with_operand};
use access_levels::Id;
use acee::VerifyRequest;
use command_words::{LineWord, LineWords};
use racf_profiles::kind_in;

/// What the words of VERIFY say.
#[derive(Clone, Copy)]
pub(crate) struct Verified {
    /// The name of the ACEE to be made.
    pub(crate) acee: Id,
    /// Who is to be verified, and from where.
    pub(crate) request: VerifyRequest,
}

/// DELETE: the name of an ACEE.
#[tactic(auto, unfolding(crate::specs::Grammar::deleted))]
pub(crate) fn deleted(words: &LineWords) -> Result<Id, u32>
    ensures { result ≡ deleted words.now }
{
    let (acee, rest) = next_id(words)?;
    ended(&rest, acee)
}

/// `*AFTER`: a number.
#[tactic(auto, unfolding(crate::specs::Grammar::number_after))]
pub(crate) fn number_after(words: &LineWords) -> Result<u64, u32>
    ensures { result ≡ number_after words.now }
{
    let (number, rest) = next_number(words)?;
    ended(&rest, number)
}

/// VERIFY: the name of an ACEE, a user, and operands.
#[tactic(auto, unfolding(crate::specs::Grammar::verified_by))]
pub(crate) fn verified_by(words: &LineWords) -> Result<Verified, u32>
    ensures { result ≡ verified_by words.now }
{
    let (acee, rest) = next_id(words)?;
    let (user, rest) = next_id(&rest)?;
    let request = with_words(user_alone(user), rest)?;
    Ok(Verified { acee, request })
}

/// A request that names a user, and nothing else.
fn user_alone(user: Id) -> VerifyRequest
    ensures { result ≡ user_alone user }
{
    VerifyRequest {
        user,
        group: None,
        port: None,
        application: None,
        label: None,
    }
}

/// The request with the operands that these words spell.
fn with_words(request: VerifyRequest, words: LineWords) -> Result<VerifyRequest, u32>
    ensures { result ≡ with_all request words.entry.words }
{
    let mut request = request;
    let mut left = words;
    while let Some((word, rest)) = left.split_first() {
        request = with_word(&request, word)?;
        left = rest;
    }
    Ok(request)
}

/// The request with the operand that a word spells.
fn with_word(request: &VerifyRequest, word: LineWord) -> Result<VerifyRequest, u32>
    ensures { result ≡ with_one request.now (seen word.entry) }
{
    let Some(operand) = operand_word(word.text) else {
        return Err(word.place);
    };
    match with_operand(request, &operand) {
        Some(longer) => Ok(longer),
        None => Err(word.place),
    }
}

/// AUTH and FASTAUTH: the name of an ACEE, a class, the name of a resource, and a level.
#[inline(always)]
#[tactic(auto, unfolding(crate::specs::Grammar::asked_by))]
pub(crate) fn asked_by<'a>(words: &LineWords<'a>) -> Result<Asked<'a>, u32>
    ensures { asked_seen result ≡ asked_by words.now }
{
    let (acee, rest) = next_id(words)?;
    let (class, rest) = next_id(&rest)?;
    let (name, rest) = next_name(kind_in(class), &rest)?;
    let (level, rest) = next_level(&rest)?;
    let asked = Asked {
        acee,
        class,
        name,
        level,
    };
    ended(&rest, asked)
}
