//! Who gives the commands, by the words of the command line.

ghost use Rattle.std.specs.Prelude.{◌≡◌};
ghost use Rattle.racf_run.specs.Issuers.{fixed_issuer, is_issuer_word};

use command_values::id_named;
use statements::Issuing;

/// Whether the word fixes the issuer, whose ID is the next one.
pub(crate) fn is_issuer_word(word: &str) -> bool
    ensures { result ≡ is_issuer_word word.now }
{
    word == "--issuer"
}

/// The user of this ID alone. Letters are folded to upper case; without lawful spelling the word names nobody.
pub(crate) fn fixed_issuer(word: &str) -> Option<Issuing>
    ensures { result ≡ fixed_issuer word.now }
{
    Some(Issuing::Fixed(id_named(word.as_bytes())?))
}
