//! Laws of the definitions. The functions do nothing: their contracts are what is proved.

ghost use Rattle.std.specs.Prelude.{◌≡◌, ℕ, List, Ok, length, nat_lt, false};
ghost use Rattle.command_values.specs.declared.values.Context.{Context};
ghost use Rattle.command_grammar.specs.Reading.{Generic, parsed};
ghost use Rattle.command_grammar.specs.Canon.{canon, spelled};
ghost use Rattle.command_grammar.specs.Lawful.{IsLawful};

/// What a text is read as is lawful.
pub fn what_is_read_is_lawful()
    ensures { (at : Context) (text : List ℕ) (command : Generic) → parsed at text ≡ Ok command → IsLawful command }
{}

/// What is lawful is read again from its canonical text, whoever gives it, unless that text is too long.
pub fn canonical_text_is_read_again()
    ensures { (at : Context) (command : Generic) → IsLawful command → nat_lt 30000 (length (canon command)) ≡ false → spelled at (canon command) ≡ Ok command }
{}
