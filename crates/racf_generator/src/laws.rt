//! Laws of the definitions. The functions do nothing: their contracts are what is proved.

ghost use Rattle.std.specs.Prelude.{ℕ, ◌^◌, ◌≤◌, length};
ghost use Rattle.racf_generator.specs.MadeText.{made_text};

/// The text that is made is no longer than an input of which all is read.
pub fn made_text_is_short()
    ensures { (users : ℕ) → users ≤ 10_000 → length (made_text users) ≤ 2 ^ 28 }
{}
