//! Laws of the definitions. The functions do nothing: their contracts are what is proved.
ghost use Rattle.std.specs.Prelude.{◌≡◌, ◌⊎◌, ◌∷◌, [], Some, None, IsSome, IsSomeAnd, IsTrue};
ghost use Rattle.racf_profiles.specs.declared.rows.Rows.{Rows};
ghost use Rattle.racf_profiles.specs.Lookup.{user_of};
ghost use Rattle.command_fields.specs.declared.issuer.Issuer.{Issuer};
ghost use Rattle.command_fields.specs.declared.fields.CommandFields.{CommandFields};
ghost use Rattle.command_fields.specs.LawfulFields.{AreLawfulFields};
ghost use Rattle.command_authority.specs.declared.needs.Need.TheVariants.{Auditor};
ghost use Rattle.command_authority.specs.Authority.{need};

/// An issuer with SPECIAL may give every command, but for what is the auditor's alone: UAUDIT, GLOBALAUDIT and
/// LOGOPTIONS.
pub fn special_lacks_auditor_alone()
    ensures { (rows : Rows) (issuer : Issuer) (command : CommandFields) → IsSomeAnd (user_of issuer.id rows) (λ user. IsTrue user.attributes.special) → (need rows issuer command ≡ None) ⊎ (need rows issuer command ≡ Some (Auditor ∷ [])) }
{}

/// Who isn't a user may give no command that a text spells.
pub fn nobody_else_gives_commands()
    ensures { (rows : Rows) (issuer : Issuer) (command : CommandFields) → AreLawfulFields command → user_of issuer.id rows ≡ None → IsSome (need rows issuer command) }
{}
