//! Laws of the definitions. The functions do nothing: their contracts are what is proved.

ghost use Rattle.std.specs.Prelude.{ℕ, List, IfOk};
ghost use Rattle.raclist_image.specs.Imaged.{Imaged};
ghost use Rattle.audit_records.specs.Feedless.{IsFeedlessState};
ghost use Rattle.request_files.specs.declared.acees.NamedAcee.{NamedAcee};
ghost use Rattle.request_files.specs.Grammar.{read};
ghost use Rattle.request_files.specs.IssuerLines.{issuer_of_line};
ghost use Rattle.request_files.specs.OneLine.{AreFeedlessAcees, IsFeedlessNamed, PrintsLines};
ghost use Rattle.request_files.specs.Worked.{worked};

/// Whatever the bytes of a line of requests, it prints nothing, or one line, or the line of a decision and an AUDIT
/// line behind it, and no line feed stands in their words, where none is in a name of the image or of an ACEE in use.
/// None is in the ACEEs behind it.
pub fn a_request_prints_its_lines()
    ensures { (image : Imaged) (acees : List NamedAcee) (bytes : List ℕ) →
        IsFeedlessState image.state → AreFeedlessAcees acees → PrintsLines image.generation (worked image acees (read bytes)) }
{
    audit_records::laws::an_audit_line_is_one_line();
}

/// Whoever is named as the issuer by a line, no line feed stands in his ID and his group.
pub fn a_named_issuer_has_no_line_feed()
    ensures { (bytes : List ℕ) → IfOk (issuer_of_line bytes) IsFeedlessNamed }
{}
