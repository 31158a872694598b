//! Laws of the definitions. The functions do nothing: their contracts are what is proved.

ghost use Rattle.std.specs.Prelude.{ℕ, List};
ghost use Rattle.access_levels.specs.declared.levels.Level.{Level};
ghost use Rattle.generic_names.specs.Spelled.{Spelled};
ghost use Rattle.decision.specs.declared.outcome.Decision.{Decision};
ghost use Rattle.audit_records.specs.Line.{audit_line};
ghost use Rattle.audit_records.specs.Feedless.{IsFeedless};
ghost use Rattle.audit_records.specs.OneLine.{IsAuditLine};

/// An AUDIT line is one line, where no line feed stands in the user, the class and the name: whatever was decided.
pub fn an_audit_line_is_one_line()
    ensures { (decision : Decision) (user class : List ℕ) (name : Spelled) (asked : Level) →
        IsFeedless user → IsFeedless class → IsFeedless name.text → IsAuditLine (audit_line decision user class name asked) }
{}
