//! What a case of the table answers.
ghost use Rattle.std.specs.Prelude.{◌≡◌, None, Some};
ghost use Rattle.racf_profiles.specs.declared.profiles.Profile.{Profile};
ghost use Rattle.raclist_image.specs.Facts.{AreFacts};
ghost use Rattle.decision.specs.Table.{is_warning, audits_of, decision_of, else_case};

use crate::outcome::{Audits, Decision, Rule};
use access_levels::Level;
use raclist_image::Facts;

/// The answer of a case: its rule, its return code, and the level that it found.
#[derive(Clone, Copy)]
pub struct Answer {
    pub rule: Rule,
    pub rc: u8,
    pub found: Level,
}

impl Answer {
    /// Access is given.
    #[inline(always)]
    pub(crate) fn allowed(rule: Rule, found: Level) -> Answer
        ensures { result ≡ else_case rule 0 found }
    {
        Answer { rule, rc: 0, found }
    }

    /// The decision without a profile.
    pub(crate) fn decision(&self, generation: u64) -> Decision
        ensures { result ≡ decision_of generation None self.now }
    {
        Decision {
            rc: self.rc,
            rule: self.rule,
            profile: None,
            audits: None,
            found: self.found,
            warned: is_warning(&self.rule),
            generation,
        }
    }

    /// The decision on a profile, with its name and what it asks to be logged.
    pub(crate) fn decision_on(&self, facts: &Facts<'_>, generation: u64) -> Decision
        ensures { (p : Profile) → AreFacts p facts.now → result ≡ decision_of generation (Some p) self.now }
    {
        Decision {
            rc: self.rc,
            rule: self.rule,
            profile: Some(*facts.name),
            audits: Some(audits_of(facts)),
            found: self.found,
            warned: is_warning(&self.rule),
            generation,
        }
    }
}

/// What the profile asks to be logged.
#[inline(always)]
fn audits_of(facts: &Facts<'_>) -> Audits
    ensures { (p : Profile) → AreFacts p facts.now → result ≡ audits_of p }
{
    Audits {
        audit: facts.audit,
        global_audit: facts.global_audit,
    }
}

/// Whether the rule is that of a profile that only warns.
#[inline(always)]
fn is_warning(rule: &Rule) -> bool
    ensures { result ≡ is_warning rule.now }
{
    matches!(rule, Rule::Warning)
}
