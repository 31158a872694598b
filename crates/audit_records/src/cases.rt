//! Whether a decision is logged.
ghost use Rattle.std.specs.Prelude.{◌≡◌, ◌==◌, ◌&&◌, ◌||◌, Some};
ghost use Rattle.audit_records.specs.Logged.{logged, logged_under, is_protect_all, is_of_option, is_reached, success_reached, failures_reached};

use access_levels::Level;
use acee::Acee;
use decision::{Audits, Decision, Request, Rule};
use racf_profiles::LogOption;
use raclist_image::Image;

/// Whether a decision is logged (z/OS Security Server RACF Auditor's Guide, LOGOPTIONS, UAUDIT, AUDIT and GLOBALAUDIT).
/// The image, the ACEE and the request are those of the decision; `fast` says that FASTAUTH made it.
///
/// The first case that fits says so (this product's own order): no decision of FASTAUTH is logged, each other warning
/// is, and none of the global access table. What isn't a class has no option, and is never logged. It takes no memory.
#[tactic(auto, unfolding(crate::specs::Logged::logged))]
pub fn logged(
    image: &Image,
    acee: &Acee,
    request: &Request,
    fast: bool,
    decision: &Decision,
) -> bool
    ensures { result ≡ logged image.now.state acee.now request.now.class request.now.asked fast decision.now }
{
    match image.class(request.class) {
        Some(options) => is_logged(options.log, acee, request.asked, fast, decision),
        None => false,
    }
}

/// Whether a decision is logged under that option of its class.
fn is_logged(option: LogOption, acee: &Acee, asked: Level, fast: bool, decision: &Decision) -> bool
    ensures { result ≡ logged_under option acee.now asked fast decision.now }
{
    match decision.rule {
        _ if fast => false,
        Rule::Warning => true,
        Rule::Global(_) => false,
        _ => match option {
            LogOption::Always => true,
            LogOption::Never => false,
            _ if decision.rc == 4 => false,
            _ if acee.attributes.uaudit => true,
            _ => is_asked_for(option, asked, decision),
        },
    }
}

/// Whether the decision is that of PROTECTALL, or the option or the deciding profile asks for it.
fn is_asked_for(option: LogOption, asked: Level, decision: &Decision) -> bool
    ensures { result ≡ (is_protect_all decision.now.rule || is_of_option option decision.now.rc || (decision.now.rc == 0 && success_reached asked decision.now.audits) || (decision.now.rc == 8 && failures_reached asked decision.now.audits)) }
{
    matches!(decision.rule, Rule::ProtectAll)
        || is_of_option(option, decision.rc)
        || is_audited(decision, asked)
}

/// Whether the option asks for decisions with that return code.
fn is_of_option(option: LogOption, rc: u8) -> bool
    ensures { result ≡ is_of_option option rc }
{
    match option {
        LogOption::Successes => rc == 0,
        LogOption::Failures => rc == 8,
        LogOption::ByProfile | LogOption::Always | LogOption::Never => false,
    }
}

/// Whether the deciding profile asks for the decision, by its AUDIT or its GLOBALAUDIT.
fn is_audited(decision: &Decision, asked: Level) -> bool
    ensures { result ≡ ((decision.now.rc == 0 && success_reached asked decision.now.audits) || (decision.now.rc == 8 && failures_reached asked decision.now.audits)) }
{
    let Some(audits) = &decision.audits else {
        return false;
    };
    match decision.rc {
        0 => success_reached(audits, asked),
        8 => failures_reached(audits, asked),
        _ => false,
    }
}

/// Whether one of the two levels of successes is at most the level asked.
fn success_reached(audits: &Audits, asked: Level) -> bool
    ensures { result ≡ success_reached asked (Some audits.now) }
{
    is_reached(audits.audit.success, asked) || is_reached(audits.global_audit.success, asked)
}

/// Whether one of the two levels of failures is at most the level asked.
fn failures_reached(audits: &Audits, asked: Level) -> bool
    ensures { result ≡ failures_reached asked (Some audits.now) }
{
    is_reached(audits.audit.failures, asked) || is_reached(audits.global_audit.failures, asked)
}

/// Whether there is such a level, and it is at most the level asked.
fn is_reached(level: Option<Level>, asked: Level) -> bool
    ensures { result ≡ is_reached asked level }
{
    match level {
        Some(level) => asked.suffices(level),
        None => false,
    }
}
