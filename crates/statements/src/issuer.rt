//! Who gives the commands of a stream.

ghost use Rattle.std.specs.Prelude.{◌≡◌};
ghost use Rattle.statements.specs.IssuerLines.{first_issuer, issuer_named, issuer_refusal};

use crate::reply::Refusal;
use access_levels::Id;
use command_parser::Syntax;
use desk_rules::Refusal as OfCommand;
use racf_profiles::ibmuser;
use request_files::{LineRefusal, NamedIssuer, read_issuer};

/// Who gives the commands of an input. Whether he is a user is judged at each command.
#[derive(Clone, Copy, Debug, PartialEq, Eq)]
pub enum Issuing {
    /// IBMUSER at first, and then whoever a line of the issuer names.
    Free,
    /// This user alone: every line of the issuer is refused.
    Fixed(Id),
}

/// The issuer before a line names one.
pub fn first_issuer(issuing: &Issuing) -> NamedIssuer
    ensures { result ≡ first_issuer issuing.now }
{
    let id = match issuing {
        Issuing::Free => ibmuser(),
        Issuing::Fixed(id) => *id,
    };
    NamedIssuer { id, group: None }
}

/// Whom the line of an issuer names.
///
/// # Errors
///
/// Why it is refused: where the issuer is fixed, each one is.
pub fn issuer_named(issuing: &Issuing, line: &[u8]) -> Result<NamedIssuer, Refusal>
    ensures { result ≡ issuer_named issuing.now line.now }
{
    match issuing {
        Issuing::Free => match read_issuer(line) {
            Ok(issuer) => Ok(issuer),
            Err(why) => Err(issuer_refusal(&why)),
        },
        Issuing::Fixed(_) => Err(Refusal::IssuerFixed),
    }
}

/// Why a line that should name an issuer is refused. Such a line names no ACEE, so the refusals that do don't come.
fn issuer_refusal(why: &LineRefusal) -> Refusal
    ensures { result ≡ issuer_refusal why.now }
{
    match why {
        LineRefusal::BadLine(place) => {
            Refusal::Command(OfCommand::Syntax(Syntax::BadValue(*place)))
        }
        LineRefusal::LineTooLong
        | LineRefusal::NoAcee(_)
        | LineRefusal::AceeExists(_)
        | LineRefusal::AceesFull
        | LineRefusal::BadName(_, _) => Refusal::LineTooLong,
    }
}
