//! A request for access.
ghost use Rattle.std.specs.Prelude.{◌≡◌, IsTrue};
ghost use Rattle.racf_profiles.specs.LawfulProfiles.{kind_in};
ghost use Rattle.decision.specs.Asked.{may_be_asked};

use access_levels::{Id, Level};
use generic_names::Resource;
use racf_profiles::kind_in;

/// A request for access to a resource.
#[derive(Drop)]
pub struct Request {
    pub class: Id,
    /// The name of a data set where the class is DATASET, else a general name.
    pub name: Resource,
    /// READ, UPDATE, CONTROL or ALTER.
    pub asked: Level,
    ghost kind_fits: { name.kind ≡ kind_in class },
    ghost level_fits: { IsTrue (may_be_asked asked) },
}

impl Request {
    ghost use Rattle.std.specs.Prelude.{◌↔◌, IfSome, IsSome};
    ghost use Rattle.decision.specs.Made.{IsRequest};

    /// The request for this access. None exactly where the name's kind isn't that of the class's names, or
    /// the level is none that may be asked.
    pub fn new(class: Id, name: Resource, asked: Level) -> Option<Request>
        ensures made { IfSome result (IsRequest class name asked) }
        ensures lawful { IsSome result ↔ (name.kind ≡ kind_in class) × IsTrue (may_be_asked asked) }
    {
        if name.kind() == kind_in(class) && may_be_asked(asked) {
            Some(Request { class, name, asked })
        } else {
            None
        }
    }
}

/// Whether a level may be asked.
fn may_be_asked(level: Level) -> bool
    ensures { result ≡ may_be_asked level }
{
    match level {
        Level::NoAccess | Level::Execute => false,
        Level::Read | Level::Update | Level::Control | Level::Alter => true,
    }
}
