//! What VERIFY is asked, and why it fails.
use access_levels::{Condition, Id};

/// A request to verify a user.
#[derive(Clone, Copy, Debug, PartialEq, Eq)]
pub struct VerifyRequest {
    pub user: Id,
    /// The group to be the current one; the user's default group where none is named.
    pub group: Option<Id>,
    /// The port of entry.
    pub port: Option<Condition>,
    pub application: Option<Id>,
    /// The security label; the user's own where none is named.
    pub label: Option<Id>,
}

/// Why a user isn't verified (z/OS Security Server RACROUTE Macro Reference, REQUEST=VERIFY, RACF return
/// codes).
#[derive(Clone, Copy, Debug, PartialEq, Eq)]
pub enum VerifyFault {
    /// There is no such user.
    NotDefined,
    /// The user isn't connected to the group.
    NotConnected,
    /// The user is revoked.
    Revoked,
    /// The connection to the group is revoked.
    ConnectRevoked,
    /// The user may not come in through the port.
    Port,
    /// The user may not use the application.
    Application,
    /// The user may not use the label.
    Label,
    NoMemory,
}
