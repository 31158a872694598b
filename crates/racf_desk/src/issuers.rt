//! Who gives a command.
ghost use Rattle.std.specs.Prelude.{◌≡◌, is_ok, refl};
ghost use Rattle.access_levels.specs.Spelling.{group_of};
ghost use Rattle.desk_rules.specs.Issuers.{is_connected, issuer_in, issuer_of, unless_revoked, unless_not_connected};

use access_levels::Id;
use command_parser::Issuer;
use desk_rules::Refusal;
use racf_profiles::{User, View};

/// The issuer of that ID, with the group that was named or else his default group, as the rows have him: he is a user
/// who isn't revoked, and connected to the group by a connection that isn't.
pub(crate) fn issuer_of<V: View>(view: &V, id: Id, group: Option<Id>) -> Result<Issuer, Refusal>
    ensures { result ≡ issuer_of (V.rows view.now) id group }
{
    match view.user(id) {
        None => Err(Refusal::IssuerUnknown(id)),
        Some(user) => unless_revoked(user, id, group),
    }
}

/// The issuer, who is this user.
fn unless_revoked(user: &User, id: Id, group: Option<Id>) -> Result<Issuer, Refusal>
    ensures { result ≡ unless_revoked user.now id group }
{
    if user.attributes.revoked {
        return Err(Refusal::IssuerRevoked(id));
    }
    unless_not_connected(user, id, group.unwrap_or(user.default_group))
}

/// The issuer with this current group.
fn unless_not_connected(user: &User, id: Id, group: Id) -> Result<Issuer, Refusal>
    ensures { result ≡ unless_not_connected user.now id group }
{
    if !is_connected(user, group) {
        return Err(Refusal::IssuerNotConnected(group));
    }
    issuer_in(id, group)
}

/// The issuer with this current group. Nobody is connected to a group whose name isn't spelled as a group's.
fn issuer_in(id: Id, group: Id) -> Result<Issuer, Refusal>
    ensures { result ≡ issuer_in id group (is_ok (group_of group)) refl }
{
    match Issuer::new(id, group) {
        Some(issuer) => Ok(issuer),
        None => Err(Refusal::IssuerNotConnected(group)),
    }
}

/// Whether the user is connected to the group by a connection that isn't revoked.
fn is_connected(user: &User, group: Id) -> bool
    ensures { result ≡ is_connected user.now group }
{
    user.connects
        .items
        .iter()
        .filter(|connection| !connection.revoked)
        .any(|connection| connection.group == group)
}
