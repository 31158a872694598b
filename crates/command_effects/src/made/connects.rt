//! Connections of one user.
ghost use Rattle.std.specs.Prelude.{◌≡◌, [], ◌∷◌, unwrap_or, IfOk};
ghost use Rattle.access_levels.specs.declared.authorities.GroupAuthority.TheVariants.{MayUse};
ghost use Rattle.racf_profiles.specs.Edits.{drop_row};
ghost use Rattle.racf_profiles.specs.Names.{is_to};
ghost use Rattle.command_rules.specs.Effects.{new_connection, altered_connection, connects_after};

use access_levels::{GroupAuthority, Id};
use command_fields::Connect;
use command_rules::switched;
use racf_profiles::{Connect as Connection, NoMemory};
use std::alloc::Global;

/// A connection that was just made.
pub(super) fn new_connection(group: Id) -> Connection
    ensures { result ≡ new_connection group }
{
    Connection {
        group,
        authority: GroupAuthority::MayUse,
        special: false,
        operations: false,
        auditor: false,
        revoked: false,
    }
}

/// The connection of a new user to his default group.
pub(super) fn first_connects(
    alloc: Global,
    group: Id,
    authority: Option<GroupAuthority>,
) -> Result<Vec<Connection>, NoMemory>
    ensures { IfOk result (λ connects. connects.items ≡ record (new_connection group) { authority = unwrap_or authority MayUse } ∷ []) }
{
    let mut connection = new_connection(group);
    connection.authority = authority.unwrap_or(GroupAuthority::MayUse);
    let mut connects = Vec::new(alloc);
    connects.push(connection)?;
    Ok(connects)
}

/// A connection with what CONNECT's operands name.
fn altered_connection(command: &Connect, old: Connection) -> Connection
    ensures { result ≡ altered_connection command.now old }
{
    Connection {
        group: old.group,
        authority: command.authority.unwrap_or(old.authority),
        special: switched(command.special, command.nospecial, old.special),
        operations: switched(command.operations, command.nooperations, old.operations),
        auditor: switched(command.auditor, command.noauditor, old.auditor),
        revoked: switched(command.revoke, command.resume, old.revoked),
    }
}

/// The connections after CONNECT.
pub(super) fn connects_after(
    alloc: Global,
    command: &Connect,
    group: Id,
    old: &[Connection],
) -> Result<Vec<Connection>, NoMemory>
    ensures { IfOk result (λ connects. connects.items ≡ connects_after command.now group old.now) }
{
    let mut connects = Vec::new(alloc);
    let mut met = false;
    for connection in old {
        if !met && connection.group == group {
            met = true;
            connects.push(altered_connection(command, *connection))?;
        } else {
            connects.push(*connection)?;
        }
    }
    if !met {
        connects.push(altered_connection(command, new_connection(group)))?;
    }
    Ok(connects)
}

/// The connections without the one to the group.
pub(super) fn without_connect(
    alloc: Global,
    group: Id,
    old: &[Connection],
) -> Result<Vec<Connection>, NoMemory>
    ensures { IfOk result (λ connects. connects.items ≡ drop_row (is_to group) old.now) }
{
    let mut connects = Vec::new(alloc);
    let mut met = false;
    for connection in old {
        if !met && connection.group == group {
            met = true;
        } else {
            connects.push(*connection)?;
        }
    }
    Ok(connects)
}
