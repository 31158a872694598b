//! What an issuer needs to give a command.
ghost use Rattle.std.specs.Prelude.{◌≡◌, ◌<◌, ◌≤◌, ◌++◌, length};
ghost use Rattle.command_authority.specs.Requirements.{need_where};

use access_levels::{GroupAuthority, Id};
use std::marker::Model;

/// The most needs of one requirement.
const MOST: usize = 6;

/// What lets an issuer give a command.
#[derive(Clone, Copy, Debug, PartialEq, Eq)]
pub enum Need {
    /// The attribute SPECIAL.
    Special,
    /// The attribute AUDITOR.
    Auditor,
    /// Class authority (CLAUTH) in this class.
    ClassAuthority(Id),
    /// The authority JOIN in this group.
    Join(Id),
    /// At least the authority CONNECT in this group.
    Connect(Id),
    /// At least the authority CREATE in this group.
    Create(Id),
    /// At least this authority in the group that the command is about.
    Authority(GroupAuthority),
    /// To own what the command is about.
    Owner,
    /// Group-SPECIAL in a group in whose scope that is.
    GroupSpecial,
    /// A data set whose first qualifier is the issuer's ID.
    OwnData,
    /// An entry with ALTER, for the issuer or, where he has no entry, for one of his groups.
    AlterEntry,
    /// CLAUTH(USER), and the authority JOIN in this group.
    UserJoin(Id),
    /// CLAUTH(USER), and to own the group that the command is about.
    UserOwner,
    /// CLAUTH(USER), and group-SPECIAL in a group in whose scope that group is.
    UserGroupSpecial,
}

/// Needs in their order, at most 6. They take no memory.
#[derive(Debug, Drop)]
pub struct Needs {
    /// The needs, and behind them what means nothing.
    items: [Need; MOST],
    /// How many needs there are.
    count: usize,
}

impl Model for Needs {
    ghost use Rattle.std.specs.Prelude.{◌≤◌, List, take};
    ghost use Rattle.command_authority.specs.declared.needs.Need.{Need};

    ghost Value = { List Need };

    ghost view = { λ needs. take needs.count needs.items };

    ghost invariant = { λ needs. needs.count ≤ 6 };
}

impl Needs {
    /// The needs, in their order.
    pub fn as_slice(&self) -> &[Need]
        ensures needs { result.now ≡ self.now }
        ensures few { length result.now ≤ 6 }
    {
        &self.items[..self.count]
    }

    /// These needs.
    pub(crate) fn of(needs: &[Need]) -> Needs
        requires { length needs.now ≤ 6 }
        ensures { result ≡ needs.now }
    {
        let mut items = [Need::Special; MOST];
        items[..needs.len()].copy_from_slice(needs);
        Needs {
            items,
            count: needs.len(),
        }
    }

    /// These needs and, where the condition holds, one more.
    pub(crate) fn and_where(self, holds: bool, need: Need) -> Needs
        requires { length self < 6 }
        ensures { result ≡ self ++ need_where holds need }
    {
        if !holds {
            return self;
        }
        let Needs { mut items, count } = self;
        items[count] = need;
        Needs {
            items,
            count: count + 1,
        }
    }
}
