//! The lists that fields of commands hold.

use access_levels::{Id, Who};
use generic_names::MemberName;
use std::marker::Model;

/// Names in the order in which they were given.
#[derive(Debug, Drop)]
pub struct Ids {
    pub items: Vec<Id>,
}

impl Model for Ids {
    ghost use Rattle.std.specs.Prelude.{List, ℕ};

    ghost Value = { List (List ℕ) };

    ghost view = { λ ids. ids.items.items };
}

/// Users and groups in the order in which they were given, or `*` alone.
#[derive(Debug, Drop)]
pub struct Whos {
    pub items: Vec<Who>,
}

impl Model for Whos {
    ghost use Rattle.std.specs.Prelude.{List};
    ghost use Rattle.access_levels.specs.declared.entries.Who.{Who};

    ghost Value = { List Who };

    ghost view = { λ whos. whos.items.items };
}

/// Names of members in the order in which they were given.
#[derive(Drop)]
pub struct MemberNames {
    pub items: Vec<MemberName>,
}

impl Model for MemberNames {
    ghost use Rattle.std.specs.Prelude.{List};
    ghost use Rattle.generic_names.specs.Spelled.{Spelled};

    ghost Value = { List Spelled };

    ghost view = { λ names. names.items.items };
}
