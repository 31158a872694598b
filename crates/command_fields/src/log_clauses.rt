//! What LOGOPTIONS holds, word by word.

use crate::lists::Ids;
use racf_profiles::LogOption;
use std::marker::Model;

/// A word of LOGOPTIONS, and the classes under it.
#[derive(Drop)]
pub struct LogClause {
    pub option: LogOption,
    pub classes: Ids,
}

/// Words of LOGOPTIONS with their classes, in the order in which they apply.
#[derive(Drop)]
pub struct LogClauses {
    pub items: Vec<LogClause>,
}

impl Model for LogClauses {
    ghost use Rattle.std.specs.Prelude.{List};
    ghost use Rattle.command_fields.specs.declared.log_clauses.LogClause.{LogClause};

    ghost Value = { List LogClause };

    ghost view = { λ clauses. clauses.items.items };
}
