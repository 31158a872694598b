//! Classes and the profiles in them.
use crate::profiles::Profiles;
use access_levels::Id;
use std::marker::Model;

/// A class of resources.
#[derive(Drop)]
pub struct ClassRow {
    pub name: Id,
    /// The class is used in decisions.
    pub active: bool,
    /// It is RACLISTed.
    pub listed: bool,
    /// The global access table is used for it.
    pub global: bool,
    pub log: LogOption,
    /// In order of specificity.
    pub profiles: Profiles,
}

/// SETROPTS LOGOPTIONS of a class.
#[derive(Clone, Copy, Debug, PartialEq, Eq)]
pub enum LogOption {
    ByProfile,
    Always,
    Never,
    Successes,
    Failures,
}

/// A list of classes.
#[derive(Drop)]
pub struct ClassRows {
    pub items: Vec<ClassRow>,
}

impl Model for ClassRows {
    ghost use Rattle.std.specs.Prelude.{List};
    ghost use Rattle.racf_profiles.specs.declared.class_rows.ClassRow.{ClassRow};

    ghost Value = { List ClassRow };

    ghost view = { λ list. list.items.items };
}
