//! The options that hold for the whole system.
ghost use Rattle.std.specs.Prelude.{◌≡◌, IfOk};

use crate::NoMemory;
use access_levels::Id;
use std::alloc::Global;
use std::marker::Model;

/// The options of SETROPTS.
#[derive(Debug, Drop)]
pub struct Options {
    /// All groups of a user count, and not the current one alone.
    pub grplist: bool,
    /// A data set without a profile is refused.
    pub protectall: bool,
    /// Nobody writes down from a label to a lower one.
    pub mls: bool,
    /// The category names ever defined. A category's number is its place here (this product's own rule).
    pub categories: CategoryNames,
}

/// A list of category names.
#[derive(Debug, Drop)]
pub struct CategoryNames {
    pub items: Vec<Id>,
}

impl Model for CategoryNames {
    ghost use Rattle.std.specs.Prelude.{List, ℕ};

    ghost Value = { List (List ℕ) };

    ghost view = { λ list. list.items.items };
}

impl CategoryNames {
    /// An equal list.
    pub fn copy(&self, alloc: Global) -> Result<CategoryNames, NoMemory>
        ensures { IfOk result (λ copy. copy ≡ self.now) }
    {
        Ok(CategoryNames {
            items: Vec::from_slice(alloc, self.items.as_slice())?,
        })
    }
}

impl Options {
    /// Equal options.
    pub fn copy(&self, alloc: Global) -> Result<Options, NoMemory>
        ensures { IfOk result (λ copy. copy ≡ self.now) }
    {
        Ok(Options {
            grplist: self.grplist,
            protectall: self.protectall,
            mls: self.mls,
            categories: self.categories.copy(alloc)?,
        })
    }
}
