//! The names that stood before in a list.
ghost use Rattle.std.specs.Prelude.{◌≡◌, List, ℕ, [], ◌∷◌, ◌++◌, true, false, IfOk, OnOk, if◌then◌else◌};
ghost use Rattle.database_image.specs.Fields.{is_new};

use indexmap::IndexSet;
use std::alloc::{AllocError, Global};
use std::marker::Model;

/// Names, each found without going through the others.
#[derive(Drop)]
pub struct Names {
    /// The names in the order in which they came.
    seen: IndexSet<Vec<u8>>,
    /// Where names are kept.
    alloc: Global,
}

impl Model for Names {
    ghost use Rattle.std.specs.Prelude.{List, ℕ};

    ghost Value = { List (List ℕ) };

    ghost use Rattle.database_image.specs.Kept.{names_of};

    ghost view = { names_of };
}

impl Names {
    /// No name.
    pub fn new(alloc: Global) -> Names
        ensures { result ≡ [] }
    {
        Names {
            seen: IndexSet::new(alloc),
            alloc,
        }
    }

    /// Notes a name, and says whether it is new.
    pub fn note(&mut self, name: &[u8]) -> Result<bool, AllocError>
        ensures new { IfOk result (λ new. new ≡ is_new self.old name.now) }
        ensures noted { OnOk result (is_new self.old name.now ≡ true → self.new ≡ self.old ++ name.now ∷ []) }
    {
        let kept = Vec::from_slice(self.alloc, name)?;
        let (_place, new) = self.seen.insert_full(kept)?;
        Ok(new)
    }
}
