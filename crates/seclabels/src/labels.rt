//! Security labels, and which label dominates which.
ghost use Rattle.std.specs.Prelude.{◌≡◌, ◌↔◌, ◌≤◌, ◌<◌, ℕ, IsTrue};
ghost use Rattle.access_levels.specs.Category.{is_member};
ghost use Rattle.seclabels.specs.Labels.{contains, dominates, system_high, system_low};

use access_levels::Categories;

/// What a security label stands for: a level and a set of categories (z/OS Security Server RACF Security
/// Administrator's Guide, security labels).
#[derive(Clone, Copy, Debug)]
pub struct Label {
    /// Its security level: the higher, the more is protected.
    pub level: u8,
    /// Its categories, by their numbers.
    pub categories: Categories,
}

impl Label {
    /// SYSHIGH: the highest level, and all categories.
    pub fn system_high() -> Label
        ensures { result ≡ system_high }
    {
        Label {
            level: u8::MAX,
            categories: Categories::all(),
        }
    }

    /// SYSLOW: the level 0, and no category.
    pub fn system_low() -> Label
        ensures { result ≡ system_low }
    {
        Label {
            level: 0,
            categories: Categories::none(),
        }
    }
}

/// What a user or a resource has.
#[derive(Clone, Copy, Debug)]
pub struct Clearance {
    /// The security level: 0 is the lowest.
    pub level: u8,
    /// The categories, by their numbers.
    pub categories: Categories,
    /// What the security label stands for, if there is one.
    pub label: Option<Label>,
}

/// Whether a label dominates another: its level is at least the other's, and its categories contain the other's. It
/// takes no memory.
pub fn dominates(label: &Label, other: &Label) -> bool
    ensures value { result ≡ dominates label.now other.now }
    ensures relation { IsTrue result ↔ ((other.now.level ≤ label.now.level) × ((n : ℕ) → n < 256 → IsTrue (is_member other.now.categories n) → IsTrue (is_member label.now.categories n))) }
{
    other.level <= label.level && contains(&label.categories, &other.categories)
}

/// Whether a set of categories has all of another.
fn contains(set: &Categories, other: &Categories) -> bool
    ensures { result ≡ contains set.now other.now }
{
    set.first_missing(other).is_none()
}
