//! Identifiers that the product itself names.
ghost use Rattle.std.specs.Prelude.{◌≡◌, codes};

use access_levels::Id;

/// The user of a new database.
pub fn ibmuser() -> Id
    ensures { result ≡ codes "IBMUSER" }
{
    Id::known(b"IBMUSER")
}

/// The group that lies above all others.
pub fn sys1() -> Id
    ensures { result ≡ codes "SYS1" }
{
    Id::known(b"SYS1")
}
