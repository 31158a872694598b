//! Names of general resources.
ghost use Rattle.std.specs.Prelude.{◌≡◌};
ghost use Rattle.generic_names.specs.declared.kind.NameKind.{NameKind};

use access_levels::Id;
use generic_names::{NameKind, Resource};

/// The general name that an identifier spells, as that of a class, a label or an application.
pub fn general_name(id: Id) -> Resource
    ensures { result ≡ record { kind = NameKind.General; text = id } }
{
    match Resource::read(NameKind::General, id.text()) {
        Ok(name) => name,
        Err(_) => unreachable!(),
    }
}
