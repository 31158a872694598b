ghost use Rattle.std.specs.Prelude.{◌≡◌, Ok, IfOk};
ghost use Rattle.generic_names.specs.Faults.{resource_of};
ghost use Rattle.generic_names.specs.OrderKey.{order_key};

use crate::fault::NameFault;
use crate::form::Form;
use crate::kind::NameKind;
use crate::order_key::OrderKey;
use crate::reading::fault_in;
use crate::spelling::Spelling;
use std::marker::Model;

/// The name of a resource, as a request asks for it: no generic character.
#[derive(Clone, Copy)]
pub struct Resource {
    /// Its text, with its kind.
    name: Spelling,
}

impl Model for Resource {
    ghost use Rattle.std.specs.Prelude.{◌≡◌, Ok};
    ghost use Rattle.generic_names.specs.Spelled.{Spelled};
    ghost use Rattle.generic_names.specs.Faults.{resource_of};

    ghost Value = { Spelled };

    ghost view = { λ r. r.name };

    ghost invariant = { λ r. resource_of r.name.kind r.name.text ≡ Ok r.name };

    ghost inverse = { λ name. record { name = name } };
}

impl Resource {
    /// Reads the name of a resource of this kind. Lower case is not folded.
    pub fn read(kind: NameKind, bytes: &[u8]) -> Result<Resource, NameFault>
        ensures name { result ≡ resource_of kind bytes.now }
        ensures kind { IfOk result (λ name. name.kind ≡ kind) }
    {
        if let Some(fault) = fault_in(Form::Discrete, kind, bytes) {
            return Err(fault);
        }
        Ok(Resource {
            name: Spelling::of(kind, bytes),
        })
    }

    /// Whose name it is.
    pub fn kind(&self) -> NameKind
        ensures { result ≡ self.now.kind }
    {
        self.name.kind()
    }

    /// The name as it was read.
    pub fn text(&self) -> &[u8]
        ensures text { result.now ≡ self.now.text }
        ensures name { resource_of self.now.kind self.now.text ≡ Ok self.now }
    {
        self.name.text()
    }

    /// The place of the pattern of this very name in the order of specificity, as bytes.
    pub fn order_key(&self) -> OrderKey
        ensures { result ≡ order_key self.now.text }
    {
        OrderKey::of_discrete(self.name.text())
    }
}
