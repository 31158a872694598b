//! What the words of a line say that asks for access.

ghost use Rattle.std.specs.Prelude.{◌≡◌, IfErr, IfOk, IsTrue};
ghost use Rattle.generic_names.specs.Faults.{resource_of};
ghost use Rattle.racf_profiles.specs.LawfulProfiles.{kind_in};
ghost use Rattle.decision.specs.Asked.{may_be_asked};
ghost use Rattle.request_files.specs.Grammar.{IsOfTheLine};
ghost use Rattle.request_files.specs.Spellings.{folded};

use crate::line::LineRefusal;
use crate::spellings::name_word;
use access_levels::{Id, Level};
use decision::Request;
use generic_names::{NameFault, NameKind, Resource};

/// The word that names a resource. It is read where the request is made, so that the name isn't moved with each word
/// behind it.
#[derive(Clone, Copy)]
pub(crate) struct ResourceWord<'a> {
    /// The kind of the names in its class.
    pub(crate) kind: NameKind,
    /// The word as it was written.
    pub(crate) text: &'a [u8],
}

impl ResourceWord<'_> {
    /// The name, or what is wrong with it.
    #[inline(always)]
    pub(crate) fn read(&self) -> Result<Resource, NameFault>
        ensures name { result ≡ resource_of self.now.kind (folded self.now.text.now) }
        ensures kind { IfOk result (λ name. name.kind ≡ self.now.kind) }
    {
        name_word(self.kind, self.text)
    }
}

/// What the words of AUTH and FASTAUTH say. The name of the resource may have a fault.
#[derive(Clone, Copy)]
pub(crate) struct Asked<'a> {
    /// The name of the ACEE that asks.
    pub(crate) acee: Id,
    /// The class of the resource.
    pub(crate) class: Id,
    /// The resource.
    pub(crate) name: ResourceWord<'a>,
    /// The access that is asked for.
    pub(crate) level: Level,
    ghost kind_fits: { name.kind ≡ kind_in class },
    ghost level_fits: { IsTrue (may_be_asked level) },
}

impl Asked<'_> {
    ghost use Rattle.request_files.specs.Seen.{request_seen, named_access};

    /// The request, once the name of the resource is read.
    pub(crate) fn request(&self) -> Result<Request, LineRefusal>
        ensures request { request_seen result ≡ named_access self.now }
        ensures refusals { IfErr result IsOfTheLine }
    {
        let Asked {
            acee,
            class,
            name,
            level: asked,
        } = *self;
        match name.read() {
            Ok(name) => Ok(Request { class, name, asked }),
            Err(fault) => Err(LineRefusal::BadName(acee, fault)),
        }
    }
}
