ghost use Rattle.std.specs.Prelude.{◌≡◌, ◌<◌, ◌≤◌, length, IfSome, IfNone, Ok, IfOk};
ghost use Rattle.generic_names.specs.Faults.{member_of};
ghost use Rattle.generic_names.specs.Resolve.{stands_for, replaced, resolve};

use crate::fault::NameFault;
use crate::form::Form;
use crate::kind::NameKind;
use crate::pattern::Pattern;
use crate::qualifiers::qualifier_end;
use crate::reading::fault_in;
use crate::spelling::Spelling;
use std::marker::Model;

/// The name of a member of the global table: a pattern, in which a whole qualifier may also be `&RACUID`
/// or `&RACGPID`, which stand for the user and its current group.
#[derive(Clone, Copy)]
pub struct MemberName {
    /// Its text, with the kind of the names that it covers.
    name: Spelling,
}

impl Model for MemberName {
    ghost use Rattle.std.specs.Prelude.{◌≡◌, Ok};
    ghost use Rattle.generic_names.specs.Spelled.{Spelled};
    ghost use Rattle.generic_names.specs.Faults.{member_of};

    ghost Value = { Spelled };

    ghost view = { λ m. m.name };

    ghost invariant = { λ m. member_of m.name.kind m.name.text ≡ Ok m.name };

    ghost inverse = { λ name. record { name = name } };
}

impl MemberName {
    /// Reads the name of a member of this kind. Lower case is not folded.
    pub fn read(kind: NameKind, bytes: &[u8]) -> Result<MemberName, NameFault>
        ensures name { result ≡ member_of kind bytes.now }
        ensures kind { IfOk result (λ name. name.kind ≡ kind) }
    {
        if let Some(fault) = fault_in(Form::Symbolic, kind, bytes) {
            return Err(fault);
        }
        Ok(MemberName {
            name: Spelling::of(kind, bytes),
        })
    }

    /// Whose name it is.
    pub fn kind(&self) -> NameKind
        ensures { result ≡ self.now.kind }
    {
        self.name.kind()
    }

    /// The name as it was read.
    pub fn text(&self) -> &[u8]
        ensures text { result.now ≡ self.now.text }
        ensures name { member_of self.now.kind self.now.text ≡ Ok self.now }
    {
        self.name.text()
    }

    /// The pattern that it stands for, for a user and its current group: the text with `&RACUID` and
    /// `&RACGPID` replaced, unless that has no lawful spelling, as one that has become too long.
    pub fn resolve(&self, user: &[u8], group: &[u8]) -> Option<Pattern>
        ensures { result ≡ resolve self.now user.now group.now }
    {
        let name = replaced_in(self.name.kind(), self.name.text(), user, group)?;
        Pattern::spelled(name)
    }
}

/// The text with the symbols replaced, unless it is longer than any name.
fn replaced_in(kind: NameKind, text: &[u8], user: &[u8], group: &[u8]) -> Option<Spelling>
    requires { length text.now ≤ 246 }
    ensures spelling { IfSome result (λ name. name ≡ record { kind = kind; text = replaced user.now group.now text.now }) }
    ensures too_long { IfNone result (246 < length (replaced user.now group.now text.now)) }
{
    let mut name = Spelling::of(kind, b"");
    let mut at = 0;
    while at <= text.len() {
        let end = qualifier_end(text, at);
        name.push(stand_in(&text[at..end], user, group))?;
        if end < text.len() {
            name.push(b".")?;
        }
        at = end + 1;
    }
    Some(name)
}

/// What a qualifier stands for.
fn stand_in<'a>(qualifier: &'a [u8], user: &'a [u8], group: &'a [u8]) -> &'a [u8]
    ensures { result.now ≡ stands_for user.now group.now qualifier.now }
{
    if qualifier == b"&RACUID".as_slice() {
        return user;
    }
    if qualifier == b"&RACGPID".as_slice() {
        return group;
    }
    qualifier
}
