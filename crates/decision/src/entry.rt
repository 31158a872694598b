//! VERIFY: whether a user may come in.
ghost use Rattle.std.specs.Prelude.{◌≡◌};
ghost use Rattle.generic_names.specs.declared.kind.NameKind.{NameKind};
ghost use Rattle.racf_profiles.specs.LawfulProfiles.{kind_in};
ghost use Rattle.access_levels.specs.Level.{port_class_name};
ghost use Rattle.decision.specs.Verify.{is_refused, is_port_refused, is_application_refused, is_label_refused, is_unknown_label, entry_fault, IsVerified};

use crate::classification::has_label_profile;
use crate::decide::auth;
use crate::request::Request;
use access_levels::{Condition, Id, Level, PortClass};
use acee::{Acee, VerifyFault, VerifyRequest, is_active};
use racf_profiles::{FixedClass, general_name};
use raclist_image::Image;
use std::alloc::Global;

/// The ACEE of a user who is verified (z/OS Security Server RACROUTE Macro Reference, REQUEST=VERIFY), as
/// the image has him.
///
/// # Errors
///
/// The first that fits of (this product's own order): there is no such user, he isn't connected to the
/// group, he is revoked, his connection is revoked; a request of his for READ of the port of entry in
/// its class, of the application in class APPL, or of his label in class SECLABEL, gets the code 8, or
/// he names a label that has no profile there. `NoMemory` comes where none of the first four fits.
#[tactic(auto, unfolding(crate::specs::Verify::verified))]
pub fn verify(alloc: Global, image: &Image, request: &VerifyRequest) -> Result<Acee, VerifyFault>
    ensures { IsVerified image.now.state image.now.generation request.now result }
{
    match Acee::of(alloc, image, request) {
        Err(fault) => Err(fault),
        Ok(acee) => match entry_fault(image, &acee, &request.label) {
            Some(fault) => Err(fault),
            None => Ok(acee),
        },
    }
}

/// Why the user, who names this label or none, may not come in, once his connection is checked.
fn entry_fault(image: &Image, acee: &Acee, named: &Option<Id>) -> Option<VerifyFault>
    ensures { result ≡ entry_fault image.now.state image.now.generation acee.now named.now }
{
    if is_port_refused(image, acee) {
        return Some(VerifyFault::Port);
    }
    if is_application_refused(image, acee) {
        return Some(VerifyFault::Application);
    }
    if is_label_refused(image, acee) || is_unknown_label(image, named) {
        return Some(VerifyFault::Label);
    }
    None
}

/// Whether the port of entry is refused to the user.
fn is_port_refused(image: &Image, acee: &Acee) -> bool
    ensures { result ≡ is_port_refused image.now.state image.now.generation acee.now acee.now.port }
{
    match &acee.port {
        Some(port) => is_refused(image, acee, port_class(port.class), port.name),
        None => false,
    }
}

/// Whether the application is refused to the user.
fn is_application_refused(image: &Image, acee: &Acee) -> bool
    ensures { result ≡ is_application_refused image.now.state image.now.generation acee.now acee.now.application }
{
    match &acee.application {
        Some(name) => is_refused(image, acee, FixedClass::Appl.id(), *name),
        None => false,
    }
}

/// Whether the label is refused to the user.
fn is_label_refused(image: &Image, acee: &Acee) -> bool
    ensures { result ≡ is_label_refused image.now.state image.now.generation acee.now acee.now.label }
{
    match &acee.label {
        Some(label) => is_refused(image, acee, FixedClass::Seclabel.id(), *label),
        None => false,
    }
}

/// Whether the label that is named has no profile, while labels are checked.
fn is_unknown_label(image: &Image, named: &Option<Id>) -> bool
    ensures { result ≡ is_unknown_label image.now.state image.now.generation named.now }
{
    match named {
        Some(label) => is_active(image, FixedClass::Seclabel.id())
            && !has_label_profile(image, *label),
        None => false,
    }
}

/// The name of the class of ports.
fn port_class(class: PortClass) -> Id
    ensures class { result ≡ port_class_name class }
    ensures kind { kind_in result ≡ NameKind.General }
{
    match class {
        PortClass::Terminal => FixedClass::Terminal.id(),
        PortClass::Console => FixedClass::Console.id(),
        PortClass::Jesinput => FixedClass::Jesinput.id(),
        PortClass::Appcport => FixedClass::Appcport.id(),
    }
}

/// Whether a resource of a general class is refused to the user, who asks for READ.
fn is_refused(image: &Image, acee: &Acee, class: Id, name: Id) -> bool
    requires { kind_in class ≡ NameKind.General }
    ensures { result ≡ is_refused image.now.state image.now.generation acee.now class name }
{
    match Request::new(class, general_name(name), Level::Read) {
        Some(request) => auth(image, acee, &request).rc == 8,
        None => false,
    }
}
