//! VERIFY's checks of the user and of his connection, and the ACEE made of them.
ghost use Rattle.std.specs.Prelude.{◌≡◌, find, IfOk};
ghost use Rattle.std.specs.Option.{option_copied};
ghost use Rattle.acee.specs.Verify.{group_asked, connection_to, checked_connection, label_for, acee_for, acee_of, is_active, IsToldAcee};

use crate::acee::Acee;
use crate::groups::AceeGroups;
use crate::request::{VerifyFault, VerifyRequest};
use access_levels::Id;
use racf_profiles::{Connect, FixedClass, NoMemory, User};
use raclist_image::Image;
use std::alloc::Global;

impl Acee {
    /// The ACEE of a user who passes the first checks of VERIFY, as the image has him.
    ///
    /// # Errors
    ///
    /// The first that fits of: there is no such user, he isn't connected to the group, he is revoked, his
    /// connection is revoked (this product's own order); and `NoMemory`, where none of them fits.
    #[tactic(auto, unfolding(crate::specs::Verify::acee_of))]
    pub fn of(alloc: Global, image: &Image, request: &VerifyRequest) -> Result<Acee, VerifyFault>
        ensures { IsToldAcee (acee_of image.now.state image.now.generation request.now) result }
    {
        let Some(user) = image.user(request.user) else {
            return Err(VerifyFault::NotDefined);
        };
        if let Some(fault) = first_fault(user, request) {
            return Err(fault);
        }
        match acee_for(alloc, image, request, user) {
            Ok(acee) => Ok(acee),
            Err(_) => Err(VerifyFault::NoMemory),
        }
    }
}

/// The first check of a user that fails.
fn first_fault(user: &User, request: &VerifyRequest) -> Option<VerifyFault>
    ensures { result ≡ checked_connection user.now (connection_to (group_asked request.now user.now) user.now) }
{
    let Some(connection) = connection_to(user, group_asked(request, user)) else {
        return Some(VerifyFault::NotConnected);
    };
    if user.attributes.revoked {
        return Some(VerifyFault::Revoked);
    }
    if connection.revoked {
        return Some(VerifyFault::ConnectRevoked);
    }
    None
}

/// The group that is asked for.
fn group_asked(request: &VerifyRequest, user: &User) -> Id
    ensures { result ≡ group_asked request.now user.now }
{
    match &request.group {
        Some(group) => *group,
        None => user.default_group,
    }
}

/// The user's connection to a group.
fn connection_to(user: &User, group: Id) -> Option<&Connect>
    ensures { option_copied result ≡ connection_to group user.now }
{
    user.connects
        .items
        .iter()
        .find(|connection| connection.group == group)
}

/// The ACEE of a user whose checks pass.
fn acee_for(
    alloc: Global,
    image: &Image,
    request: &VerifyRequest,
    user: &User,
) -> Result<Acee, NoMemory>
    ensures { IfOk result (λ acee. acee ≡ acee_for image.now.state.rows image.now.generation request.now user.now) }
{
    let groups = AceeGroups::of(alloc, user.connects.items.as_slice())?;
    Ok(Acee {
        user: user.id,
        current: group_asked(request, user),
        groups,
        attributes: user.attributes,
        level: user.level,
        categories: user.categories,
        label: label_for(image, request, user),
        port: request.port,
        application: request.application,
        generation: image.generation(),
    })
}

/// The label of a user.
fn label_for(image: &Image, request: &VerifyRequest, user: &User) -> Option<Id>
    ensures { result ≡ label_for request.now user.now image.now.state.rows }
{
    if !is_active(image, FixedClass::Seclabel.id()) {
        return None;
    }
    match &request.label {
        Some(label) => Some(*label),
        None => user.label,
    }
}

/// Whether a class is active.
pub fn is_active(image: &Image, class: Id) -> bool
    ensures { result ≡ is_active class image.now.state.rows }
{
    match image.class(class) {
        Some(options) => options.active,
        None => false,
    }
}
