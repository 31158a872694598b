//! VERIFY, with the error of this crate.

ghost use Rattle.decision.specs.Verify.{IsVerified};
ghost use Rattle.yilthen.specs.Errors.{AsVerified};

use crate::error::Error;
use acee::{Acee, VerifyFault, VerifyRequest};
use raclist_image::Image;
use std::alloc::Global;

/// The ACEE of a user who is verified, as the image has him: `decision::verify`, whose answer this is.
///
/// # Errors
///
/// `NotVerified` with the first check that fails, or `NoMemory`.
pub fn verify(alloc: Global, image: &Image, request: &VerifyRequest) -> Result<Acee, Error>
    ensures { AsVerified result (IsVerified image.now.state image.now.generation request.now) }
{
    match decision::verify(alloc, image, request) {
        Ok(acee) => Ok(acee),
        Err(VerifyFault::NoMemory) => Err(Error::NoMemory),
        Err(fault) => Err(Error::NotVerified(fault)),
    }
}
