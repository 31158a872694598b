//! A caller that asks behind commands of which nobody told it.
ghost use Rattle.std.specs.Prelude.{◌≡◌};
ghost use Rattle.std.specs.Arc.{arc_value};
ghost use Rattle.desk_rules.specs.Position.{first_position};
ghost use Rattle.published_desk.specs.Standing.{AreTogether, nothing_published};

use access_levels::{Id, Level};
use acee::VerifyRequest;
use command_history::{Naming, Opened};
use decision::Request;
use generic_names::{NameKind, Resource};
use published_desk::give;
use racf_desk::Desk;
use racf_outside::NeverDisk;
use racf_profiles::FixedClass;
use raclist_image::Image;
use raclist_snapshots::snapshots;
use racroute::{auth, fastauth, verify};
use std::alloc::Global;
use std::sync::{Arc, Wait};
use std::test::*;

/// Who is verified, once he is defined.
fn joe() -> Result<VerifyRequest, Fail> {
    match Id::read(b"JOE") {
        Ok(user) => Ok(VerifyRequest {
            user,
            group: None,
            port: None,
            application: None,
            label: None,
        }),
        Err(_) => Err("an identifier".into()),
    }
}

/// What he asks for.
fn read_of_x() -> Result<Request, Fail> {
    let Ok(name) = Resource::read(NameKind::General, b"X") else {
        return Err("a name".into());
    };
    match Request::new(FixedClass::Facility.id(), name, Level::Read) {
        Some(request) => Ok(request),
        None => Err("a request".into()),
    }
}

/// The codes that AUTH and FASTAUTH give him, each behind the command that lets him have what he asks for.
pub(super) fn codes<J: Naming, R: Wait>(
    rt: &R,
    alloc: Global,
    opened: Opened,
    image: Arc<Image, Global>,
    desk: &mut Desk<NeverDisk>,
) -> Result<[u8; 2], Fail>
    requires book { opened ≡ J.book }
    requires base { J.base ≡ first_position }
    requires image { arc_value image ≡ first_position.image }
    requires desk { AreTogether J.base desk.old nothing_published }
{
    let (mut publisher, mut callers) = snapshots::<J, R>(rt, alloc, opened, image, 1)?;
    let (who, what) = (joe()?, read_of_x()?);
    let Some(caller) = callers.first_mut() else {
        return Err("a caller".into());
    };
    let _ = give(alloc, desk, &mut publisher, b"ADDUSER JOE")?;
    let Ok(acee) = verify(alloc, caller, &who) else {
        return Err("a user".into());
    };
    let _ = give(alloc, desk, &mut publisher, b"SETROPTS CLASSACT(FACILITY)")?;
    let _ = give(
        alloc,
        desk,
        &mut publisher,
        b"RDEFINE FACILITY X UACC(READ)",
    )?;
    let answer = auth(caller, &acee, &what).rc;
    let _ = give(alloc, desk, &mut publisher, b"SETROPTS RACLIST(FACILITY)")?;
    Ok([answer, fastauth(caller, &acee, &what).rc])
}
