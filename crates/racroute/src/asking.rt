//! Questions of callers, each on the newest image that its caller knows of.
ghost use Rattle.std.specs.Prelude.{◌≡◌};
ghost use Rattle.command_history.specs.Events.{Extends};
ghost use Rattle.command_history.specs.Reached.{reached};
ghost use Rattle.decision.specs.Table.{decided, fast_decided};
ghost use Rattle.decision.specs.Verify.{IsVerified};

use acee::{Acee, VerifyFault, VerifyRequest};
use command_history::Naming;
use decision::{Decision, Request};
use raclist_snapshots::Caller;
use std::alloc::Global;

/// The ACEE of a user who is verified, in the state behind what the caller has seen then.
///
/// # Errors
///
/// Those of `decision::verify`.
pub fn verify<J: Naming>(
    alloc: Global,
    caller: &mut Caller<J>,
    request: &VerifyRequest,
) -> Result<Acee, VerifyFault>
    ensures verified { IsVerified (reached J.base caller.new.events).image.state (reached J.base caller.new.events).image.generation request.now result }
    ensures later { Extends caller.old.events caller.new.events }
    ensures learned { caller.new.learned ≡ caller.old.learned }
{
    caller.enter();
    decision::verify(alloc, caller.image(), request)
}

/// The decision on a request, in the state behind what the caller has seen then. It takes no memory.
pub fn auth<J: Naming>(caller: &mut Caller<J>, acee: &Acee, request: &Request) -> Decision
    ensures decided { result ≡ decided (reached J.base caller.new.events).image.state (reached J.base caller.new.events).image.generation acee.now request.now.class request.now.name request.now.asked }
    ensures later { Extends caller.old.events caller.new.events }
    ensures learned { caller.new.learned ≡ caller.old.learned }
{
    caller.enter();
    decision::auth(caller.image(), acee, request)
}

/// The same in classes that are RACLISTed alone. It takes no memory.
pub fn fastauth<J: Naming>(caller: &mut Caller<J>, acee: &Acee, request: &Request) -> Decision
    ensures decided { result ≡ fast_decided (reached J.base caller.new.events).image.state (reached J.base caller.new.events).image.generation acee.now request.now.class request.now.name request.now.asked }
    ensures later { Extends caller.old.events caller.new.events }
    ensures learned { caller.new.learned ≡ caller.old.learned }
{
    caller.enter();
    decision::fastauth(caller.image(), acee, request)
}
