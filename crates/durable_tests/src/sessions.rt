//! Desks over disks of which a call fails: what they answer, command by command, and where they stand then.

ghost use Rattle.std.specs.Prelude.{◌≡◌, ◌+◌, ◌<◌, ◌-◌, ◌^◌, false, IfOk, OnOk};

use crate::files::Checkpoint::{First, Nothing, Second};
use crate::files::{
    BARE, BOB, EMPTY, Held, JOE, NEW, NOBODY, NOTHING, WITH_JOE, disks_of, length_of, read_as,
};
use access_levels::Id;
use racf_checkpoint::StoreFault;
use racf_desk::{Desk, Reply};
use racf_outside::{Disk, MemoryDisk, Two};
use racf_profiles::ibmuser;
use raclist_image::Image;
use std::alloc::Global;
use std::process::Abort;

/// Where a desk stands, as it can be told from outside: the number of the accepted commands, and whether the users JOE,
/// BOB and JIM are there.
type Stand = (u64, [bool; 3]);

/// Whether there is a user of this name.
fn has_user(image: &Image, name: &[u8]) -> bool {
    match Id::read(name) {
        Ok(id) => image.user(id).is_some(),
        Err(_) => false,
    }
}

/// Where the desk stands.
fn stand_of<D: Disk>(desk: &Desk<D>) -> Stand {
    let image = desk.image();
    let users = [
        has_user(image, b"JOE"),
        has_user(image, b"BOB"),
        has_user(image, b"JIM"),
    ];
    (desk.number(), users)
}

/// A new desk over the disks, or the disks where one fails.
fn formatted(
    rt: &impl AllocGlobal,
    disks: Two<MemoryDisk>,
) -> Result<Desk<MemoryDisk>, Two<MemoryDisk>>
    ensures running { IfOk result (λ desk. desk.halted ≡ false) }
    ensures settled { IfOk result (λ desk. desk.committed ≡ false) }
    ensures epoch { IfOk result (λ desk. desk.store.epoch ≡ 1) }
{
    match Desk::format(rt.alloc(), disks) {
        Ok(desk) => Ok(desk),
        Err((disks, _)) => Err(disks),
    }
}

/// The answer to a command, with its number.
#[derive(Clone, Copy, PartialEq, Eq)]
enum Answer {
    /// `Reply::Accepted`.
    Accepted(u64),
    /// `Reply::DiskFault`.
    DiskFault(u64),
    /// `Reply::Halted`.
    Halted(u64),
    /// Any other.
    Other,
}

/// The answer.
fn kind_of(reply: &Reply) -> Answer {
    match reply {
        Reply::Accepted(number) => Answer::Accepted(*number),
        Reply::DiskFault(number) => Answer::DiskFault(*number),
        Reply::Halted(number) => Answer::Halted(*number),
        Reply::Refused(..) | Reply::NoMemory => Answer::Other,
    }
}

/// What the desk answers to IBMUSER's command.
fn executed(alloc: Global, desk: &mut Desk<MemoryDisk>, text: &[u8]) -> Answer
    requires settled { desk.old.committed ≡ false }
    ensures settled { desk.new.committed ≡ false }
    ensures epoch { desk.new.store.epoch ≡ desk.old.store.epoch }
{
    kind_of(&desk.execute(alloc, ibmuser(), None, text))
}

/// Compacts a desk that isn't at its last epoch.
fn compacted(alloc: Global, desk: &mut Desk<MemoryDisk>) -> Result<(), StoreFault>
    requires running { desk.old.halted ≡ false }
    requires settled { desk.old.committed ≡ false }
    requires epoch { desk.old.store.epoch < 2 ^ 64 - 1 }
    ensures running { OnOk result (desk.new.halted ≡ false) }
    ensures settled { desk.new.committed ≡ false }
{
    desk.compact(alloc)
}

/// What the desk answers where IBMUSER's command isn't made.
fn judged(alloc: Global, desk: &mut Desk<MemoryDisk>, text: &[u8]) -> Answer
    requires settled { desk.old.committed ≡ false }
{
    let Err(reply) = desk.judge(alloc, ibmuser(), None, text) else {
        return Answer::Other;
    };
    kind_of(&reply)
}

/// Whether a new desk over disks of which that call of the first fails, or none, answers so to `AU JOE`, `AU BOB` and
/// `AX`, which is no command, stands there behind them, and takes no more where it is halted. A new desk takes fourteen
/// calls, and each accepted command four.
fn halts(
    rt: &(impl AllocGlobal + Abort),
    failing: u64,
    answers: [Answer; 3],
    stand: Stand,
) -> bool {
    let alloc = rt.alloc();
    let Ok(mut desk) = formatted(rt, disks_of(rt, &(NOTHING, BARE), (failing, 0), false)) else {
        return false;
    };
    let first = executed(alloc, &mut desk, b"AU JOE");
    let second = executed(alloc, &mut desk, b"AU BOB");
    let third = executed(alloc, &mut desk, b"AX");
    let last = judged(alloc, &mut desk, b"DU JOE");
    let halted = desk.halted();
    let stands = stand_of(&desk) == stand;
    let faults = desk.into_disks().first.faults();
    [first, second, third] == answers
        && stands
        && halted == (failing < 23)
        && (!halted || last == Answer::Halted(stand.0))
        && faults == u64::from(halted)
}

/// A desk whose disk failed a command answers each further one so, with the number, whatever that says; and its image
/// is that of the commands before.
#[test]
fn halted_desks_take_no_more(rt: HostRuntime) {
    let none = [Answer::DiskFault(0), Answer::Halted(0), Answer::Halted(0)];
    let one = [Answer::Accepted(1), Answer::DiskFault(1), Answer::Halted(1)];
    let two = [Answer::Accepted(1), Answer::Accepted(2), Answer::Other];
    assert!(rt; halts(&rt, 15, none, (0, [false; 3])));
    assert!(rt; halts(&rt, 18, none, (0, [false; 3])));
    assert!(rt; halts(&rt, 19, one, (1, [true, false, false])));
    assert!(rt; halts(&rt, 21, one, (1, [true, false, false])));
    assert!(rt; halts(&rt, 22, one, (1, [true, false, false])));
    assert!(rt; halts(&rt, 23, two, (2, [true, true, false])));
}

/// What the disks tell of a compaction that fails, or not.
fn tells_of(disks: &Two<MemoryDisk>, fails: bool) -> bool {
    disks.first.faults() == 0
        && disks.second.faults() == u64::from(fails)
        && (fails || read_as(disks, &((First, JOE), (Second, BOB))))
}

/// Whether a new desk that is given `AU JOE`, compacted, and given `AU BOB`, where that call of the second disk fails,
/// or none, answers so to the compaction and the last command, and stands there. A new desk takes seven calls of that
/// disk, the compaction seven, and the command four.
fn compacts(
    rt: &(impl AllocGlobal + Abort),
    failing: u64,
    wanted: Result<(), StoreFault>,
    last: Answer,
    stand: Stand,
) -> bool {
    let alloc = rt.alloc();
    let Ok(mut desk) = formatted(rt, disks_of(rt, &(NOTHING, NOTHING), (0, failing), false)) else {
        return false;
    };
    let first = executed(alloc, &mut desk, b"AU JOE");
    if desk.halted() {
        let _disks = desk.into_disks();
        return false;
    }
    let compaction = compacted(alloc, &mut desk);
    let second = executed(alloc, &mut desk, b"AU BOB");
    let stands = stand_of(&desk) == stand;
    let halted = desk.halted();
    let fails = (1..19).contains(&failing);
    tells_of(&desk.into_disks(), fails)
        && first == Answer::Accepted(1)
        && compaction == wanted
        && second == last
        && stands
        && halted == fails
}

/// A compaction that a disk fails halts the desk: its seven calls.
#[test]
fn compactions_halt_desks(rt: HostRuntime) {
    let stand = (1, [true, false, false]);
    for failing in 8..15 {
        let wanted = Err(StoreFault::DiskFault);
        assert!(rt;
            compacts(&rt, failing, wanted, Answer::Halted(1), stand),
            "at call {failing}"
        );
    }
}

/// One that is done leaves it taking commands, on the other disk, which may fail the next one: its four calls.
#[test]
fn compacted_desks_are_halted(rt: HostRuntime) {
    let stand = (1, [true, false, false]);
    for failing in 15..19 {
        assert!(rt;
            compacts(&rt, failing, Ok(()), Answer::DiskFault(1), stand),
            "at call {failing}"
        );
    }
}

/// Behind these it goes on, and where no call fails.
#[test]
fn compacted_desks_go_on(rt: HostRuntime) {
    let stand = (2, [true, true, false]);
    for failing in 19..22 {
        assert!(rt;
            compacts(&rt, failing, Ok(()), Answer::Accepted(2), stand),
            "at call {failing}"
        );
    }
    assert!(rt; compacts(&rt, 0, Ok(()), Answer::Accepted(2), stand));
}

/// Whether the compaction is answered so of a desk that is opened over two checkpoints, of which the older lies on the
/// first disk, where that call of the first disk fails, or none: where it fails the desk is halted, and stands where it
/// stood. Its opening takes two calls of that disk, and the compaction nine.
fn compacts_again(
    rt: &(impl AllocGlobal + Abort),
    failing: u64,
    wanted: Result<(), StoreFault>,
) -> bool {
    let held = ((First, JOE), (Second, BOB));
    let Ok(mut desk) = Desk::open(rt.alloc(), disks_of(rt, &held, (failing, 0), false)) else {
        return false;
    };
    let compaction = desk.compact(rt.alloc());
    let halted = desk.halted();
    let stands = stand_of(&desk) == (2, [true, true, false]);
    let faults = desk.into_disks().first.faults();
    compaction == wanted && stands && halted == wanted.is_err() && faults == u64::from(halted)
}

/// A compaction over an older checkpoint that a disk fails halts the desk too; behind its calls, and where none fails,
/// it is done.
#[test]
fn desks_that_are_compacted_again_are_halted(rt: HostRuntime) {
    for failing in 3..12 {
        let wanted = Err(StoreFault::DiskFault);
        assert!(rt; compacts_again(&rt, failing, wanted), "at call {failing}");
    }
    assert!(rt; compacts_again(&rt, 12, Ok(())));
    assert!(rt; compacts_again(&rt, 0, Ok(())));
}

/// What both disks hold before a new database is made.
const BEFORE: &[Held] = &[NOTHING, (Nothing, b"ABC"), (First, NOBODY), (Second, EMPTY)];

/// Whether a new desk over these disks stands behind no command.
fn is_made(rt: &(impl AllocGlobal + Abort), held: &Held) -> bool {
    let Ok(desk) = formatted(rt, disks_of(rt, &(*held, *held), (0, 0), false)) else {
        return false;
    };
    let stands = stand_of(&desk) == (0, [false; 3]);
    read_as(&desk.into_disks(), &NEW) && stands
}

/// Whether its first command leaves what it should.
fn takes_a_command(rt: &(impl AllocGlobal + Abort), held: &Held) -> bool {
    let Ok(mut desk) = formatted(rt, disks_of(rt, &(*held, *held), (0, 0), false)) else {
        return false;
    };
    let answer = executed(rt.alloc(), &mut desk, b"AU JOE");
    read_as(&desk.into_disks(), &WITH_JOE) && answer == Answer::Accepted(1)
}

/// A new database is a checkpoint on the first disk, whatever the disks held, and its first command 32 bytes more.
#[test]
fn new_databases_are_the_same(rt: HostRuntime) {
    for held in BEFORE {
        assert!(rt; is_made(&rt, held) && takes_a_command(&rt, held));
    }
    let (new, _) = NEW;
    let (joe, _) = WITH_JOE;
    assert!(rt; length_of(&new) == 361 && length_of(&joe) == 393);
}
