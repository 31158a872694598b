//! Lets callers enter in threads of their own, to be measured by `bench/snapshots`. Each row of standard input is
//! worked at once, over a new database: `callers entries commands` lets so many callers enter so many times each, while
//! a command is accepted and published every ten milliseconds, so many at most. It prints how many entries were made,
//! and how many commands were accepted meanwhile.
#![tactic(auto)]

ghost use Rattle.std.specs.Prelude.{◌≡◌, ◌<◌, [], false, None, IfSome};
ghost use Rattle.std.specs.Arc.{arc_value};
ghost use Rattle.desk_rules.specs.Position.{first_position};
ghost use Rattle.published_desk.specs.Standing.{AreTogether, nothing_published};

use anyhow::{Result, anyhow};
use command_history::{Naming, Opened};
use left_right::Absorb;
use published_desk::{Given, give, new_desk};
use racf_desk::Desk;
use racf_outside::NeverDisk;
use racf_profiles::NoMemory;
use raclist_image::Image;
use raclist_snapshots::{Caller, Note, Opens, Publisher, snapshots};
use std::alloc::Global;
use std::marker::Brand;
use std::sync::atomic::{AtomicU64, Ordering};
use std::sync::{Arc, Wait};
use std::thread::{Threads, for_each_mut, join, sleep};
use std::time::{Clock, Duration};

/// What a row asks for.
#[derive(Clone, Copy)]
struct Row {
    /// How many commands may be published meanwhile.
    commands: u64,
    /// How many callers enter.
    callers: u32,
    /// How many times each.
    entries: u64,
}

/// A caller, with what it counts.
#[derive(Drop)]
struct Entering<J: Naming> {
    /// The caller.
    caller: Caller<J>,
    /// How many entries it made.
    made: u64,
    /// Room, so that two callers write to no line of memory in common.
    apart: [u64; 16],
}

/// What was done for a row.
#[derive(Clone, Copy)]
struct Done {
    /// How many entries were made.
    entries: u64,
    /// How many commands were accepted meanwhile.
    commands: u64,
}

/// Enters so many times, and counts the entries that see no older image than the one before.
fn enter<J: Naming>(entering: &mut Entering<J>, entries: u64) {
    let mut made = 0_u64;
    let mut last = 0;
    for _ in 0..entries {
        entering.caller.enter();
        let number = entering.caller.generation();
        if last <= number {
            made = made.saturating_add(1);
        }
        last = number;
    }
    entering.made = made;
}

/// All callers enter, each in a thread of its own; then nobody is left.
fn enter_all<J: Naming + Send + Sync, R: Threads + Wait + Sync>(
    rt: &R,
    all: &mut [Entering<J>],
    entries: u64,
    left: &AtomicU64,
) {
    let threads = all.len().max(1);
    for_each_mut(
        rt,
        all,
        threads,
        &|_, entering: &mut Entering<J>| { enter(entering, entries) },
    );
    left.store(0, Ordering::SeqCst);
}

/// Gives a command every ten milliseconds while callers are left, so many at most, and counts those that are accepted.
fn publish<J: Naming, T: Absorb<O> + Drop, O: Opens<Note<J>>, Q: Wait + Drop, R: Wait + Clock>(
    rt: &R,
    alloc: Global,
    desk: &mut Desk<NeverDisk>,
    publisher: &mut Publisher<J, T, O, Q>,
    left: &AtomicU64,
    most: u64,
) -> u64
    requires { AreTogether J.base desk.old publisher.old }
{
    let mut commands = 0_u64;
    for _ in 0..most {
        if left.load(Ordering::SeqCst) == 0 {
            return commands;
        }
        match give(alloc, desk, publisher, b"ALTUSER IBMUSER NAME('A NAME')") {
            Ok(Given::Published) => commands = commands.saturating_add(1),
            Ok(Given::Refused) => {}
            Err(_) => return commands,
        }
        sleep(rt, Duration::from_millis(10));
    }
    commands
}

/// Works a row over this desk, whose image this is.
fn work<J: Naming + Send + Sync, R: Threads + Wait + Clock + Sync>(
    rt: &R,
    alloc: Global,
    opened: Opened,
    image: Arc<Image, Global>,
    desk: &mut Desk<NeverDisk>,
    row: Row,
) -> Option<Done>
    requires book { opened ≡ J.book }
    requires base { J.base ≡ first_position }
    requires image { arc_value image ≡ first_position.image }
    requires some { 0 < row.callers }
    requires desk { AreTogether J.base desk.old nothing_published }
{
    let Ok((mut publisher, made)) = snapshots::<J, R>(rt, alloc, opened, image, row.callers) else {
        return None;
    };
    let mut all = Vec::new(alloc);
    for caller in made {
        let entering = Entering {
            caller,
            made: 0,
            apart: [0; 16],
        };
        all.push(entering).ok()?;
    }
    let left = AtomicU64::new(1);
    let ((), commands) = join(
        rt,
        || enter_all(rt, all.as_mut_slice(), row.entries, &left),
        || publish(rt, alloc, desk, &mut publisher, &left, row.commands),
    );
    let mut entries = 0_u64;
    for entering in all.as_slice() {
        entries = entries.saturating_add(entering.made);
    }
    Some(Done { entries, commands })
}

/// What a row of standard input asks for.
fn row_of(text: &str) -> Option<Row>
    ensures { IfSome result (λ row. 0 < row.callers) }
{
    let mut words = text.split(' ');
    let callers = words.next()?.parse::<u32>().ok()?;
    let entries = words.next()?.parse::<u64>().ok()?;
    let commands = words.next()?.parse::<u64>().ok()?;
    Some(Row {
        commands,
        callers: callers.max(1),
        entries,
    })
}

/// Works a row over a new database.
fn work_row<R: Threads + Wait + Clock + AllocGlobal + Sync>(
    rt: &R,
    row: Row,
) -> Result<Option<Done>, NoMemory>
    requires { 0 < row.callers }
{
    let mut desk = new_desk(rt.alloc())?;
    let done = match Arc::try_clone(desk.image()) {
        Ok(image) => work::<Brand, R>(rt, rt.alloc(), Opened::new(), image, &mut desk, row),
        Err(_) => None,
    };
    let _ = desk.into_disks();
    Ok(done)
}

/// Works the rows of standard input.
fn main(rt: HostRuntime) -> Result<()> {
    for line in rt.lines(rt.alloc()) {
        let line = line?;
        let row = row_of(line.as_str()).ok_or_else(|| anyhow!("no row"))?;
        let done = work_row(&rt, row)?.ok_or_else(|| anyhow!("no memory"))?;
        println!(rt; "{} {}", done.entries, done.commands)?;
    }
    Ok(())
}
