//! Runs of decks and request files. What is printed depends on how the workers meet, but where a gate holds them.

mod asking;
mod gates;
mod memory;
mod runs;

use self::asking::codes;
use self::gates::{Hold, Holding};
use self::runs::{Asked, Told, number_of, ran, ran_on_failing};
use command_history::Opened;
use published_desk::new_desk;
use racf_outside::{MemoryDisk, Two};
use racf_workers::Idle;
use statements::Status;
use std::alloc::Global;
use std::marker::Brand;
use std::sync::Arc;
use std::test::*;

/// A deck of five commands, and a file that waits for each of the first four, and for more than will come.
const FOLLOWING: Asked = Asked {
    decks: &[b"AU A\nAU B\nAU C\nAU D\nAU E\n"],
    requests: &[
        b"VERIFY A IBMUSER\n*AFTER 1\nAUTH A DATASET SYS1.X READ\n*AFTER 2\nAUTH A DATASET SYS1.X READ\n*AFTER 3\nAUTH A DATASET SYS1.X READ\n*AFTER 4\nAUTH A DATASET SYS1.X READ\n*AFTER 9\n",
    ],
};

/// What they print where each command waits for the answer before the file's wait for it.
const FOLLOWED: [&[u8]; 2] = [
    b"1 ACCEPTED\n2 ACCEPTED\n3 ACCEPTED\n4 ACCEPTED\n5 ACCEPTED\n",
    b"0 0 VERIFIED\n1 4 NOPROFILE\n2 4 NOPROFILE\n3 4 NOPROFILE\n4 4 NOPROFILE\nNEVER 5\n",
];

/// Each line of the deck waits until the file has answered the line in front of its wait for that command: so who waits
/// for a command is woken by that command, and not by the next one or by the end of a deck. Whether the file waits
/// already when the command comes, the gate can't hold: it comes to four waits, so that one of them does.
#[test]
fn a_file_follows_its_deck(rt: HostRuntime) -> Result<(), Fail> {
    let holds = [
        Hold::new(0, 1, 1, 1),
        Hold::new(0, 2, 1, 3),
        Hold::new(0, 3, 1, 5),
        Hold::new(0, 4, 1, 7),
        Hold::new(0, 5, 1, 9),
    ];
    let told = ran(&rt, rt.alloc(), &FOLLOWING, &Holding::new(&rt, &holds))?;
    assert!(rt; told.is(Status::Refusals, &FOLLOWED));
    Ok(())
}

/// Two decks of which the second needs what the first does.
const PERMITTING: Asked = Asked {
    decks: &[
        b"RDEFINE FACILITY X.Y\n",
        b"PERMIT X.Y CLASS(FACILITY) ID(IBMUSER)\n",
    ],
    requests: &[],
};

/// The replies where the second met what the first had done.
const MET: [&[u8]; 2] = [b"1 ACCEPTED\n", b"2 ACCEPTED\n"];

/// The replies where it came before.
const MISSED: [&[u8]; 2] = [b"1 ACCEPTED\n", b"0 REFUSED NOPROFILE FACILITY X.Y\n"];

#[test]
fn one_deck_meets_another(rt: HostRuntime) -> Result<(), Fail> {
    let told = ran(&rt, rt.alloc(), &PERMITTING, &Idle)?;
    assert!(rt; told.is(Status::Done, &MET) || told.is(Status::Refusals, &MISSED));
    Ok(())
}

#[test]
fn a_deck_that_is_held_meets_what_the_other_did(rt: HostRuntime) -> Result<(), Fail> {
    let holds = [Hold::new(1, 1, 0, 1)];
    let told = ran(&rt, rt.alloc(), &PERMITTING, &Holding::new(&rt, &holds))?;
    assert!(rt; told.is(Status::Done, &MET));
    Ok(())
}

/// A deck, and a file that gives no command and waits for none.
const UNTOLD: Asked = Asked {
    decks: &[b"AU JOE\nAU BOB\nSETR CLASSACT(FACILITY)\n"],
    requests: &[
        b"VERIFY A IBMUSER\nVERIFY B JOE\nAUTH A DATASET SYS1.X READ\nAUTH A FACILITY X READ\n",
    ],
};

/// What they print where each line of one waits for the line of the other before it.
const TOLD: [&[u8]; 2] = [
    b"1 ACCEPTED\n2 ACCEPTED\n3 ACCEPTED\n",
    b"0 0 VERIFIED\n1 0 VERIFIED\n2 4 NOPROFILE\n3 4 NOPROFILE\n",
];

/// Each line of the deck waits for a line of the file, and the other way round: so both are under way at once. And each
/// line of the file is answered on the command before it, of which nobody told the file.
#[test]
fn workers_run_side_by_side_and_who_is_told_nothing_follows(rt: HostRuntime) -> Result<(), Fail> {
    let holds = [
        Hold::new(0, 1, 1, 1),
        Hold::new(1, 2, 0, 1),
        Hold::new(0, 2, 1, 2),
        Hold::new(1, 3, 0, 2),
        Hold::new(0, 3, 1, 3),
        Hold::new(1, 4, 0, 3),
    ];
    let told = ran(&rt, rt.alloc(), &UNTOLD, &Holding::new(&rt, &holds))?;
    assert!(rt; told.is(Status::Done, &TOLD));
    Ok(())
}

/// Two decks and a file.
const FAILING: Asked = Asked {
    decks: &[b"AU A\nAU B\nAU C\n", b"AU D\n"],
    requests: &[b"VERIFY A A\n"],
};

/// What they print where the disk fails the second command of the first, and the others come behind it.
const FAILED: [&[u8]; 3] = [
    b"1 ACCEPTED\n1 DISKFAULT\n1 HALTED\n",
    b"1 HALTED\n",
    b"1 0 VERIFIED\n",
];

/// A new database takes fourteen calls of its first disk, and a command four: the twentieth is of the second command.
#[test]
fn a_disk_fault_is_told_once(rt: HostRuntime) -> Result<(), Fail> {
    let holds = [Hold::new(1, 1, 0, 2), Hold::new(2, 1, 1, 1)];
    let told = ran_on_failing(&rt, rt.alloc(), &FAILING, &Holding::new(&rt, &holds), 20)?;
    assert!(rt; told.is(Status::DiskFault, &FAILED));
    Ok(())
}

/// Two decks and a file that waits for three commands, and for a fourth.
const STOPPING: Asked = Asked {
    decks: &[b"AU A1\nAU A2\n", b"AU B1\nAU B2\nAU B3\n"],
    requests: &[b"VERIFY A IBMUSER\n*AFTER 3\nAUTH A DATASET SYS1.X READ\n*AFTER 4\n"],
};

/// What the decks print where the second begins behind the first command of the first, and ends before its second one,
/// and the disk fails the fourth that is accepted.
const STOPPED: [&[u8]; 2] = [
    b"1 ACCEPTED\n3 HALTED\n",
    b"2 ACCEPTED\n3 ACCEPTED\n3 DISKFAULT\n",
];

/// What the file prints behind the number of its first answer.
const WAITED: &[u8] = b" 0 VERIFIED\n3 4 NOPROFILE\nNEVER 3\n";

/// The file of a new database has 361 bytes, and each of these records 31, its gate among them.
const LAST_GATE: usize = 360 + 3 * 31;

/// How many commands lead to what the disks read as, and to an image of the first in which the fourth gate is closed.
fn opened_twice(alloc: Global, disks: Two<MemoryDisk>) -> Result<[u64; 2], Fail> {
    let number = number_of(alloc, disks.first.bytes(), disks.second.bytes())?;
    let mut image = Vec::from_slice(alloc, disks.first.bytes())?;
    match image.get_mut(LAST_GATE) {
        Some(gate) if *gate == 1 => *gate = 0,
        _ => return Err("an open gate".into()),
    }
    Ok([number, number_of(alloc, &image, disks.second.bytes())?])
}

/// The second sync of the fourth command fails, the thirtieth call of the first disk: a read of the disk gives the
/// command, and so does an opening of what is read; of an image in which the gate in front of it is still closed it
/// doesn't.
#[test]
fn the_second_sync_of_the_fourth_command_fails(rt: HostRuntime) -> Result<(), Fail> {
    let holds = [Hold::new(1, 1, 0, 1), Hold::new(0, 2, 1, 3)];
    let gate = Holding::new(&rt, &holds);
    let Told {
        status,
        outputs,
        disks,
    } = ran_on_failing(&rt, rt.alloc(), &STOPPING, &gate, 30)?;
    assert!(rt; status == Status::DiskFault && status.code() == 20);
    let [first, second, file] = outputs.as_slice() else {
        return Err("three outputs".into());
    };
    assert!(rt; [first.as_slice(), second.as_slice()] == STOPPED);
    let [number, waited @ ..] = file.as_slice() else {
        return Err("an answer".into());
    };
    assert!(rt; (b'0'..=b'3').contains(number) && waited == WAITED);
    let numbers = opened_twice(rt.alloc(), disks)?;
    assert_eq!(rt; numbers, [4, 3]);
    Ok(())
}

/// Each question is one on the newest command, though nobody told the caller of any.
#[test]
fn who_asks_is_answered_on_the_newest_command(rt: HostRuntime) -> Result<(), Fail> {
    let mut desk = new_desk(rt.alloc())?;
    let image = Arc::try_clone(desk.image());
    let told = match image {
        Ok(image) => codes::<Brand, HostRuntime>(&rt, rt.alloc(), Opened::new(), image, &mut desk),
        Err(_) => Err("memory".into()),
    };
    let _ = desk.into_disks();
    assert_eq!(rt; told?, [0, 0]);
    Ok(())
}
