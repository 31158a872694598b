//! A stream, an opening, a new database and a checkpoint over disks in memory, where memory may be wanting. Run alone, a
//! test has ample memory; the script `tests/refusals` runs it with allocations refused behind the line that it prints
//! first: then what was to be made is whole, or memory was wanting, and output and disks are as they may be.
ghost use Rattle.std.specs.Prelude.{◌≡◌, false};

use racf_checkpoint::StoreFault;
use racf_desk::Desk;
use racf_outside::{MemoryDisk, MemorySink, MemorySource, Two};
use racf_stream::{Issuing, Status, script};
use std::alloc::Global;
use std::process::Abort;

/// The deck of a department, with its requests, as `examples/department/stream` has it.
const DECK: &str =
    "/* A department with an administrator and an auditor, under GRPLIST, with classes that are listed: who may what, and what is
/* logged of it.
ADDGROUP PROD SUPGROUP(SYS1) OWNER(SYS1)
ADDGROUP PAY SUPGROUP(PROD) OWNER(PROD)
ADDGROUP PAYROLL SUPGROUP(PAY) OWNER(PAY)
ADDUSER MGR NAME('PAY MANAGER') DFLTGRP(PAY) OWNER(PAY)
CONNECT MGR GROUP(PAY) AUTHORITY(JOIN) SPECIAL
ADDUSER AUDIT1 AUDITOR DFLTGRP(PROD)
SETROPTS GRPLIST CLASSACT(FACILITY OPERCMDS)
*ISSUER MGR GROUP(PAY)
ADDUSER CLERK DFLTGRP(PAYROLL) OWNER(PAYROLL)
*ISSUER IBMUSER
ALTUSER MGR CLAUTH(USER)
*ISSUER MGR GROUP(PAY)
ADDUSER CLERK DFLTGRP(PAYROLL) OWNER(PAYROLL)
ADDSD 'PAYROLL.MASTER.**' UACC(NONE)
PERMIT 'PAYROLL.MASTER.**' ID(PAYROLL) ACCESS(UPDATE)
PERMIT 'PAYROLL.MASTER.**' ID(CLERK) ACCESS(READ)
SETROPTS GRPLIST
*ISSUER IBMUSER
RDEFINE OPERCMDS MVS.DISPLAY.** UACC(READ)
RDEFINE FACILITY BPX.SUPERUSER
PERMIT BPX.SUPERUSER CLASS(FACILITY) ID(MGR) ACCESS(READ)
SETROPTS RACLIST(FACILITY OPERCMDS)
*ISSUER AUDIT1
SETROPTS LOGOPTIONS(SUCCESSES(FACILITY))
VERIFY M MGR GROUP(PAY)
VERIFY K CLERK
AUTH M DATASET PAYROLL.MASTER.Y2024 UPDATE
AUTH K DATASET PAYROLL.MASTER.Y2024 UPDATE
AUTH K OPERCMDS MVS.DISPLAY.JOB READ
AUTH M FACILITY BPX.SUPERUSER READ
FASTAUTH K FACILITY BPX.SUPERUSER READ
";

/// Its output: a line for each command, and then those of the requests.
const PRINTED: &str = "1 ACCEPTED
2 ACCEPTED
3 ACCEPTED
4 ACCEPTED
5 ACCEPTED
6 ACCEPTED
7 ACCEPTED
7 REFUSED NEED SPECIAL CLAUTH(USER)+JOIN(PAYROLL) CLAUTH(USER)+OWNER CLAUTH(USER)+GROUPSPECIAL
8 ACCEPTED
9 ACCEPTED
10 ACCEPTED
11 ACCEPTED
12 ACCEPTED
12 REFUSED NEED SPECIAL
13 ACCEPTED
14 ACCEPTED
15 ACCEPTED
16 ACCEPTED
17 ACCEPTED
17 0 VERIFIED
17 0 VERIFIED
17 8 INSUFFICIENT PAYROLL.MASTER.** NONE
AUDIT FAILURE MGR DATASET PAYROLL.MASTER.Y2024 UPDATE
17 8 INSUFFICIENT PAYROLL.MASTER.** READ
AUDIT FAILURE CLERK DATASET PAYROLL.MASTER.Y2024 UPDATE
17 0 UACC MVS.DISPLAY.** READ
17 0 USER BPX.SUPERUSER READ
AUDIT SUCCESS MGR FACILITY BPX.SUPERUSER READ
17 8 INSUFFICIENT BPX.SUPERUSER NONE
";

/// How many of its commands are accepted.
const ACCEPTED: u64 = 17;

/// Where the first gate stands in the file of a new database.
const START: usize = 360;

/// How a deck ended at a desk, and what is left of it.
#[derive(Drop)]
struct Ended {
    status: Status,
    is_halted: bool,
    number: u64,
    read_failed: bool,
    write_failed: bool,
    written: Vec<u8>,
    disks: Two<MemoryDisk>,
}

/// Works a deck at a desk.
fn worked(
    alloc: Global,
    desk: Desk<MemoryDisk>,
    source: MemorySource,
    mut sink: MemorySink,
) -> Ended
    requires running { desk.halted ≡ false }
    requires settled { desk.committed ≡ false }
{
    let (status, source, desk) = script(alloc, source, &mut sink, desk, Issuing::Free);
    Ended {
        status,
        is_halted: desk.halted(),
        number: desk.number(),
        read_failed: source.faults() > 0,
        write_failed: sink.faults() > 0,
        written: sink.into_bytes(),
        disks: desk.into_disks(),
    }
}

/// Opens the database on the disks, and works a deck at it.
fn worked_on(
    alloc: Global,
    disks: Two<MemoryDisk>,
    source: MemorySource,
    sink: MemorySink,
) -> Result<Ended, (Two<MemoryDisk>, StoreFault)> {
    match Desk::open(alloc, disks) {
        Ok(desk) => Ok(worked(alloc, desk, source, sink)),
        Err(back) => Err(back),
    }
}

/// A desk that was to be opened or made, or was to write a checkpoint: why it didn't, whether it is halted, its number,
/// and its disks.
#[derive(Drop)]
struct Left {
    why: Option<StoreFault>,
    is_halted: bool,
    number: u64,
    disks: Two<MemoryDisk>,
}

/// What is left of a desk that is at rest.
fn at_rest(why: Option<StoreFault>, desk: Desk<MemoryDisk>) -> Left {
    Left {
        why,
        is_halted: desk.halted(),
        number: desk.number(),
        disks: desk.into_disks(),
    }
}

/// What is left where there is no desk.
fn without_desk(back: (Two<MemoryDisk>, StoreFault)) -> Left {
    let (disks, why) = back;
    Left {
        why: Some(why),
        is_halted: false,
        number: 0,
        disks,
    }
}

/// Opens the database on the disks.
fn opened(alloc: Global, disks: Two<MemoryDisk>) -> Left {
    match Desk::open(alloc, disks) {
        Ok(desk) => at_rest(None, desk),
        Err(back) => without_desk(back),
    }
}

/// Makes a new database on the disks.
fn made(alloc: Global, disks: Two<MemoryDisk>) -> Left {
    match Desk::format(alloc, disks) {
        Ok(desk) => at_rest(None, desk),
        Err(back) => without_desk(back),
    }
}

/// Writes a checkpoint at a desk.
fn compacted(alloc: Global, desk: Desk<MemoryDisk>) -> Left
    requires running { desk.halted ≡ false }
    requires settled { desk.committed ≡ false }
{
    let mut desk = desk;
    match desk.compact(alloc) {
        Ok(()) => at_rest(None, desk),
        Err(why) => at_rest(Some(why), desk),
    }
}

/// An empty disk in memory.
fn empty_disk(rt: &(impl AllocGlobal + Abort)) -> MemoryDisk {
    MemoryDisk::new(rt.alloc(), Vec::new(rt.alloc()), Vec::new(rt.alloc())).expect(rt, "memory")
}

/// Disks that hold a new database.
fn new_database(rt: &(impl AllocGlobal + Abort)) -> Two<MemoryDisk> {
    let disks = Two {
        first: empty_disk(rt),
        second: empty_disk(rt),
    };
    made(rt.alloc(), disks).disks
}

/// A source of the deck.
fn deck_source(rt: &(impl AllocGlobal + Abort)) -> MemorySource {
    let bytes = Vec::from_slice(rt.alloc(), DECK.as_bytes()).expect(rt, "memory");
    MemorySource::new(bytes, Vec::new(rt.alloc()))
}

/// Disks that hold the database that the deck leaves.
fn department(rt: &(impl AllocGlobal + Abort)) -> Two<MemoryDisk> {
    let sink = MemorySink::new(rt.alloc(), Vec::new(rt.alloc()));
    match worked_on(rt.alloc(), new_database(rt), deck_source(rt), sink) {
        Ok(ended) => ended.disks,
        Err((disks, _)) => disks,
    }
}

/// A desk at that database.
fn department_desk(rt: &(impl AllocGlobal + Abort)) -> Desk<MemoryDisk>
    ensures running { result.halted ≡ false }
    ensures settled { result.committed ≡ false }
{
    match Desk::open(rt.alloc(), department(rt)) {
        Ok(desk) => desk,
        Err((_, why)) => panic!(rt; "{why}"),
    }
}

/// Whether two pairs of disks read the same.
fn are_same(left: &Two<MemoryDisk>, right: &Two<MemoryDisk>) -> bool {
    left.first.bytes() == right.first.bytes() && left.second.bytes() == right.second.bytes()
}

/// Whether a call of a disk failed.
fn have_failed(disks: &Two<MemoryDisk>) -> bool {
    disks.first.faults() > 0 || disks.second.faults() > 0
}

/// What stands behind the first record of a journal, where it has one.
fn behind_record(journal: &[u8]) -> Option<&[u8]> {
    let [1, a, b, c, d, rest @ ..] = journal else {
        return None;
    };
    let length = u32::from_be_bytes([*a, *b, *c, *d]) as usize;
    rest.get(length..)
}

/// The front of a file that ends before the gate behind so many records, where it has as many.
fn front_of(file: &[u8], records: u64) -> Option<&[u8]> {
    let mut rest = file.get(START..)?;
    for _ in 0..records {
        rest = behind_record(rest)?;
    }
    file.get(..file.len().saturating_sub(rest.len()))
}

/// Whether a file has just these bytes and a closed gate.
fn ends_behind(file: &[u8], front: Option<&[u8]>) -> bool {
    match (file.split_last(), front) {
        (Some((0, rest)), Some(front)) => rest == front,
        _ => false,
    }
}

/// Whether a file is that of so many commands, of which another one has all.
fn has_records(file: &[u8], whole: &[u8], number: u64) -> bool {
    ends_behind(file, front_of(whole, number))
}

/// Whether a file is that of so many commands and, behind a gate that is open or closed, the next one.
fn has_one_in_doubt(file: &[u8], whole: &[u8], number: u64) -> bool {
    let (Some(front), Some(next)) = (
        front_of(whole, number),
        front_of(whole, number.saturating_add(1)),
    ) else {
        return false;
    };
    match (file.strip_prefix(front), next.strip_prefix(front)) {
        (Some([0 | 1, rest @ ..]), Some([1, record @ ..])) => ends_behind(rest, Some(record)),
        _ => false,
    }
}

/// Whether the disks stand for so many commands of the deck, or, where a disk failed the next one, for that one too.
fn stand_for(disks: &Two<MemoryDisk>, whole: &Two<MemoryDisk>, number: u64, failed: bool) -> bool {
    let (file, whole_file) = (disks.first.bytes(), whole.first.bytes());
    disks.second.bytes() == whole.second.bytes()
        && (has_records(file, whole_file, number)
            || failed && has_one_in_doubt(file, whole_file, number))
}

/// How many lines of a text end so.
fn lines_with(text: &str, end: &str) -> u64 {
    let mut count = 0u64;
    for line in text.lines() {
        if line.ends_with(end) {
            count = count.saturating_add(1);
        }
    }
    count
}

/// How many lines of a front of the output are of commands.
fn commands_in(text: &str) -> u64 {
    let mut count = 0u64;
    for line in text.lines() {
        if line.ends_with(" ACCEPTED") || line.contains(" REFUSED ") {
            count = count.saturating_add(1);
        }
    }
    count
}

/// Whether a line is what a request is answered behind so many commands, without a word of an ACEE that isn't there.
fn is_answer(line: &str, number: &str) -> bool {
    if line.starts_with("AUDIT ") {
        return true;
    }
    match line.strip_prefix(number) {
        Some(rest) => {
            rest.starts_with(" 0 ")
                || rest.starts_with(" 4 ")
                || rest.starts_with(" 8 ")
                || rest.starts_with(" REFUSED NOACEE ")
        }
        None => false,
    }
}

/// Whether a line tells a command that the desk is halted behind so many.
fn is_halted(line: &str, number: &str) -> bool {
    line.strip_prefix(number) == Some(" HALTED")
}

/// Whether the lines behind the one of a disk's fault tell each command that the desk is halted, and answer the requests
/// behind them: so many commands follow, or fewer where the output is cut short.
fn are_behind_a_fault(behind: &str, number: &str, commands: u64, is_cut: bool) -> bool {
    let mut halted = 0u64;
    for line in behind.lines() {
        if is_halted(line, number) {
            halted = halted.saturating_add(1);
        } else if halted < commands || !is_answer(line, number) {
            return false;
        }
    }
    halted == commands || is_cut && halted < commands
}

/// Whether an output is a front of the deck's up to a command that a disk failed, and says so, and what is told behind it.
fn tells_a_fault(text: &str, is_cut: bool) -> bool {
    let Some((before, behind)) = text.split_once(" DISKFAULT\n") else {
        return false;
    };
    let (front, number) = before.rsplit_once('\n').unwrap_or(("", before));
    let Some(rest) = PRINTED.strip_prefix(front) else {
        return false;
    };
    match rest.strip_prefix('\n').unwrap_or(rest).split_once('\n') {
        Some((line, more)) => {
            line.ends_with(" ACCEPTED")
                && number.parse::<u64>() == Ok(lines_with(front, " ACCEPTED"))
                && are_behind_a_fault(behind, number, commands_in(more), is_cut)
        }
        None => false,
    }
}

/// Whether an output is in whole lines, and is a front of the deck's, or tells a disk's fault.
fn is_output(text: &str, failed: bool, is_cut: bool) -> bool {
    (text.is_empty() || text.ends_with('\n'))
        && (PRINTED.starts_with(text) && (is_cut || text.len() == PRINTED.len())
            || failed && tells_a_fault(text, is_cut))
}

/// Whether an output tells of so many commands that they were accepted, or, where a write failed, of all but the last.
fn tells_of(text: &str, number: u64, write_failed: bool) -> bool {
    let told = lines_with(text, " ACCEPTED");
    told == number || write_failed && told.saturating_add(1) == number
}

/// Whether the output is as it may be.
fn has_output(ended: &Ended) -> bool {
    let is_cut = ended.status == Status::NoMemory || ended.read_failed || ended.write_failed;
    match str::from_utf8(ended.written.as_slice()) {
        Ok(text) => {
            is_output(text, ended.is_halted, is_cut)
                && tells_of(text, ended.number, ended.write_failed)
        }
        Err(_) => false,
    }
}

/// Whether the status has its cause.
fn has_cause(ended: &Ended) -> bool {
    match ended.status {
        Status::Refusals => !ended.read_failed && !ended.write_failed && !ended.is_halted,
        Status::ReadFault => ended.read_failed && !ended.is_halted,
        Status::WriteFault => ended.write_failed && !ended.is_halted,
        Status::DiskFault => ended.is_halted,
        Status::NoMemory => true,
        _ => false,
    }
}

/// Whether the deck ended as it may where memory is wanting: what the disks stand for is the position of the accepted
/// commands, and only a disk's fault halts the desk.
fn is_lawful(ended: &Ended, whole: &Two<MemoryDisk>) -> bool {
    has_cause(ended)
        && has_output(ended)
        && ended.is_halted == (ended.disks.first.faults() > 0)
        && stand_for(&ended.disks, whole, ended.number, ended.is_halted)
}

/// Whether there was no memory, or, where a call of the disks failed, that is a disk's fault.
fn is_wanting(why: &StoreFault, disks: &Two<MemoryDisk>) -> bool {
    match why {
        StoreFault::NoMemory => !have_failed(disks),
        StoreFault::DiskFault => have_failed(disks),
        _ => false,
    }
}

/// Whether a database that wasn't opened is left as it was.
fn is_left(back: &(Two<MemoryDisk>, StoreFault), before: &Two<MemoryDisk>) -> bool {
    let (disks, why) = back;
    is_wanting(why, disks) && are_same(disks, before)
}

/// Whether the deck was worked whole; else it ended as it may, or its database wasn't opened.
fn is_whole(
    rt: &(impl AllocGlobal + Abort),
    ended: Result<Ended, (Two<MemoryDisk>, StoreFault)>,
    before: &Two<MemoryDisk>,
    whole: &Two<MemoryDisk>,
) -> bool {
    match ended {
        Ok(ended) => {
            assert!(rt; is_lawful(&ended, whole));
            ended.status == Status::Refusals
        }
        Err(back) => {
            assert!(rt; is_left(&back, before));
            false
        }
    }
}

/// Prints whether what was to be made is whole.
fn print(rt: &(impl Print + Abort), is_whole: bool) {
    let printed = if is_whole {
        println!(rt; "MADE")
    } else {
        println!(rt; "NO MEMORY")
    };
    assert!(rt; printed.is_ok());
}

/// Prints the line behind which allocations may be refused.
fn begin(rt: &(impl Print + Abort)) {
    assert!(rt; println!(rt; "FROM HERE").is_ok());
}

#[test]
fn stream_in_memory(rt: HostRuntime) {
    let (before, whole) = (new_database(&rt), department(&rt));
    let (disks, source) = (new_database(&rt), deck_source(&rt));
    let sink = MemorySink::new(rt.alloc(), Vec::new(rt.alloc()));
    begin(&rt);
    let ended = worked_on(rt.alloc(), disks, source, sink);
    let whole = is_whole(&rt, ended, &before, &whole);
    print(&rt, whole);
}

/// Whether the database was opened, or wasn't for want of memory, and is left as it was.
fn is_as_before(left: &Left, before: &Two<MemoryDisk>) -> bool {
    are_same(&left.disks, before)
        && match &left.why {
            None => left.number == ACCEPTED && !have_failed(&left.disks),
            Some(why) => is_wanting(why, &left.disks),
        }
}

#[test]
fn opening_in_memory(rt: HostRuntime) {
    let (before, disks) = (department(&rt), department(&rt));
    begin(&rt);
    let left = opened(rt.alloc(), disks);
    assert!(rt; is_as_before(&left, &before));
    print(&rt, left.why.is_none());
}

/// Whether the head gate of a file isn't open, so that it says nothing.
fn says_nothing(file: &[u8]) -> bool {
    file.get(8) != Some(&1)
}

/// Whether a file is as it was, says nothing, or is as it was to be.
fn is_on_the_way(file: &[u8], before: &[u8], behind: &[u8]) -> bool {
    file == before || file == behind || says_nothing(file)
}

/// Whether a file that was to be made anew never says anything older: where the newer one of two says nothing any more,
/// the older one doesn't either.
fn is_no_older(disks: &Two<MemoryDisk>, before: &Two<MemoryDisk>) -> bool {
    !says_nothing(disks.second.bytes()) || disks.first.bytes() != before.first.bytes()
}

/// Whether a database was made over another one, of whose two checkpoints the second is the newer: it is the new one;
/// or it is as it was, since memory was wanting; or a disk failed, and no crash leaves anything older.
fn is_made(left: &Left, before: &Two<MemoryDisk>, new: &Two<MemoryDisk>) -> bool {
    let disks = &left.disks;
    match &left.why {
        None => are_same(disks, new) && left.number == 0,
        Some(StoreFault::NoMemory) => are_same(disks, before) && !have_failed(disks),
        Some(why) => {
            is_wanting(why, disks)
                && is_on_the_way(disks.first.bytes(), before.first.bytes(), new.first.bytes())
                && is_on_the_way(
                    disks.second.bytes(),
                    before.second.bytes(),
                    new.second.bytes(),
                )
                && is_no_older(disks, before)
        }
    }
}

#[test]
fn new_database_in_memory(rt: HostRuntime) {
    let before = compacted(rt.alloc(), department_desk(&rt)).disks;
    let disks = compacted(rt.alloc(), department_desk(&rt)).disks;
    let new = new_database(&rt);
    begin(&rt);
    let left = made(rt.alloc(), disks);
    assert!(rt; is_made(&left, &before, &new));
    print(&rt, left.why.is_none());
}

/// Whether a checkpoint was written on the second disk, and the first is as it was; or the database is as it was, since
/// memory was wanting; or a disk failed, which halts the desk, and the second says nothing yet, or has it.
fn is_compacted(left: &Left, before: &Two<MemoryDisk>, behind: &Two<MemoryDisk>) -> bool {
    let disks = &left.disks;
    disks.first.bytes() == before.first.bytes()
        && left.number == ACCEPTED
        && match &left.why {
            None => are_same(disks, behind) && !left.is_halted,
            Some(StoreFault::NoMemory) => {
                are_same(disks, before) && !left.is_halted && !have_failed(disks)
            }
            Some(why) => {
                is_wanting(why, disks)
                    && left.is_halted
                    && is_on_the_way(
                        disks.second.bytes(),
                        before.second.bytes(),
                        behind.second.bytes(),
                    )
            }
        }
}

#[test]
fn checkpoint_in_memory(rt: HostRuntime) {
    let before = department(&rt);
    let behind = compacted(rt.alloc(), department_desk(&rt)).disks;
    let desk = department_desk(&rt);
    begin(&rt);
    let left = compacted(rt.alloc(), desk);
    assert!(rt; is_compacted(&left, &before, &behind));
    print(&rt, left.why.is_none());
}
