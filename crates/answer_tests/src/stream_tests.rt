//! Streams with their outputs, stops at each fault and in mid-stream, and limits.
ghost use Rattle.std.specs.Prelude.{◌≡◌, map, false, None, IfSome, IsTrue, string_bytes};
ghost use Rattle.racf_run.specs.Racf.{script_files, IsWholeOutput, OpensDatabase};
ghost use Rattle.statements.specs.Status.{is_whole};

use crate::desk_tests::new_desk;
use access_levels::Id;
use racf_desk::Desk;
use racf_files::FileShelf;
use racf_outside::{
    Disk, Failed, Failing, MemoryDisk, MemoryShelf, MemorySink, MemorySource, NeverDisk, Shelf,
    Source, Two,
};
use racf_run::{Idle, Status, racf, script};
use statements::Issuing;
use std::alloc::Global;
use std::process::Abort;
use std::sync::Wait;
use std::thread::Threads;

/// A profile, an ACEE, and what may be answered of them, before the class is active and afterwards.
const FIRST_STREAM: &str = "RDEFINE FACILITY BPX.X UACC(READ)
VERIFY A IBMUSER
AUTH A FACILITY BPX.X READ
SETROPTS CLASSACT(FACILITY)
AUTH A FACILITY BPX.X READ
AUTH A FACILITY BPX.X UPDATE
AUTH A FACILITY BPX.Y READ
RDEFINE FACILITY BPX.X UACC(NONE)
AUTH B FACILITY BPX.X READ
ADDUSER JOE
";

/// The output of the first stream.
const FIRST_OUTPUT: &str = "1 ACCEPTED
1 0 VERIFIED
1 4 CLASSOFF
2 ACCEPTED
2 0 UACC BPX.X READ
2 8 INSUFFICIENT BPX.X READ
AUDIT FAILURE IBMUSER FACILITY BPX.X UPDATE
2 4 NOPROFILE
2 REFUSED EXISTS BPX.X
2 REFUSED NOACEE B
3 ACCEPTED
";

/// A comment of this many bytes.
fn comment(rt: &(impl AllocGlobal + Abort), length: usize) -> Vec<u8> {
    let mut bytes = Vec::from_slice(rt.alloc(), b"/*").expect(rt, "memory");
    for _ in 2..length {
        assert!(rt; bytes.push(b'x').is_ok());
    }
    bytes
}

/// The words `script INPUT OUTPUT`.
fn words(rt: &(impl AllocGlobal + Abort), input: &str, output: &str) -> Vec<String> {
    let mut words = Vec::new(rt.alloc());
    for word in ["script", input, output] {
        let word = String::from_str(rt.alloc(), word).expect(rt, "memory");
        assert!(rt; words.push(word).is_ok());
    }
    words
}

/// The number alone, or none where it is 0.
fn numbers(rt: &(impl AllocGlobal + Abort), number: u64) -> Vec<u64> {
    let mut numbers = Vec::new(rt.alloc());
    if number > 0 {
        assert!(rt; numbers.push(number).is_ok());
    }
    numbers
}

/// A disk in memory that holds these bytes.
fn disk_of(rt: &(impl AllocGlobal + Abort), bytes: &[u8]) -> MemoryDisk {
    let bytes = Vec::from_slice(rt.alloc(), bytes).expect(rt, "memory");
    MemoryDisk::new(rt.alloc(), bytes, Vec::new(rt.alloc())).expect(rt, "memory")
}

/// Disks that hold a new database.
fn database(rt: &(impl AllocGlobal + Abort)) -> Two<MemoryDisk> {
    let disks = Two {
        first: disk_of(rt, b""),
        second: disk_of(rt, b""),
    };
    match Desk::format(rt.alloc(), disks) {
        Ok(desk) => desk.into_disks(),
        Err((disks, _)) => disks,
    }
}

/// The program over a shelf and disks in memory. What an embedder knows then: where the words are `script IN OUT` and
/// the input was read to its end, the disks stood for a position, and the output is exactly that of the input's bytes
/// from there on.
fn racf_in_memory<R: Wait + Threads + Sync>(
    rt: &R,
    alloc: Global,
    words: &[String],
    shelf: &mut MemoryShelf,
    disks: Two<MemoryDisk>,
) -> (Status, Two<MemoryDisk>)
    ensures { IsTrue (is_whole result.0) → IfSome (script_files (map string_bytes words.now)) (λ files.
        OpensDatabase (⟦<MemoryDisk as Disk>⟧.tells disks.first) (⟦<MemoryDisk as Disk>⟧.tells disks.second) (λ base.
        IsWholeOutput files.issuing base ⟦<MemoryShelf as Shelf>⟧.tells result.0
        (⟦<MemoryShelf as Shelf>⟧.input shelf.old files.input) (⟦<MemoryShelf as Shelf>⟧.output shelf.new files.output))) }
{
    racf(rt, alloc, words, shelf, disks, &Idle)
}

/// Which calls are to fail, by their numbers, and 0 where none is: the opening of an input and of an output, a read and
/// a write.
#[derive(Clone, Copy)]
struct Calls {
    source: u64,
    sink: u64,
    read: u64,
    write: u64,
}

/// No call fails.
const NONE: Calls = Calls {
    source: 0,
    sink: 0,
    read: 0,
    write: 0,
};

/// A shelf with that input, of which these calls are to fail.
fn shelf(rt: &(impl AllocGlobal + Abort), input: &str, calls: Calls) -> MemoryShelf {
    let bytes = Vec::from_slice(rt.alloc(), input.as_bytes()).expect(rt, "memory");
    let failing = Failing {
        sources: numbers(rt, calls.source),
        sinks: numbers(rt, calls.sink),
        writes: numbers(rt, calls.write),
    };
    let reads = numbers(rt, calls.read);
    let mut shelf = MemoryShelf::new(rt.alloc(), failing);
    assert!(rt; shelf.put("IN", bytes, reads).is_ok());
    shelf
}

/// Whether the output was written so, or was never opened.
fn has_output(shelf: &MemoryShelf, wanted: Option<&str>) -> bool {
    match (shelf.output("OUT"), wanted) {
        (Some(bytes), Some(text)) => bytes == text.as_bytes(),
        (None, None) => true,
        _ => false,
    }
}

/// Asserts how the program works the input over a shelf, and that it takes no other words.
fn assert_works<R: AllocGlobal + Abort + Wait + Threads + Sync>(
    rt: &R,
    input: &str,
    output: &str,
    status: Status,
) {
    let words = words(rt, "IN", "OUT");
    let mut shelf = shelf(rt, input, NONE);
    let (told, disks) = racf_in_memory(rt, rt.alloc(), words.as_slice(), &mut shelf, database(rt));
    assert!(rt; told == status);
    assert!(rt; has_output(&shelf, Some(output)));
    let (told, _disks) = racf(rt, rt.alloc(), &[], &mut shelf, disks, &Idle);
    assert!(rt; told == Status::Usage);
}

#[test]
fn works_the_shelf(rt: HostRuntime) {
    assert_works(&rt, FIRST_STREAM, FIRST_OUTPUT, Status::Refusals);
    assert_works(&rt, "", "", Status::Done);
}

/// Two requests.
const TWO: &str = "VERIFY A IBMUSER\nVERIFY B IBMUSER";

/// The calls that fail by their numbers (the opening of an input and of an output, a read and a write), how the program
/// ends then, and its output.
type Stop = (u64, u64, u64, u64, Status, Option<&'static str>);

/// A fault of each kind, and none where no call has the number.
const STOPS: [Stop; 6] = [
    (1, 0, 0, 0, Status::ReadFault, None),
    (0, 1, 0, 0, Status::WriteFault, None),
    (0, 0, 1, 0, Status::ReadFault, Some("")),
    (0, 0, 2, 0, Status::ReadFault, Some("0 0 VERIFIED\n")),
    (0, 0, 0, 2, Status::WriteFault, Some("0 0 VERIFIED\n")),
    (
        2,
        2,
        0,
        3,
        Status::Done,
        Some("0 0 VERIFIED\n0 0 VERIFIED\n"),
    ),
];

/// Whether the program ends so over two requests.
fn stops<R: AllocGlobal + Abort + Wait + Threads + Sync>(
    rt: &R,
    words: &[String],
    stop: Stop,
) -> bool {
    let (source, sink, read, write, status, output) = stop;
    let calls = Calls {
        source,
        sink,
        read,
        write,
    };
    let mut shelf = shelf(rt, TWO, calls);
    let (told, _disks) = racf(rt, rt.alloc(), words, &mut shelf, database(rt), &Idle);
    told == status && has_output(&shelf, output)
}

#[test]
fn stops_at_each_fault(rt: HostRuntime) {
    let words = words(&rt, "IN", "OUT");
    for stop in &STOPS {
        assert!(rt; stops(&rt, words.as_slice(), *stop));
    }
}

#[test]
fn stops_at_the_longest_input(rt: HostRuntime) {
    let words = words(&rt, "/dev/zero", "/dev/null");
    let host = rt.clone().expect(&rt, "memory");
    let mut shelf = FileShelf::new(rt.alloc(), host);
    let disks = database(&rt);
    let (status, _disks) = racf(&rt, rt.alloc(), words.as_slice(), &mut shelf, disks, &Idle);
    assert!(rt; status == Status::InputTooLong);
}

/// A source of these bytes, of which the read of that number is to fail.
fn source(rt: &(impl AllocGlobal + Abort), bytes: &[u8], read: u64) -> MemorySource {
    let bytes = Vec::from_slice(rt.alloc(), bytes).expect(rt, "memory");
    MemorySource::new(bytes, numbers(rt, read))
}

/// The status and the output of a stream at a desk that nothing happened at, whose commands are given so.
fn worked(
    alloc: Global,
    desk: Desk<NeverDisk>,
    source: MemorySource,
    mut sink: MemorySink,
    issuing: Issuing,
) -> (Status, Vec<u8>)
    requires running { desk.halted ≡ false }
    requires settled { desk.committed ≡ false }
{
    let (status, _source, desk) = script(alloc, source, &mut sink, desk, issuing);
    let _ = desk.into_disks();
    (status, sink.into_bytes())
}

/// A stream: its input, the read and the write that are to fail by their numbers, and 0 where none is, its output, and
/// how it ends.
type Worked<'a> = (&'a [u8], u64, u64, &'a str, Status);

/// Whether the stream ends so.
fn ends(rt: &(impl AllocGlobal + Abort), stream: Worked<'_>) -> bool {
    let (input, read, write, output, wanted) = stream;
    let source = source(rt, input, read);
    let sink = MemorySink::new(rt.alloc(), numbers(rt, write));
    let (status, written) = worked(rt.alloc(), new_desk(rt), source, sink, Issuing::Free);
    status == wanted && written.as_slice() == output.as_bytes()
}

/// A command whose second line is too long, and a command behind it.
fn too_long_in_a_command(rt: &(impl AllocGlobal + Abort)) -> Vec<u8> {
    let comment = comment(rt, 4097);
    let mut bytes = Vec::from_slice(rt.alloc(), b"ADDUSER JOE -\n").expect(rt, "memory");
    assert!(rt; bytes.extend_from_slice(comment.as_slice()).is_ok());
    assert!(rt; bytes.extend_from_slice(b"\nADDUSER BOB").is_ok());
    bytes
}

#[test]
fn refuses_long_lines(rt: HostRuntime) {
    let (longest, too_long) = (comment(&rt, 4096), comment(&rt, 4097));
    let inside = too_long_in_a_command(&rt);
    let told = "0 REFUSED LINETOOLONG\n";
    let told_inside = "0 REFUSED LINETOOLONG\n1 ACCEPTED\n";
    assert!(rt; ends(&rt, (longest.as_slice(), 0, 0, "", Status::Done)));
    assert!(rt; ends(&rt, (too_long.as_slice(), 0, 0, told, Status::Refusals)));
    assert!(rt;
        ends(
            &rt,
            (inside.as_slice(), 0, 0, told_inside, Status::Refusals)
        )
    );
}

const THREE: &[u8] = b"VERIFY A IBMUSER\nADDUSER JOE\nVERIFY B IBMUSER";

/// The same, where the last line has its line feed.
const FED: &[u8] = b"VERIFY A IBMUSER\nADDUSER JOE\nVERIFY B IBMUSER\n";

const JOINED: &[u8] = b"VERIFY A IBMUSER\nADDUSER JOE -\nNAME('J')";

const VERIFIED: &str = "0 0 VERIFIED\n";

const ACCEPTED: &str = "0 0 VERIFIED\n1 ACCEPTED\n";

const WHOLE: &str = "0 0 VERIFIED\n1 ACCEPTED\n1 0 VERIFIED\n";

/// Streams of which a read or a write fails, or none. The replies are written behind each command that is accepted, and
/// else before the next read and at the end: what waited in one call, and the newest reply in another.
const MID_STREAM: [Worked<'static>; 10] = [
    (THREE, 0, 0, WHOLE, Status::Done),
    (THREE, 1, 0, "", Status::ReadFault),
    (THREE, 2, 0, ACCEPTED, Status::ReadFault),
    (THREE, 0, 1, "", Status::WriteFault),
    (THREE, 0, 2, VERIFIED, Status::WriteFault),
    (THREE, 0, 3, ACCEPTED, Status::WriteFault),
    // A fourth call would fail.
    (FED, 0, 4, WHOLE, Status::Done),
    (FED, 0, 3, ACCEPTED, Status::WriteFault),
    (JOINED, 0, 0, ACCEPTED, Status::Done),
    (JOINED, 2, 0, VERIFIED, Status::ReadFault),
];

#[test]
fn stops_in_mid_stream(rt: HostRuntime) {
    for stream in &MID_STREAM {
        assert!(rt; ends(&rt, *stream));
    }
}

/// A source that gives no more than 17 bytes at a time, so that each read gives one line of those below.
#[derive(Drop)]
struct Typed {
    /// What gives the bytes.
    inner: MemorySource,
}

impl Source for Typed {
    ghost left = { λ _. None };

    ghost faults = { λ typed. ⟦<MemorySource as Source>⟧.faults typed.inner };

    fn read(&mut self, into: &mut [u8]) -> Result<usize, Failed> {
        if into.len() > 17 {
            self.inner.read(&mut into[..17])
        } else {
            self.inner.read(into)
        }
    }
}

/// Three lines of 17 bytes.
const TYPED: &[u8] = b"VERIFY A IBMUSER\nVERIFY B IBMUSER\nVERIFY C IBMUSER\n";

/// Whether the write of that number fails behind so many bytes, and the read of the number behind it isn't reached.
fn is_replied_first(rt: &(impl AllocGlobal + Abort), write: u64, read: u64, length: usize) -> bool {
    let inner = source(rt, TYPED, read);
    let mut sink = MemorySink::new(rt.alloc(), numbers(rt, write));
    let desk = new_desk(rt);
    let (status, source, desk) = script(
        rt.alloc(),
        Typed { inner },
        &mut sink,
        desk,
        Issuing::Free,
    );
    let _ = desk.into_disks();
    status == Status::WriteFault && source.inner.faults() == 0 && sink.bytes().len() == length
}

#[test]
fn replies_before_it_reads_again(rt: HostRuntime) {
    // The write of this number fails, and the read behind it would: each line's reply comes before the next read.
    assert!(rt; is_replied_first(&rt, 1, 2, 0));
    assert!(rt; is_replied_first(&rt, 2, 3, 13));
    assert!(rt; is_replied_first(&rt, 3, 4, 26));
}

/// Whether something in the stream is refused, and its output ends with these bytes.
fn is_refused_at_last(rt: &(impl AllocGlobal + Abort), input: &str, last: &[u8]) -> bool {
    let source = source(rt, input.as_bytes(), 0);
    let sink = MemorySink::new(rt.alloc(), Vec::new(rt.alloc()));
    let (status, written) = worked(rt.alloc(), new_desk(rt), source, sink, Issuing::Free);
    status == Status::Refusals && written.as_slice().ends_with(last)
}

/// A stream whose issuer is fixed: his ID, the input, its output, and how it ends.
type Given<'a> = (&'a [u8], &'a str, &'a str, Status);

/// Where the issuer is fixed, no line names another, whatever follows its first word; and whether he is a user is judged
/// at each command.
const GIVEN: [Given; 3] = [
    (
        b"ANN",
        "AU BOB\n*ISSUER IBMUSER\nAU BOB\n*issuer\n*ISSUER A,B\nVERIFY A IBMUSER\n",
        "0 REFUSED ISSUERUNKNOWN ANN\n0 REFUSED ISSUERFIXED\n0 REFUSED ISSUERUNKNOWN ANN\n0 REFUSED ISSUERFIXED\n0 REFUSED ISSUERFIXED\n0 0 VERIFIED\n",
        Status::Refusals,
    ),
    (
        b"IBMUSER",
        "AU ANN\n*ISSUER ANN\nAU BOB\n",
        "1 ACCEPTED\n1 REFUSED ISSUERFIXED\n2 ACCEPTED\n",
        Status::Refusals,
    ),
    (
        b"ANN",
        "/* x\nVERIFY A IBMUSER\n",
        "0 0 VERIFIED\n",
        Status::Done,
    ),
];

/// Whether the stream ends so.
fn is_given(rt: &(impl AllocGlobal + Abort), given: Given<'_>) -> bool {
    let (id, input, output, wanted) = given;
    let issuing = Issuing::Fixed(Id::read(id).expect(rt, "a lawful ID"));
    let source = source(rt, input.as_bytes(), 0);
    let sink = MemorySink::new(rt.alloc(), Vec::new(rt.alloc()));
    let (status, written) = worked(rt.alloc(), new_desk(rt), source, sink, issuing);
    status == wanted && written.as_slice() == output.as_bytes()
}

#[test]
fn one_gives_all_commands(rt: HostRuntime) {
    for given in &GIVEN {
        assert!(rt; is_given(&rt, *given));
    }
}

#[test]
fn a_long_line_is_told_so_where_the_issuer_is_fixed(rt: HostRuntime) {
    let mut input = String::from_str(rt.alloc(), "*ISSUER ").expect(&rt, "memory");
    for _ in 0..4096 {
        assert!(rt; input.push('A').is_ok());
    }
    let given = (
        b"ANN".as_slice(),
        input.as_str(),
        "0 REFUSED LINETOOLONG\n",
        Status::Refusals,
    );
    assert!(rt; is_given(&rt, given));
}

/// Commands that make 7,999 groups beside SYS1, and one more.
fn groups_to_the_limit(rt: &(impl AllocGlobal + Abort)) -> String {
    let mut stream = String::new(rt.alloc());
    for number in 1..8001u32 {
        assert!(rt; writeln!(stream, "ADDGROUP G{number}").is_ok());
    }
    stream
}

#[test]
fn holds_8000_groups(rt: HostRuntime) {
    let stream = groups_to_the_limit(&rt);
    let last = b"\n7999 ACCEPTED\n7999 REFUSED FULL GROUPS 8000\n";
    assert!(rt; is_refused_at_last(&rt, stream.as_str(), last));
}

/// VERIFY of 257 ACEEs.
fn acees_past_the_limit(rt: &(impl AllocGlobal + Abort)) -> String {
    let mut stream = String::new(rt.alloc());
    for number in 0..257u32 {
        assert!(rt; writeln!(stream, "VERIFY A{number} IBMUSER").is_ok());
    }
    stream
}

#[test]
fn holds_256_acees(rt: HostRuntime) {
    let stream = acees_past_the_limit(&rt);
    let last = b"\n0 0 VERIFIED\n0 REFUSED ACEESFULL\n";
    assert!(rt; is_refused_at_last(&rt, stream.as_str(), last));
}
