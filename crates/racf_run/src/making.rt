//! The generated text, written with the counts of what its stream is answered.

ghost use Rattle.std.specs.Prelude.{◌≡◌, ◌⊎◌, ◌<◌, ◌≤◌, false, None, length, IfOk};
ghost use Rattle.racf_outside.specs.Causes.{Rose};
ghost use Rattle.racf_generator.specs.MadeText.{made_text};
ghost use Rattle.racf_run.specs.Making.{make_text, summary_text, most_users, WroteText};
ghost use Rattle.desk_rules.specs.Position.{first_position};
ghost use Rattle.racf_stream.specs.Script.{script_output};

use racf_desk::Desk;
use racf_generator::laws::made_text_is_short;
use racf_generator::{AnswerTally, MadeText, line_count};
use racf_outside::{Failed, NeverDisk, Sink, Source, Two};
use racf_stream::script;
use statements::{Issuing, Status, write_all};
use std::alloc::{AllocError, Global};

/// How many bytes of the text are written at once.
const BLOCK: usize = 65_536;

/// Writes the generated text of so many users, at most 10,000, to the sink, and behind it a line with the counts of
/// what `script` answers to it, which is worked out over a new database that no disk keeps. Neither the text nor the
/// answers are kept, so that memory grows with the database alone. `NoMemory` comes also where a source or a sink in
/// memory wants memory.
pub fn make<O: Sink>(alloc: Global, users: u32, sink: &mut O) -> Status
    requires few { users ≤ most_users }
    ensures ends { (result ≡ Status.Done) ⊎ ((result ≡ Status.WriteFault) ⊎ (result ≡ Status.NoMemory)) }
    ensures wrote { WroteText result (make_text users) (O.taken sink.old) (O.taken sink.new) }
    ensures write_fault { result ≡ Status.WriteFault → Rose (O.faults sink.old) (O.faults sink.new) }
    ensures sink_faults { O.faults sink.old ≤ O.faults sink.new }
{
    match write_made(alloc, users, sink) {
        Status::Done => write_summary(alloc, users, sink),
        stop => stop,
    }
}

/// Writes the generated text.
fn write_made<O: Sink>(alloc: Global, users: u32, sink: &mut O) -> Status
    requires few { users ≤ most_users }
    ensures wrote { WroteText result (made_text users) (O.taken sink.old) (O.taken sink.new) }
    ensures write_fault { result ≡ Status.WriteFault → Rose (O.faults sink.old) (O.faults sink.new) }
    ensures sink_faults { O.faults sink.old ≤ O.faults sink.new }
{
    let Ok(mut block) = new_block(alloc) else {
        return Status::NoMemory;
    };
    let mut text = MadeText::new(alloc, users);
    write_made_by(block.as_mut_slice(), &mut text, sink)
}

/// Writes what is left of the generated text, a block at a time.
fn write_made_by<O: Sink>(block: &mut [u8], source: &mut MadeText, sink: &mut O) -> Status
    requires room { 0 < length block.old }
    ensures wrote { WroteText result source.old.left (O.taken sink.old) (O.taken sink.new) }
    ensures write_fault { result ≡ Status.WriteFault → Rose (O.faults sink.old) (O.faults sink.new) }
    ensures sink_faults { O.faults sink.old ≤ O.faults sink.new }
{
    loop {
        let count = match source.read(block) {
            Ok(0) => return Status::Done,
            Ok(count) => count,
            Err(Failed) => return Status::NoMemory,
        };
        match write_all(sink, &block[..count]) {
            Ok(()) => {}
            Err(Failed) => return Status::WriteFault,
        }
    }
}

/// Room for a block.
fn new_block(alloc: Global) -> Result<Vec<u8>, AllocError>
    ensures { IfOk result (λ block. 0 < length block.items) }
{
    vec![in alloc; 0; BLOCK]
}

/// Writes the counts of what the stream of the generated text is answered.
fn write_summary<O: Sink>(alloc: Global, users: u32, sink: &mut O) -> Status
    requires few { users ≤ most_users }
    ensures wrote { WroteText result (summary_text users) (O.taken sink.old) (O.taken sink.new) }
    ensures write_fault { result ≡ Status.WriteFault → Rose (O.faults sink.old) (O.faults sink.new) }
    ensures sink_faults { O.faults sink.old ≤ O.faults sink.new }
{
    match summary_line(alloc, users) {
        Ok(line) => write_text(line.as_slice(), sink),
        Err(_) => Status::NoMemory,
    }
}

/// The line with the counts.
fn summary_line(alloc: Global, users: u32) -> Result<Vec<u8>, AllocError>
    requires few { users ≤ most_users }
    ensures { IfOk result (λ line. line.items ≡ summary_text users) }
{
    let answers = tallied(alloc, users)?;
    let mut line = Vec::new(alloc);
    answers.write_summary(u64::from(line_count(users)), &mut line)?;
    Ok(line)
}

/// What the stream of the generated text is answered, counted.
fn tallied(alloc: Global, users: u32) -> Result<AnswerTally, AllocError>
    requires few { users ≤ most_users }
    ensures { IfOk result (λ answers. answers.taken ≡ script_output None Issuing.Free first_position (made_text users)) }
{
    made_text_is_short();
    let Ok(desk) = new_desk(alloc) else {
        return Err(AllocError);
    };
    let mut answers = AnswerTally::new(alloc);
    let (status, _, desk) = script(
        alloc,
        MadeText::new(alloc, users),
        &mut answers,
        desk,
        Issuing::Free,
    );
    let Two {
        first: NeverDisk,
        second: NeverDisk,
    } = desk.into_disks();
    match status {
        Status::Done | Status::Refusals => Ok(answers),
        Status::ReadFault | Status::WriteFault | Status::NoMemory => Err(AllocError),
        Status::Usage
        | Status::InputTooLong
        | Status::DiskFault
        | Status::NotFormatted
        | Status::Damaged(_) => unreachable!(),
    }
}

/// A desk over a new database that nothing keeps.
fn new_desk(alloc: Global) -> Result<Desk<NeverDisk>, AllocError>
    ensures position { IfOk result (λ desk. desk.position ≡ first_position) }
    ensures running { IfOk result (λ desk. desk.halted ≡ false) }
    ensures settled { IfOk result (λ desk. desk.committed ≡ false) }
{
    let disks = Two {
        first: NeverDisk,
        second: NeverDisk,
    };
    match Desk::format(alloc, disks) {
        Ok(desk) => Ok(desk),
        Err(_) => Err(AllocError),
    }
}

/// Writes a text.
fn write_text<O: Sink>(text: &[u8], sink: &mut O) -> Status
    ensures wrote { WroteText result text.now (O.taken sink.old) (O.taken sink.new) }
    ensures write_fault { result ≡ Status.WriteFault → Rose (O.faults sink.old) (O.faults sink.new) }
    ensures sink_faults { O.faults sink.old ≤ O.faults sink.new }
{
    match write_all(sink, text) {
        Ok(()) => Status::Done,
        Err(Failed) => Status::WriteFault,
    }
}
