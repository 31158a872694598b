//! The top call: the words of the command line, over a shelf of named inputs and outputs.

ghost use Rattle.std.specs.Prelude.{ℕ, ◌≡◌, ◌≢◌, ◌⊎◌, ◌↔◌, ◌≤◌, ◌<◌, ◌||◌, true, false, map, is_some, IsNone, IsSome, IsTrue, IfSome, length, string_bytes};
ghost use Rattle.std.specs.Option.{option_map};
ghost use Rattle.racf_outside.specs.Causes.{Rose};
ghost use Rattle.racf_outside.specs.Shelf.{SameBytes};
ghost use Rattle.racf_journal.specs.Opening.{OnlySynced};
ghost use Rattle.racf_checkpoint.specs.Formatting.{StaysBaring, StaysFormatting};
ghost use Rattle.desk_rules.specs.Formatting.{LeavesNoOlder};
ghost use Rattle.desk_rules.specs.Position.{first_position};
ghost use Rattle.desk_rules.specs.Durable.{LeavesBoth, SameIdle};
ghost use Rattle.desk_rules.specs.Recovery.{StandsFor};
ghost use Rattle.racf_run.specs.Racf.{files_of, script_files, stream_files, is_init, opening_status, RunsOnShelf, MakesOnShelf, IsWholeOutput, OpensNone};
ghost use Rattle.racf_run.specs.Racf.{IsUnsound, OpensNoDatabase, OpensDatabase, OpenedDisks, OpensOn, StandsStill, EndsOn, EndsAt, RoseEither, fault_counts};
ghost use Rattle.racf_run.specs.Asking.{ask_files, Asks};
ghost use Rattle.racf_run.specs.Checking.{check_files, Checks};
ghost use Rattle.racf_run.specs.Opening.{reads_of, writes_of};
ghost use Rattle.racf_run.specs.Compacting.{is_compact, EndsCompact, MovesToCompact};
ghost use Rattle.racf_run.specs.Making.{make_words, most_users};
ghost use Rattle.racf_run.specs.Running.{run_words, NamedRan, RunsFiles};
ghost use Rattle.statements.specs.Runs.{longest_input};
ghost use Rattle.statements.specs.Status.{is_whole};

use crate::asking::{ask_files, ask_on};
use crate::checking::check_on;
use crate::compacting::{compact_on, is_compact};
use crate::issuers::{fixed_issuer, is_issuer_word};
use crate::making::make;
use crate::names::run_words;
use crate::running::run_on;
use racf_checkpoint::StoreFault;
use racf_desk::Desk;
use racf_outside::{Disk, Failed, Shelf, Two};
use racf_stream::script;
use racf_workers::Gate;
use request_files::number_word;
use statements::{Issuing, Status};
use std::alloc::Global;
use std::sync::Wait;
use std::thread::Threads;

/// The most users that `make` is asked for.
const MOST_USERS: u64 = 10_000;

/// What the words of a stream name.
#[derive(Clone, Copy)]
pub(crate) struct Files<'a> {
    /// Who gives the commands.
    pub(crate) issuing: Issuing,
    /// IN.
    pub(crate) input: &'a str,
    /// OUT.
    pub(crate) output: &'a str,
}

/// What the words `make N OUT` ask for.
#[derive(Clone, Copy)]
struct MakeWords<'a> {
    /// N.
    users: u32,
    /// OUT.
    output: &'a str,
}

/// The program: works what the words ask for, over the inputs and outputs of a shelf and the database on the disks. The
/// word `init` makes a new database, whatever the disks held. The word `compact` opens the database and writes a
/// checkpoint of it, on the disk that doesn't count: then that one counts, and there are no records behind it. The
/// words `script IN OUT` open the database, work the stream of the input IN, and write to the output OUT; IN and OUT
/// differ or are both `-`. The words `check IN OUT` do the same at a desk that looks at the database: the stream is
/// tried, and nothing of it is kept. The words `ask IN OUT`, or `ask -n IN OUT`, look at the database, and answer the
/// lines of IN as a request file: with `-n` each line that is printed has the number of the input's line in front. The
/// words `run K NAME..` open the database, and work the first K of the names, from 1 to 4, as decks, and the others, at
/// most 16, as request files, each in a thread of its own: the output of NAME is `NAME.out`. The names differ, and none
/// is the output of another. The words `make N OUT` write the generated text of N users, from 1 to 10,000, to the
/// output OUT. Behind `script`, `check` and `run` the words `--issuer ID` may stand: then that user gives all commands,
/// and each line that would name an issuer is refused. Other words are `Usage`. (The words are this product's own.)
///
/// The database is opened first, then of each name the input and then the output; each that was opened is handed back,
/// under its name. The gate is asked before and behind each line of a run.
pub fn racf<F: Shelf, D: Disk + Send, G: Gate + Sync, R: Wait + Threads + Sync>(
    rt: &R,
    alloc: Global,
    words: &[String],
    shelf: &mut F,
    disks: Two<D>,
    gate: &G,
) -> (Status, Two<D>)
where
    F::In: Drop + Send,
    F::Out: Drop + Send,

    // The database is opened, or why not. Which calls are made of the shelf then, in which order, what the outputs tell
    // afterwards, wherever the stream stopped, and what every crash leaves of the disks, meanwhile and behind it.
    ensures runs { IfSome (script_files (map string_bytes words.now)) (λ files.
        OpensNoDatabase (D.tells disks.first) (D.tells disks.second) (D.tells result.1.first) (D.tells result.1.second) result.0 shelf.old shelf.new
        ⊎ OpensDatabase (D.tells disks.first) (D.tells disks.second) (λ base.
        (opened : OpenedDisks) × OpensOn (D.tells disks.first) (D.tells disks.second) opened
        × RunsOnShelf F.source_gives F.sink_gives F.take_back_gives F.give_back_gives F.tells F.output
        (Rose (F.source_faults shelf.old) (F.source_faults shelf.new)) (Rose (F.sink_faults shelf.old) (F.sink_faults shelf.new))
        (EndsOn files.issuing base (F.input shelf.old files.input) opened (D.tells result.1.first) (D.tells result.1.second)
        (RoseEither (D.faults disks.first) (D.faults result.1.first) (D.faults disks.second) (D.faults result.1.second))) base
        result.0 (F.input shelf.old files.input) files shelf.old shelf.new)) }

    // Where the input was read to its end and no disk failed, all of its output was written, and nothing else.
    ensures whole { IsTrue (is_whole result.0) → IfSome (script_files (map string_bytes words.now)) (λ files.
        OpensDatabase (D.tells disks.first) (D.tells disks.second) (λ base.
        IsWholeOutput files.issuing base F.tells result.0 (F.input shelf.old files.input) (F.output shelf.new files.output))) }

    // The database is opened, or why not; then all files, or why not; and then decks and request files are worked side
    // by side, over one history, of which each output tells a part.
    ensures runs_together { IfSome (run_words (map string_bytes words.now)) (λ asked.
        OpensNoDatabase (D.tells disks.first) (D.tells disks.second) (D.tells result.1.first) (D.tells result.1.second) result.0 shelf.old shelf.new
        ⊎ OpensDatabase (D.tells disks.first) (D.tells disks.second) (λ base.
        (opened : OpenedDisks) × OpensOn (D.tells disks.first) (D.tells disks.second) opened
        × RunsFiles F.source_gives F.sink_gives F.take_back_gives F.give_back_gives F.tells F.output
        (λ outs. NamedRan opened (D.tells result.1.first) (D.tells result.1.second)
        (fault_counts (F.source_faults shelf.old) (F.sink_faults shelf.old) (D.faults disks.first) (D.faults disks.second))
        (fault_counts (F.source_faults shelf.new) (F.sink_faults shelf.new) (D.faults result.1.first) (D.faults result.1.second)) base F.tells result.0 asked
        (reads_of F.In.faults outs) (writes_of F.Out.faults outs) (F.input shelf.old) (F.output shelf.old) (F.output shelf.new))
        (StandsStill opened (D.tells result.1.first) (D.tells result.1.second) base)
        result.0 asked.names shelf.old shelf.new)) }

    ensures makes { IfSome (make_words (map string_bytes words.now)) (λ asked.
        MakesOnShelf F.sink_gives F.give_back_gives F.tells F.output result.0 asked shelf.old shelf.new) }

    // A new database: every crash leaves what stands for it.
    ensures new { is_init (map string_bytes words.now) ≡ true → result.0 ≡ Status.Done →
        LeavesBoth (D.tells result.1.first) (D.tells result.1.second) (StandsFor first_position) }
    ensures new_or_not { is_init (map string_bytes words.now) ≡ true →
        (result.0 ≡ Status.Done) ⊎ ((result.0 ≡ Status.DiskFault) ⊎ (result.0 ≡ Status.NoMemory)) }
    ensures memory { is_init (map string_bytes words.now) ≡ true → result.0 ≡ Status.NoMemory →
        (result.1.first ≡ disks.first) × (result.1.second ≡ disks.second) }

    // Where none was made, whatever crashes leave says nothing older than what stood there. At every moment a crash
    // leaves of each disk what was possible before, or a file that says nothing, or the new one.
    ensures no_older { is_init (map string_bytes words.now) ≡ true → result.0 ≢ Status.Done →
        LeavesNoOlder (D.tells disks.first) (D.tells disks.second) (D.tells result.1.first) (D.tells result.1.second) }
    ensures init_moments { is_init (map string_bytes words.now) ≡ true →
        StaysFormatting (D.tells disks.first) (D.tells result.1.first) × StaysBaring (D.tells disks.second) (D.tells result.1.second) }

    // A stream is tried at what is seen of the database; the disks are only synced, unless one failed.
    ensures checks { IfSome (check_files (map string_bytes words.now)) (λ files.
        Checks F.source_gives F.sink_gives F.take_back_gives F.give_back_gives F.tells F.output
        (Rose (F.source_faults shelf.old) (F.source_faults shelf.new)) (Rose (F.sink_faults shelf.old) (F.sink_faults shelf.new))
        (D.tells disks.first) (D.tells disks.second) (D.tells result.1.first) (D.tells result.1.second) result.0
        (F.input shelf.old files.input) files shelf.old shelf.new) }

    // Questions are answered at what is seen of the database; the disks are only synced, unless one failed.
    ensures asks { IfSome (ask_files (map string_bytes words.now)) (λ files.
        Asks F.source_gives F.sink_gives F.take_back_gives F.give_back_gives F.tells F.output
        (Rose (F.source_faults shelf.old) (F.source_faults shelf.new)) (Rose (F.sink_faults shelf.old) (F.sink_faults shelf.new))
        (D.tells disks.first) (D.tells disks.second) (D.tells result.1.first) (D.tells result.1.second) result.0
        (F.input shelf.old files.input) files shelf.old shelf.new) }

    // The database is opened, or why not; and then a checkpoint of it is written, or a disk failed, or memory ran out,
    // which leaves it as it was. At every moment a crash leaves what stands for the database as it was opened.
    ensures compacts { is_compact (map string_bytes words.now) ≡ true →
        OpensNoDatabase (D.tells disks.first) (D.tells disks.second) (D.tells result.1.first) (D.tells result.1.second) result.0 shelf.old shelf.new
        ⊎ OpensDatabase (D.tells disks.first) (D.tells disks.second)
        (EndsCompact (D.tells disks.first) (D.tells disks.second) (D.tells result.1.first) (D.tells result.1.second) result.0) }
    ensures compact_moments { is_compact (map string_bytes words.now) ≡ true →
        MovesToCompact (D.tells disks.first) (D.tells disks.second) (D.tells result.1.first) (D.tells result.1.second) }

    // Why it stopped.
    ensures usage { (result.0 ≡ Status.Usage) ↔ (IsNone (script_files (map string_bytes words.now)) × IsNone (check_files (map string_bytes words.now)) × IsNone (ask_files (map string_bytes words.now))
        × IsNone (make_words (map string_bytes words.now))
        × (is_init (map string_bytes words.now) ≡ false) × (is_compact (map string_bytes words.now) ≡ false) × IsNone (run_words (map string_bytes words.now))) }
    ensures nothing_opened { (result.0 ≡ Status.Usage) ⊎ ((is_init (map string_bytes words.now) ≡ true) ⊎ (is_compact (map string_bytes words.now) ≡ true)) → shelf.new ≡ shelf.old }
    ensures read_fault { result.0 ≡ Status.ReadFault → Rose (F.source_faults shelf.old) (F.source_faults shelf.new) }
    ensures write_fault { result.0 ≡ Status.WriteFault → Rose (F.sink_faults shelf.old) (F.sink_faults shelf.new) }
    ensures disk_fault { result.0 ≡ Status.DiskFault → RoseEither (D.faults disks.first) (D.faults result.1.first) (D.faults disks.second) (D.faults result.1.second) }
    ensures too_long { result.0 ≡ Status.InputTooLong → IfSome (script_files (map string_bytes words.now)) (λ files.
        IfSome (F.input shelf.old files.input) (λ bytes. longest_input < length bytes)) }
    ensures not_too_long { IsTrue (is_whole result.0) → IfSome (script_files (map string_bytes words.now)) (λ files.
        IfSome (F.input shelf.old files.input) (λ bytes. length bytes ≤ longest_input)) }

    // What stays. A database that is damaged, or none, is only synced.
    ensures only_synced { IsUnsound result.0 → OnlySynced (D.tells disks.first) (D.tells result.1.first) × OnlySynced (D.tells disks.second) (D.tells result.1.second) }
    ensures untouched { (result.0 ≡ Status.Usage) ⊎ IsSome (make_words (map string_bytes words.now)) → result.1 ≡ disks }
    ensures inputs { SameBytes (F.input shelf.old) (F.input shelf.new) }
    ensures handed_back { OpensNone (F.is_open shelf.old) (F.is_open shelf.new) }
    ensures source_faults { F.source_faults shelf.old ≤ F.source_faults shelf.new }
    ensures sink_faults { F.sink_faults shelf.old ≤ F.sink_faults shelf.new }
    ensures first_faults { D.faults disks.first ≤ D.faults result.1.first }
    ensures second_faults { D.faults disks.second ≤ D.faults result.1.second }
{
    if let Some(files) = script_files(words) {
        return script_on(alloc, files, shelf, disks);
    }
    if let Some(files) = check_files(words) {
        return check_on(alloc, files, shelf, disks);
    }
    if let Some(files) = ask_files(words) {
        return ask_on(alloc, files, shelf, disks);
    }
    if let Some(asked) = run_words(words) {
        return run_on(rt, alloc, asked, shelf, disks, gate);
    }
    if is_init(words) {
        return init(alloc, disks);
    }
    if is_compact(words) {
        return compact_on(alloc, disks);
    }
    let status = match make_words(words) {
        Some(asked) => make_into(alloc, asked.users, asked.output, shelf),
        None => Status::Usage,
    };
    (status, disks)
}

/// Whether the words are of a form that works on the disks, so that a program opens them to write. Where they are
/// neither of such a form nor of one that looks at the disks (`looks_at_disks`), `racf` leaves the disks as they are,
/// and a program need not open them.
pub fn works_on_disks(words: &[String]) -> bool
    ensures { result ≡ is_some (script_files (map string_bytes words.now)) || is_init (map string_bytes words.now) || is_compact (map string_bytes words.now)
        || is_some (run_words (map string_bytes words.now)) }
{
    script_files(words).is_some()
        || is_init(words)
        || is_compact(words)
        || run_words(words).is_some()
}

/// Whether the words are of a form that only looks at the database: it syncs the disks and reads them, and makes no
/// other call of them, so that a program may open them for reading alone.
pub fn looks_at_disks(words: &[String]) -> bool
    ensures { result ≡ is_some (check_files (map string_bytes words.now)) || is_some (ask_files (map string_bytes words.now)) }
{
    check_files(words).is_some() || ask_files(words).is_some()
}

/// Makes a new database on the disks.
fn init<D: Disk>(alloc: Global, disks: Two<D>) -> (Status, Two<D>)
    ensures ends { (result.0 ≡ Status.Done) ⊎ ((result.0 ≡ Status.DiskFault) ⊎ (result.0 ≡ Status.NoMemory)) }
    ensures new { result.0 ≡ Status.Done → LeavesBoth (D.tells result.1.first) (D.tells result.1.second) (StandsFor first_position) }
    ensures memory { result.0 ≡ Status.NoMemory → (result.1.first ≡ disks.first) × (result.1.second ≡ disks.second) }
    ensures no_older { result.0 ≢ Status.Done → LeavesNoOlder (D.tells disks.first) (D.tells disks.second) (D.tells result.1.first) (D.tells result.1.second) }
    ensures moments { StaysFormatting (D.tells disks.first) (D.tells result.1.first) × StaysBaring (D.tells disks.second) (D.tells result.1.second) }
    ensures disk_fault { result.0 ≡ Status.DiskFault → RoseEither (D.faults disks.first) (D.faults result.1.first) (D.faults disks.second) (D.faults result.1.second) }
    ensures first_faults { D.faults disks.first ≤ D.faults result.1.first }
    ensures second_faults { D.faults disks.second ≤ D.faults result.1.second }
{
    match Desk::format(alloc, disks) {
        Ok(desk) => (Status::Done, desk.into_disks()),
        Err((disks, why)) => (opening_status(why), disks),
    }
}

/// Opens the database on the disks, and works a stream from an input of a shelf to an output.
fn script_on<F: Shelf, D: Disk>(
    alloc: Global,
    files: Files<'_>,
    shelf: &mut F,
    disks: Two<D>,
) -> (Status, Two<D>)
    ensures runs { OpensNoDatabase (D.tells disks.first) (D.tells disks.second) (D.tells result.1.first) (D.tells result.1.second) result.0 shelf.old shelf.new
        ⊎ OpensDatabase (D.tells disks.first) (D.tells disks.second) (λ base.
        (opened : OpenedDisks) × OpensOn (D.tells disks.first) (D.tells disks.second) opened
        × RunsOnShelf F.source_gives F.sink_gives F.take_back_gives F.give_back_gives F.tells F.output
        (Rose (F.source_faults shelf.old) (F.source_faults shelf.new)) (Rose (F.sink_faults shelf.old) (F.sink_faults shelf.new))
        (EndsOn files.entry.issuing base (F.input shelf.old files.entry.input.now) opened (D.tells result.1.first) (D.tells result.1.second)
        (RoseEither (D.faults disks.first) (D.faults result.1.first) (D.faults disks.second) (D.faults result.1.second))) base
        result.0 (F.input shelf.old files.entry.input.now) (record { issuing = files.entry.issuing; input = files.entry.input.now; output = files.entry.output.now }) shelf.old shelf.new) }
    ensures whole { IsTrue (is_whole result.0) → OpensDatabase (D.tells disks.first) (D.tells disks.second) (λ base.
        IsWholeOutput files.entry.issuing base F.tells result.0 (F.input shelf.old files.entry.input.now) (F.output shelf.new files.entry.output.now)) }
    ensures usage { result.0 ≢ Status.Usage }
    ensures only_synced { IsUnsound result.0 → OnlySynced (D.tells disks.first) (D.tells result.1.first) × OnlySynced (D.tells disks.second) (D.tells result.1.second) }
    ensures read_fault { result.0 ≡ Status.ReadFault → Rose (F.source_faults shelf.old) (F.source_faults shelf.new) }
    ensures write_fault { result.0 ≡ Status.WriteFault → Rose (F.sink_faults shelf.old) (F.sink_faults shelf.new) }
    ensures disk_fault { result.0 ≡ Status.DiskFault → RoseEither (D.faults disks.first) (D.faults result.1.first) (D.faults disks.second) (D.faults result.1.second) }
    ensures too_long { result.0 ≡ Status.InputTooLong → IfSome (F.input shelf.old files.entry.input.now) (λ bytes. longest_input < length bytes) }
    ensures not_too_long { IsTrue (is_whole result.0) → IfSome (F.input shelf.old files.entry.input.now) (λ bytes. length bytes ≤ longest_input) }
    ensures inputs { SameBytes (F.input shelf.old) (F.input shelf.new) }
    ensures handed_back { OpensNone (F.is_open shelf.old) (F.is_open shelf.new) }
    ensures source_faults { F.source_faults shelf.old ≤ F.source_faults shelf.new }
    ensures sink_faults { F.sink_faults shelf.old ≤ F.sink_faults shelf.new }
    ensures first_faults { D.faults disks.first ≤ D.faults result.1.first }
    ensures second_faults { D.faults disks.second ≤ D.faults result.1.second }
{
    let Files {
        issuing,
        input,
        output,
    } = files;
    match Desk::open(alloc, disks) {
        Ok(desk) => {
            let (status, desk) = script_between(alloc, issuing, input, output, shelf, desk);
            (status, desk.into_disks())
        }
        Err((disks, why)) => (opening_status(why), disks),
    }
}

/// The status where a database couldn't be made or opened.
pub(crate) fn opening_status(why: StoreFault) -> Status
    ensures { result ≡ opening_status why }
{
    match why {
        StoreFault::DiskFault => Status::DiskFault,
        StoreFault::NotFormatted => Status::NotFormatted,
        StoreFault::Damaged(place) => Status::Damaged(place),
        StoreFault::Full | StoreFault::NoMemory => Status::NoMemory,
    }
}

/// Writes the generated text to an output of a shelf.
fn make_into<F: Shelf>(alloc: Global, users: u32, output: &str, shelf: &mut F) -> Status
    requires few { users ≤ most_users }
    ensures makes { MakesOnShelf F.sink_gives F.give_back_gives F.tells F.output result (record { users = users; output = output.now }) shelf.old shelf.new }
    ensures ends { (result ≡ Status.Done) ⊎ ((result ≡ Status.WriteFault) ⊎ (result ≡ Status.NoMemory)) }
    ensures write_fault { result ≡ Status.WriteFault → Rose (F.sink_faults shelf.old) (F.sink_faults shelf.new) }
    ensures inputs { SameBytes (F.input shelf.old) (F.input shelf.new) }
    ensures handed_back { OpensNone (F.is_open shelf.old) (F.is_open shelf.new) }
    ensures source_faults { F.source_faults shelf.old ≤ F.source_faults shelf.new }
    ensures sink_faults { F.sink_faults shelf.old ≤ F.sink_faults shelf.new }
{
    let mut sink = match shelf.sink(output) {
        Ok(sink) => sink,
        Err(Failed) => return Status::WriteFault,
    };
    let status = make(alloc, users, &mut sink);
    shelf.give_back(output, sink);
    status
}

/// Works a stream from an input of a shelf to an output, at a desk that was opened.
pub(crate) fn script_between<F: Shelf, D: Disk>(
    alloc: Global,
    issuing: Issuing,
    input: &str,
    output: &str,
    shelf: &mut F,
    desk: Desk<D>,
) -> (Status, Desk<D>)
    requires running { desk.halted ≡ false }
    requires settled { desk.committed ≡ false }
    ensures runs { RunsOnShelf F.source_gives F.sink_gives F.take_back_gives F.give_back_gives F.tells F.output
        (Rose (F.source_faults shelf.old) (F.source_faults shelf.new)) (Rose (F.sink_faults shelf.old) (F.sink_faults shelf.new))
        (EndsAt D.tells issuing desk.position (F.input shelf.old input.now) desk.store result.1) desk.position
        result.0 (F.input shelf.old input.now) (record { issuing = issuing; input = input.now; output = output.now }) shelf.old shelf.new }
    ensures whole { IsTrue (is_whole result.0) → IsWholeOutput issuing desk.position F.tells result.0 (F.input shelf.old input.now) (F.output shelf.new output.now) }
    ensures idle { SameIdle desk.store result.1.store }
    ensures no_other { (result.0 ≢ Status.Usage) × (result.0 ≢ Status.NotFormatted) }
    ensures undamaged { (place : ℕ) → result.0 ≢ Status.Damaged place }
    ensures read_fault { result.0 ≡ Status.ReadFault → Rose (F.source_faults shelf.old) (F.source_faults shelf.new) }
    ensures write_fault { result.0 ≡ Status.WriteFault → Rose (F.sink_faults shelf.old) (F.sink_faults shelf.new) }
    ensures disk_fault { result.0 ≡ Status.DiskFault → Rose (D.faults desk.store.journal.disk) (D.faults result.1.store.journal.disk) }
    ensures halted { result.1.halted ≡ true → Rose (D.faults desk.store.journal.disk) (D.faults result.1.store.journal.disk) }
    ensures too_long { result.0 ≡ Status.InputTooLong → IfSome (F.input shelf.old input.now) (λ bytes. longest_input < length bytes) }
    ensures not_too_long { IsTrue (is_whole result.0) → IfSome (F.input shelf.old input.now) (λ bytes. length bytes ≤ longest_input) }
    ensures inputs { SameBytes (F.input shelf.old) (F.input shelf.new) }
    ensures handed_back { OpensNone (F.is_open shelf.old) (F.is_open shelf.new) }
    ensures source_faults { F.source_faults shelf.old ≤ F.source_faults shelf.new }
    ensures sink_faults { F.sink_faults shelf.old ≤ F.sink_faults shelf.new }
    ensures disk_faults { D.faults desk.store.journal.disk ≤ D.faults result.1.store.journal.disk }
{
    desk.is_at_rest();
    let source = match shelf.source(input) {
        Ok(source) => source,
        Err(Failed) => return (Status::ReadFault, desk),
    };
    let mut sink = match shelf.sink(output) {
        Ok(sink) => sink,
        Err(Failed) => {
            shelf.take_back(input, source);
            return (Status::WriteFault, desk);
        }
    };
    let (status, source, desk) = script(alloc, source, &mut sink, desk, issuing);
    shelf.take_back(input, source);
    shelf.give_back(output, sink);
    (status, desk)
}

/// Whether the words are `init`.
fn is_init(words: &[String]) -> bool
    ensures { result ≡ is_init (map string_bytes words.now) }
{
    let [verb] = words else {
        return false;
    };
    verb.as_str() == "init"
}

/// The files that the words name, and who gives the commands, where they are `script IN OUT` or `script --issuer ID IN
/// OUT`, and IN and OUT differ or are both `-`.
fn script_files(words: &[String]) -> Option<Files<'_>>
    ensures { option_map (λ files. record { issuing = files.issuing; input = files.input.now; output = files.output.now }) result ≡ script_files (map string_bytes words.now) }
{
    stream_files("script", words)
}

/// The same of `check`.
fn check_files(words: &[String]) -> Option<Files<'_>>
    ensures { option_map (λ files. record { issuing = files.issuing; input = files.input.now; output = files.output.now }) result ≡ check_files (map string_bytes words.now) }
{
    stream_files("check", words)
}

/// The files that the words name behind a verb, and who gives the commands.
fn stream_files<'a>(verb: &str, words: &'a [String]) -> Option<Files<'a>>
    ensures { option_map (λ files. record { issuing = files.issuing; input = files.input.now; output = files.output.now }) result ≡ stream_files verb.now (map string_bytes words.now) }
{
    if let [first, input, output] = words {
        if first.as_str() != verb {
            return None;
        }
        return files_of(Issuing::Free, input.as_str(), output.as_str());
    }
    let [first, word, id, input, output] = words else {
        return None;
    };
    if first.as_str() != verb || !is_issuer_word(word.as_str()) {
        return None;
    }
    let issuing = fixed_issuer(id.as_str())?;
    files_of(issuing, input.as_str(), output.as_str())
}

/// The files of these names, where they differ or are both `-`.
fn files_of<'a>(issuing: Issuing, input: &'a str, output: &'a str) -> Option<Files<'a>>
    ensures { option_map (λ files. record { issuing = files.issuing; input = files.input.now; output = files.output.now }) result ≡ files_of issuing input.now output.now }
{
    if input != output || input == "-" {
        Some(Files {
            issuing,
            input,
            output,
        })
    } else {
        None
    }
}

/// The number of users and the output that the words name, where they are `make N OUT`.
fn make_words(words: &[String]) -> Option<MakeWords<'_>>
    ensures words { option_map (λ asked. record { users = asked.users; output = asked.output.now }) result ≡ make_words (map string_bytes words.now) }
    ensures few { IfSome result (λ asked. asked.users ≤ most_users) }
{
    let [verb, number, output] = words else {
        return None;
    };
    if verb.as_str() != "make" {
        return None;
    }
    let users = number_word(number.as_bytes())?;
    if users < 1 || users > MOST_USERS {
        return None;
    }
    Some(MakeWords {
        users: users as u32,
        output: output.as_str(),
    })
}
