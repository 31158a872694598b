//! The words `ask IN OUT`: questions are answered at the database on the disks, and nothing can change.

ghost use Rattle.std.specs.Prelude.{ℕ, ◌≡◌, ◌≢◌, ◌≤◌, ◌<◌, map, string_bytes, IfSome, IsTrue, length};
ghost use Rattle.std.specs.Option.{option_map};
ghost use Rattle.racf_outside.specs.Causes.{Rose};
ghost use Rattle.racf_outside.specs.Shelf.{SameBytes};
ghost use Rattle.racf_journal.specs.Opening.{OnlySynced};
ghost use Rattle.desk_rules.specs.Position.{Position};
ghost use Rattle.statements.specs.Runs.{longest_input};
ghost use Rattle.statements.specs.Status.{is_whole};
ghost use Rattle.racf_run.specs.Asking.{ask_files, asked_files, Asks, AsksOnShelf, IsWholeAnswer};
ghost use Rattle.racf_run.specs.Racf.{IsUnsound, OpensNone, RoseEither};

use crate::top::opening_status;
use racf_ask::ask;
use racf_desk::Desk;
use racf_outside::{Disk, Failed, Shelf, Two};
use raclist_image::Image;
use statements::Status;
use std::alloc::Global;

/// What the words of `ask` name.
#[derive(Clone, Copy)]
pub(crate) struct AskFiles<'a> {
    /// Whether the lines that are printed have the number of the input's line in front.
    numbered: bool,
    /// IN.
    input: &'a str,
    /// OUT.
    output: &'a str,
}

/// The files that the words name, where they are `ask IN OUT` or `ask -n IN OUT`, IN isn't `-n`, and IN and OUT differ
/// or are both `-`.
pub(crate) fn ask_files(words: &[String]) -> Option<AskFiles<'_>>
    ensures { option_map (λ files. record { numbered = files.numbered; input = files.input.now; output = files.output.now }) result ≡ ask_files (map string_bytes words.now) }
{
    if let [verb, input, output] = words {
        if verb.as_str() != "ask" {
            return None;
        }
        return asked_files(false, input.as_str(), output.as_str());
    }
    let [verb, word, input, output] = words else {
        return None;
    };
    if verb.as_str() != "ask" || word.as_str() != "-n" {
        return None;
    }
    asked_files(true, input.as_str(), output.as_str())
}

/// The files of these names, where IN isn't `-n`, and they differ or are both `-`.
fn asked_files<'a>(numbered: bool, input: &'a str, output: &'a str) -> Option<AskFiles<'a>>
    ensures { option_map (λ files. record { numbered = files.numbered; input = files.input.now; output = files.output.now }) result ≡ asked_files numbered input.now output.now }
{
    if input == "-n" {
        return None;
    }
    if input != output || input == "-" {
        Some(AskFiles {
            numbered,
            input,
            output,
        })
    } else {
        None
    }
}

/// Looks at the database on the disks, and answers questions from an input of a shelf to an output.
pub(crate) fn ask_on<F: Shelf, D: Disk>(
    alloc: Global,
    files: AskFiles<'_>,
    shelf: &mut F,
    disks: Two<D>,
) -> (Status, Two<D>)
    ensures asks { Asks F.source_gives F.sink_gives F.take_back_gives F.give_back_gives F.tells F.output
        (Rose (F.source_faults shelf.old) (F.source_faults shelf.new)) (Rose (F.sink_faults shelf.old) (F.sink_faults shelf.new))
        (D.tells disks.first) (D.tells disks.second) (D.tells result.1.first) (D.tells result.1.second) result.0
        (F.input shelf.old files.entry.input.now) (record { numbered = files.entry.numbered; input = files.entry.input.now; output = files.entry.output.now }) shelf.old shelf.new }
    ensures usage { result.0 ≢ Status.Usage }
    ensures only_synced { IsUnsound result.0 → OnlySynced (D.tells disks.first) (D.tells result.1.first) × OnlySynced (D.tells disks.second) (D.tells result.1.second) }
    ensures read_fault { result.0 ≡ Status.ReadFault → Rose (F.source_faults shelf.old) (F.source_faults shelf.new) }
    ensures write_fault { result.0 ≡ Status.WriteFault → Rose (F.sink_faults shelf.old) (F.sink_faults shelf.new) }
    ensures disk_fault { result.0 ≡ Status.DiskFault → RoseEither (D.faults disks.first) (D.faults result.1.first) (D.faults disks.second) (D.faults result.1.second) }
    ensures inputs { SameBytes (F.input shelf.old) (F.input shelf.new) }
    ensures handed_back { OpensNone (F.is_open shelf.old) (F.is_open shelf.new) }
    ensures source_faults { F.source_faults shelf.old ≤ F.source_faults shelf.new }
    ensures sink_faults { F.sink_faults shelf.old ≤ F.sink_faults shelf.new }
    ensures first_faults { D.faults disks.first ≤ D.faults result.1.first }
    ensures second_faults { D.faults disks.second ≤ D.faults result.1.second }
{
    let AskFiles {
        numbered,
        input,
        output,
    } = files;
    let (disks, looked) = Desk::look(alloc, disks);
    match looked {
        Ok(desk) => {
            let status = ask_between(alloc, desk.image(), numbered, input, output, shelf);
            let _ = desk.into_disks();
            (status, disks)
        }
        Err(why) => (opening_status(why), disks),
    }
}

/// Answers questions from an input of a shelf to an output, on an image.
fn ask_between<F: Shelf>(
    alloc: Global,
    image: &Image,
    numbered: bool,
    input: &str,
    output: &str,
    shelf: &mut F,
) -> Status
    ensures runs { (base : Position) → base.image ≡ image.now → AsksOnShelf F.source_gives F.sink_gives F.take_back_gives F.give_back_gives F.tells F.output
        (Rose (F.source_faults shelf.old) (F.source_faults shelf.new)) (Rose (F.sink_faults shelf.old) (F.sink_faults shelf.new)) base
        result (F.input shelf.old input.now) (record { numbered = numbered; input = input.now; output = output.now }) shelf.old shelf.new }
    ensures whole { (base : Position) → base.image ≡ image.now → IsTrue (is_whole result) →
        IsWholeAnswer numbered base F.tells result (F.input shelf.old input.now) (F.output shelf.new output.now) }
    ensures no_other { (result ≢ Status.Usage) × (result ≢ Status.NotFormatted) × (result ≢ Status.DiskFault) }
    ensures undamaged { (place : ℕ) → result ≢ Status.Damaged place }
    ensures read_fault { result ≡ Status.ReadFault → Rose (F.source_faults shelf.old) (F.source_faults shelf.new) }
    ensures write_fault { result ≡ Status.WriteFault → Rose (F.sink_faults shelf.old) (F.sink_faults shelf.new) }
    ensures too_long { result ≡ Status.InputTooLong → IfSome (F.input shelf.old input.now) (λ bytes. longest_input < length bytes) }
    ensures not_too_long { IsTrue (is_whole result) → IfSome (F.input shelf.old input.now) (λ bytes. length bytes ≤ longest_input) }
    ensures inputs { SameBytes (F.input shelf.old) (F.input shelf.new) }
    ensures handed_back { OpensNone (F.is_open shelf.old) (F.is_open shelf.new) }
    ensures source_faults { F.source_faults shelf.old ≤ F.source_faults shelf.new }
    ensures sink_faults { F.sink_faults shelf.old ≤ F.sink_faults shelf.new }
{
    let source = match shelf.source(input) {
        Ok(source) => source,
        Err(Failed) => return Status::ReadFault,
    };
    let mut sink = match shelf.sink(output) {
        Ok(sink) => sink,
        Err(Failed) => {
            shelf.take_back(input, source);
            return Status::WriteFault;
        }
    };
    let (status, source) = ask(alloc, image, numbered, source, &mut sink);
    shelf.take_back(input, source);
    shelf.give_back(output, sink);
    status
}
