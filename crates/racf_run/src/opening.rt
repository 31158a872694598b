//! Files of a shelf: opened in the order of their names, each input before its output, and handed back.

ghost use Rattle.std.specs.Prelude.{ℕ, true, ◌≡◌, ◌≤◌, ◌+◌, ◌++◌, ◌∷◌, [], List, map, length, IfOk, OnOk, IfErr, OnErr, string_bytes, vec_len, vec_capacity, take};
ghost use Rattle.racf_outside.specs.Causes.{Rose};
ghost use Rattle.racf_outside.specs.Shelf.{SameBytes, SameOthers, SameOpen, Opens, Closes};
ghost use Rattle.racf_run.specs.Opening.{output_name, Opened, Returned, OpensNeither, IsNew, AreOpen, HasOpened, HasStopped, HasReturned, HasUndone, are_distinct};

use racf_outside::{Failed, Shelf};
use std::alloc::{AllocError, Global};

/// What stands behind the name of an input in that of its output.
pub(crate) const OUTPUT: &str = ".out";

/// What couldn't be opened.
#[derive(Clone, Copy)]
pub(crate) enum Unopened {
    /// An input.
    Input,
    /// An output.
    Output,
}

/// The names of the outputs.
fn output_names(alloc: Global, names: &[String]) -> Result<Vec<String>, AllocError>
    ensures { IfOk result (λ made. map string_bytes made.items ≡ map output_name (map string_bytes names.now)) }
{
    let mut outputs = Vec::with_capacity(alloc, names.len())?;
    for name in names {
        outputs.push(output_of(alloc, name.as_str())?)?;
    }
    Ok(outputs)
}

/// The name of the output of this name.
fn output_of(alloc: Global, name: &str) -> Result<String, AllocError>
    ensures { IfOk result (λ made. string_bytes made ≡ output_name name.now) }
{
    let mut output = String::new(alloc);
    output.push_str(name)?;
    output.push_str(OUTPUT)?;
    Ok(output)
}

/// Opens the input of a name, and then its output.
fn open_file<F: Shelf>(shelf: &mut F, name: &str, output: &str) -> Result<(F::In, F::Out), Unopened>
    requires { output.now ≡ output_name name.now }
    ensures opened { IfOk result (λ file. Opened F.source_gives F.sink_gives F.take_back_gives F.give_back_gives (name.now ∷ []) (file ∷ []) shelf.old shelf.new) }
    ensures unopened { IfErr result (λ why. OpensNeither F.source_gives F.sink_gives F.take_back_gives F.give_back_gives why name.now shelf.old shelf.new) }
    ensures new { IfOk result (IsNew F.In.left F.In.faults F.Out.taken F.Out.faults F.tells (F.input shelf.old name.now)) }
    ensures inputs { SameBytes (F.input shelf.old) (F.input shelf.new) }
    ensures outputs { SameOthers (output_name name.now) (F.output shelf.old) (F.output shelf.new) }
    ensures open { OnOk result (Opens (output_name name.now) (F.is_open shelf.old) (F.is_open shelf.new)) }
    ensures not_open { OnErr result (SameOpen (F.is_open shelf.old) (F.is_open shelf.new)) }
    ensures source_faults { F.source_faults shelf.old ≤ F.source_faults shelf.new }
    ensures sink_faults { F.sink_faults shelf.old ≤ F.sink_faults shelf.new }
    ensures read_fault { IfErr result (λ why. why ≡ Unopened.Input → Rose (F.source_faults shelf.old) (F.source_faults shelf.new)) }
    ensures write_fault { IfErr result (λ why. why ≡ Unopened.Output → Rose (F.sink_faults shelf.old) (F.sink_faults shelf.new)) }
{
    let source = match shelf.source(name) {
        Ok(source) => source,
        Err(Failed) => return Err(Unopened::Input),
    };
    match shelf.sink(output) {
        Ok(sink) => Ok((source, sink)),
        Err(Failed) => {
            shelf.take_back(name, source);
            Err(Unopened::Output)
        }
    }
}

/// The names of the outputs, and room for so many files.
pub(crate) fn room_for<I, K>(
    alloc: Global,
    names: &[String],
) -> Result<(Vec<String>, Vec<(I, K)>), AllocError>
    ensures outputs { IfOk result (λ room. map string_bytes room.0.items ≡ map output_name (map string_bytes names.now)) }
    ensures none { IfOk result (λ room. vec_len room.1 ≡ 0) }
    ensures room { IfOk result (λ room. length names.now ≤ vec_capacity room.1) }
{
    let outputs = output_names(alloc, names)?;
    let files = Vec::with_capacity(alloc, names.len())?;
    Ok((outputs, files))
}

/// Opens the files of these names. Where one can't be opened, those that were are handed back.
pub(crate) fn open_all<F: Shelf>(
    shelf: &mut F,
    names: &[String],
    outputs: &[String],
    mut files: Vec<(F::In, F::Out)>,
) -> Result<Vec<(F::In, F::Out)>, Unopened>
where
    F::In: Drop,
    F::Out: Drop,
    requires outputs { map string_bytes outputs.now ≡ map output_name (map string_bytes names.now) }
    requires none { vec_len files ≡ 0 }
    requires room { length names.now ≤ vec_capacity files }
    requires distinct { are_distinct (map string_bytes names.now) ≡ true }
    ensures opened { IfOk result (λ files. HasOpened F.source_gives F.sink_gives F.take_back_gives F.give_back_gives F.In.left F.In.faults F.Out.taken F.Out.faults
        F.tells F.input F.output F.is_open F.source_faults F.sink_faults (map string_bytes names.now) files.items shelf.old shelf.new) }
    ensures undone { IfErr result (λ why. HasUndone F.source_gives F.sink_gives F.take_back_gives F.give_back_gives F.In.left F.In.faults F.Out.taken F.Out.faults
        F.tells F.input F.output F.is_open F.source_faults F.sink_faults why (map string_bytes names.now) shelf.old shelf.new) }
{
    match open_files(shelf, names, outputs, &mut files) {
        Ok(()) => Ok(files),
        Err(why) => {
            return_files(shelf, names, outputs, files);
            Err(why)
        }
    }
}

/// Opens the files of these names: of each in turn the input, and then the output. Those that were opened stand in the
/// list, in their order.
fn open_files<F: Shelf>(
    shelf: &mut F,
    names: &[String],
    outputs: &[String],
    files: &mut Vec<(F::In, F::Out)>,
) -> Result<(), Unopened>
    requires outputs { map string_bytes outputs.now ≡ map output_name (map string_bytes names.now) }
    requires none { vec_len files.old ≡ 0 }
    requires room { length names.now ≤ vec_capacity files.old }
    ensures opened { OnOk result (HasOpened F.source_gives F.sink_gives F.take_back_gives F.give_back_gives F.In.left F.In.faults F.Out.taken F.Out.faults
        F.tells F.input F.output F.is_open F.source_faults F.sink_faults (map string_bytes names.now) files.new.items shelf.old shelf.new) }
    ensures stopped { IfErr result (λ why. HasStopped F.source_gives F.sink_gives F.take_back_gives F.give_back_gives F.In.left F.In.faults F.Out.taken F.Out.faults
        F.tells F.input F.output F.is_open F.source_faults F.sink_faults why (map string_bytes names.now) files.new.items shelf.old shelf.new) }
{
    for place in 0..names.len() {
        let (name, output) = (names[place].as_str(), outputs[place].as_str());
        files.push_reserved(open_file(shelf, name, output)?);
    }
    Ok(())
}

/// Hands files back under their names, the last first: of each the input, and then the output. There may be more names
/// than files.
pub(crate) fn return_files<F: Shelf>(
    shelf: &mut F,
    names: &[String],
    outputs: &[String],
    mut files: Vec<(F::In, F::Out)>,
)
where
    F::In: Drop,
    F::Out: Drop,
    requires outputs { map string_bytes outputs.now ≡ map output_name (map string_bytes names.now) }
    requires few { vec_len files ≤ length names.now }
    requires distinct { are_distinct (map string_bytes names.now) ≡ true }
    requires open { AreOpen (F.is_open shelf.old) (take (vec_len files) (map string_bytes names.now)) }
    ensures { HasReturned F.source_gives F.sink_gives F.take_back_gives F.give_back_gives F.In.left F.In.faults F.Out.taken F.Out.faults
        F.tells F.input F.output F.is_open F.source_faults F.sink_faults (take (vec_len files) (map string_bytes names.now)) files.items shelf.old shelf.new }
{
    while let Some((source, sink)) = files.pop() {
        let place = files.len();
        return_file(
            shelf,
            names[place].as_str(),
            outputs[place].as_str(),
            source,
            sink,
        );
    }
}

/// Hands one file back under its name.
fn return_file<F: Shelf>(shelf: &mut F, name: &str, output: &str, source: F::In, sink: F::Out)
    requires output { output.now ≡ output_name name.now }
    requires open { F.is_open shelf.old output.now ≡ true }
    ensures returned { HasReturned F.source_gives F.sink_gives F.take_back_gives F.give_back_gives F.In.left F.In.faults F.Out.taken F.Out.faults
        F.tells F.input F.output F.is_open F.source_faults F.sink_faults (name.now ∷ []) ((source, sink) ∷ []) shelf.old shelf.new }
    ensures closed { Closes (output_name name.now) (F.is_open shelf.old) (F.is_open shelf.new) }
{
    shelf.take_back(name, source);
    shelf.give_back(output, sink);
}
