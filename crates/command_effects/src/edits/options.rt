//! The edits of SETROPTS: the options, the flags of classes, and the listed copies of classes.
ghost use Rattle.std.specs.Prelude.{◌≡◌, ◌++◌, ◌∷◌, [], ◌&&◌, ◌||◌, map, if◌then◌else◌, IfOk};
ghost use Rattle.std.specs.List.{filter, list_any};
ghost use Rattle.racf_profiles.specs.declared.class_rows.ClassRow.{ClassRow};
ghost use Rattle.racf_profiles.specs.declared.edits.Edit.TheVariants.{PutOptions, List as ListCopy, Unlist};
ghost use Rattle.class_profiles.specs.Summed.{rows_in};
ghost use Rattle.command_fields.specs.declared.log_clauses.LogClause.{LogClause};
ghost use Rattle.command_rules.specs.OptionEffects.{names_class, log_after, set_class, set_options};
ghost use Rattle.command_rules.specs.Edits.{sets_options, sets_flags, lists, unlists, put_flags, edits_of_set_ropts};

use super::one;
use class_profiles::ClassTable;
use command_fields::{Ids, LogClause, SetRopts};
use command_rules::switched;
use racf_profiles::{Edit, LogOption, NoMemory, Options};
use row_tables::RowTables;
use std::alloc::Global;

/// The edits of SETROPTS.
pub(super) fn edits_of_set_ropts(
    alloc: Global,
    tables: &RowTables,
    command: &SetRopts,
) -> Result<Vec<Edit>, NoMemory>
    ensures { IfOk result (λ edits. edits.items ≡ edits_of_set_ropts command.now tables.now.rows) }
{
    let classes = tables.classes().as_slice();
    let options = options_set(alloc, command, tables.options())?;
    let flags = with_flags(command, classes, options)?;
    let listed = with_lists(command, classes, flags)?;
    with_unlists(command, classes, listed)
}

/// The edit of the options, where the command sets one.
fn options_set(alloc: Global, command: &SetRopts, options: &Options) -> Result<Vec<Edit>, NoMemory>
    ensures { IfOk result (λ edits. edits.items ≡ (if sets_options command.now then PutOptions (set_options command.now options.now) ∷ [] else [])) }
{
    if !sets_options(command) {
        return Ok(Vec::new(alloc));
    }
    one(
        alloc,
        Edit::PutOptions(set_options(alloc, command, options)?),
    )
}

/// Edits, and behind them those of the flags of the classes whose flags the command sets.
fn with_flags(
    command: &SetRopts,
    classes: &[ClassTable],
    edits: Vec<Edit>,
) -> Result<Vec<Edit>, NoMemory>
    ensures { IfOk result (λ all. all.items ≡ edits.items ++ map (λ (class : ClassRow). put_flags (set_class command.now class)) (filter (sets_flags command.now) (rows_in classes.now))) }
{
    let mut edits = edits;
    for class in classes {
        if sets_flags(command, class) {
            edits.push(flags_set(command, class))?;
        }
    }
    Ok(edits)
}

/// Edits, and behind them those that make listed copies.
fn with_lists(
    command: &SetRopts,
    classes: &[ClassTable],
    edits: Vec<Edit>,
) -> Result<Vec<Edit>, NoMemory>
    ensures { IfOk result (λ all. all.items ≡ edits.items ++ map (λ (class : ClassRow). ListCopy class.name) (filter (lists command.now) (rows_in classes.now))) }
{
    let mut edits = edits;
    for class in classes {
        if lists(command, class) {
            edits.push(Edit::List(class.name()))?;
        }
    }
    Ok(edits)
}

/// Edits, and behind them those that drop listed copies.
fn with_unlists(
    command: &SetRopts,
    classes: &[ClassTable],
    edits: Vec<Edit>,
) -> Result<Vec<Edit>, NoMemory>
    ensures { IfOk result (λ all. all.items ≡ edits.items ++ map (λ (class : ClassRow). Unlist class.name) (filter (unlists command.now) (rows_in classes.now))) }
{
    let mut edits = edits;
    for class in classes {
        if names_class(&command.noraclist, class) {
            edits.push(Edit::Unlist(class.name()))?;
        }
    }
    Ok(edits)
}

/// Whether the command sets one of the options.
fn sets_options(command: &SetRopts) -> bool
    ensures { result ≡ sets_options command.now }
{
    command.grplist
        || command.nogrplist
        || command.protectall
        || command.noprotectall
        || command.mls
        || command.nomls
}

/// The options as the command sets them.
fn set_options(alloc: Global, command: &SetRopts, old: &Options) -> Result<Options, NoMemory>
    ensures { IfOk result (λ options. options ≡ set_options command.now old.now) }
{
    Ok(Options {
        grplist: switched(command.grplist, command.nogrplist, old.grplist),
        protectall: switched(command.protectall, command.noprotectall, old.protectall),
        mls: switched(command.mls, command.nomls, old.mls),
        categories: old.categories.copy(alloc)?,
    })
}

/// Whether a list names the class.
fn names_class(names: &Ids, class: &ClassTable) -> bool
    ensures { result ≡ names_class names.now class.now.row }
{
    let class = class.name();
    names.items.iter().any(|name| *name == class)
}

/// Whether the command sets a flag of the class, or its log option.
fn sets_flags(command: &SetRopts, class: &ClassTable) -> bool
    ensures { result ≡ sets_flags command.now class.now.row }
{
    names_class(&command.classact, class)
        || names_class(&command.noclassact, class)
        || names_class(&command.global, class)
        || names_class(&command.noglobal, class)
        || is_under_one(command.logoptions.items.as_slice(), class)
}

/// Whether one of the words of LOGOPTIONS names the class.
fn is_under_one(clauses: &[LogClause], class: &ClassTable) -> bool
    ensures { result ≡ list_any (λ (clause : LogClause). names_class clause.classes class.now.row) clauses.now }
{
    clauses
        .iter()
        .any(|clause| names_class(&clause.classes, class))
}

/// The edit of a class's flags and log option, as the command sets them.
fn flags_set(command: &SetRopts, class: &ClassTable) -> Edit
    ensures { result ≡ put_flags (set_class command.now class.now.row) }
{
    let active = switched(
        names_class(&command.classact, class),
        names_class(&command.noclassact, class),
        class.is_active(),
    );
    let global = switched(
        names_class(&command.global, class) && !command.refresh,
        names_class(&command.noglobal, class),
        class.is_global(),
    );
    let log = log_after(command.logoptions.items.as_slice(), class);
    Edit::PutClass(class.name(), active, global, log)
}

/// The log option of a class, after those words of LOGOPTIONS that name it.
fn log_after(clauses: &[LogClause], class: &ClassTable) -> LogOption
    ensures { result ≡ log_after clauses.now class.now.row class.now.row.log }
{
    let mut log = class.log();
    for clause in clauses {
        if names_class(&clause.classes, class) {
            log = clause.option;
        }
    }
    log
}

/// Whether a listed copy of the class is made: of one that isn't listed, and with REFRESH anew.
fn lists(command: &SetRopts, class: &ClassTable) -> bool
    ensures { result ≡ lists command.now class.now.row }
{
    names_class(&command.raclist, class) && (command.refresh || !class.is_listed())
}
