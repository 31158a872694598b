//! Making what is installed of a command that is accepted: all memory is taken here.
ghost use Rattle.std.specs.Prelude.{◌≡◌, Some, None, IfOk};
ghost use Rattle.std.specs.Arc.{arc_value};
ghost use Rattle.racf_profiles.specs.Edits.{changed};
ghost use Rattle.journal_records.specs.Spelling.{spelled};
ghost use Rattle.desk_rules.specs.Outcome.{rules_of, number_spent};
ghost use Rattle.desk_rules.specs.Images.{IsImageOf};
ghost use Rattle.desk_rules.specs.Made.{made_at, made_in, IsRecorded};

use access_levels::Text;
use desk_rules::Ready;
use journal_records::laws::{lengths_are_those_of_the_texts, written_is_read};
use journal_records::{CommandRecord, write};
use racf_database::Database;
use racf_profiles::NoMemory;
use racf_profiles::laws::rows_are_changed;
use raclist_image::Image;
use std::alloc::{AllocError, Global};
use std::sync::Arc;

/// What is made of a command that is accepted, over the rows and their image. The database has its edits prepared then.
pub(crate) fn make(
    alloc: Global,
    database: &mut Database,
    image: &Arc<Image>,
    given: CommandRecord,
) -> Result<Ready, NoMemory>
    requires image { IsImageOf database.old.rows (arc_value image.now) }
    requires rules { rules_of database.old.rows given ≡ None }
    requires numbered { number_spent (arc_value image.now).generation ≡ None }
    ensures made { IfOk result (λ ready. made_in ready ≡ made_at (arc_value image.now) given) }
    ensures behind { IfOk result (λ ready. IsImageOf (changed ready.change.edits database.old.rows) (arc_value ready.image)) }
    ensures prepared { IfOk result (λ ready. database.new.prepared ≡ Some ready.change) }
    ensures rows { database.new.rows ≡ database.old.rows }
{
    // The rows of the state behind the edits are those behind them.
    rows_are_changed();
    let number = image.generation() + 1;
    let Ok(entry) = entry_of(alloc, &given) else {
        drop(given);
        return Err(AllocError);
    };
    let Ok(change) = database.prepare(alloc, &given.issuer, &given.command) else {
        drop(given);
        return Err(AllocError);
    };
    let Ok(image) = image.after(alloc, &change, number) else {
        drop(given);
        return Err(AllocError);
    };
    let CommandRecord { issuer, command } = given;
    Ok(Ready {
        number,
        issuer,
        text: Text::of_bytes(command.into_text()),
        entry,
        change,
        image,
    })
}

/// The bytes of the record.
fn entry_of(alloc: Global, given: &CommandRecord) -> Result<Text, NoMemory>
    ensures { IfOk result (λ entry. entry ≡ spelled given.now) }
{
    let mut entry = Vec::new(alloc);
    write(given, &mut entry)?;
    Ok(Text::of_bytes(entry))
}

/// The record of every command can be kept. It does nothing: its contract is what it is for.
pub(crate) fn is_recorded(given: &CommandRecord)
    ensures { IsRecorded given.now }
{
    written_is_read(given);
    lengths_are_those_of_the_texts();
}
