//! Taking all memory that a command needs, and what it makes of the rows.
ghost use Rattle.std.specs.Prelude.{◌≡◌, not, None, Some, IfOk, IsTrue, IsFalse, OnErr};
ghost use Rattle.std.specs.List.{list_all};
ghost use Rattle.racf_profiles.specs.declared.edits.Edit.{Edit};
ghost use Rattle.racf_profiles.specs.Edits.{changed};
ghost use Rattle.racf_profiles.specs.State.{is_of_copies};
ghost use Rattle.racf_profiles.specs.Lawful.{AreLawful, LeaveLawfulClasses};
ghost use Rattle.command_rules.specs.Effects.{step};
ghost use Rattle.command_rules.specs.Edits.{edits_of, edits_copies};
ghost use Rattle.command_rules.specs.Conflicts.{conflict_of};

use crate::database::Database;
use class_profiles::laws::puts_are_counted;
use command_effects::edits_of;
use command_parser::laws::fields_of_a_text_are_lawful;
use command_parser::{Command, Issuer, printed_is_read};
use command_rules::laws::commands_edit_rows_alone;
use generic_names::laws::{order_is_total, text_reads_back};
use lawful_commands::commands_leave_lawful_rows;
use racf_profiles::{Change, Edits, NoMemory};
use std::alloc::Global;
use std::snapshot::Snapshot;

impl Database {
    /// The change that the command makes. It stays prepared until another is, or until it is applied. What is prepared
    /// is known to contracts alone: no row is kept for it.
    ///
    /// # Errors
    ///
    /// Want of memory alone: nothing is prepared then, and the rows are as they were.
    pub fn prepare(
        &mut self,
        alloc: Global,
        issuer: &Issuer,
        command: &Command,
    ) -> Result<Change, NoMemory>
        requires { conflict_of issuer.now command.now self.old.rows ≡ None }
        ensures edits { IfOk result (λ change. change.edits ≡ edits_of issuer.now command.now self.old.rows) }
        ensures step { IfOk result (λ change. changed change.edits self.old.rows ≡ step issuer.now command.now self.old.rows) }
        ensures lawful { IfOk result (λ change. AreLawful (changed change.edits self.old.rows)) }
        ensures classes { IfOk result (λ change. LeaveLawfulClasses change.edits self.old.rows) }
        ensures listed { IfOk result (λ change. IsFalse (edits_copies command.now) → IsTrue (list_all (λ (edit : Edit). not (is_of_copies edit)) change.edits)) }
        ensures prepared { IfOk result (λ change. self.new.prepared ≡ Some change) }
        ensures rows { self.new.rows ≡ self.old.rows }
        ensures refused { OnErr result (self.new.prepared ≡ None) }
    {
        self.prepared = None;
        // The command's canonical text spells its fields, so that they are lawful, and leave lawful rows.
        printed_is_read(command);
        fields_of_a_text_are_lawful();
        commands_leave_lawful_rows();
        // What the edits leave as it is.
        commands_edit_rows_alone();
        // The order of names, how they are read, and how the profiles of a class are counted.
        order_is_total();
        text_reads_back();
        puts_are_counted();
        let edits = edits_of(alloc, &self.tables, issuer, command.fields())?;
        self.tables.reserve(edits.as_slice())?;
        let change = Change {
            edits: Edits { items: edits },
        };
        self.prepared = Some(Snapshot::of(&change));
        Ok(change)
    }
}
