//! The law that ties the commands to what holds of the rows of every database: a command that meets no conflict
//! leaves lawful rows (`racf_profiles` says what these are, `command_rules` which conflicts a command meets and what it
//! makes of the rows).
//!
//! The functions do nothing: their contracts are what is proved. `racf_database` rests on them, and whoever keeps
//! rows of his own can do the same:
//!
//! ```
//! // The rows are lawful, and no test of the command is met.
//! lawful_commands::commands_leave_lawful_rows();
//! // So the rows after the command are lawful too.
//! ```
#![tactic(auto)]

ghost use Rattle.std.specs.Prelude.{◌≡◌, None, Bool, true};
ghost use Rattle.racf_profiles.specs.declared.rows.Rows.{Rows};
ghost use Rattle.racf_profiles.specs.declared.fixed_classes.FixedClass.{FixedClass};
ghost use Rattle.racf_profiles.specs.declared.fixed_classes.FixedClass.TheVariants.{Dataset};
ghost use Rattle.racf_profiles.specs.NewDatabase.{new_rows};
ghost use Rattle.racf_profiles.specs.Lawful.{AreLawful};
ghost use Rattle.command_fields.specs.declared.issuer.Issuer.{Issuer};
ghost use Rattle.command_fields.specs.declared.fields.CommandFields.{CommandFields};
ghost use Rattle.command_fields.specs.LawfulFields.{AreLawfulFields};
ghost use Rattle.command_rules.specs.Effects.{step};
ghost use Rattle.command_rules.specs.Conflicts.{conflict_of};

use class_profiles::laws::puts_are_counted;
use generic_names::laws;

/// Where a command whose fields a text spells meets no conflict, lawful rows are lawful after it, whoever gives it.
pub fn commands_leave_lawful_rows()
    ensures { (issuer : Issuer) (command : CommandFields) (rows : Rows) → AreLawful rows → AreLawfulFields command → conflict_of issuer command rows ≡ None → AreLawful (step issuer command rows) }
{
    laws::order_is_total();
    laws::text_reads_back();
    puts_are_counted();
}

/// The rows of a new database are lawful, whichever classes are active in it beside DATASET.
pub fn new_rows_are_lawful()
    ensures { (is_active : FixedClass → Bool) → is_active Dataset ≡ true → AreLawful (new_rows is_active) }
{}

/// The options that are no names of categories, GRPLIST, PROTECTALL and MLS, play no part in what is lawful.
pub fn switches_keep_rows_lawful()
    ensures { (rows : Rows) (grplist protectall mls : Bool) → AreLawful rows → AreLawful (record rows { options = record rows.options { grplist = grplist; protectall = protectall; mls = mls } }) }
{}
