//! Laws of the definitions. The functions do nothing: their contracts are what is proved.

ghost use Rattle.std.specs.Prelude.{◌≡◌, ◌↔◌, ℕ, List, Ok, Some, None, IsSome, map};
ghost use Rattle.command_grammar.specs.Reading.{Generic};
ghost use Rattle.command_grammar.specs.Canon.{canon, spelled};
ghost use Rattle.command_fields.specs.declared.fields.CommandFields.{CommandFields};
ghost use Rattle.command_grammar.specs.declared.table.Operand.{Operand};
ghost use Rattle.command_grammar.specs.Table.{operands_of};
ghost use Rattle.command_parser.specs.Operands.{words_of, verb_of, operands_of_command};
ghost use Rattle.command_parser.specs.Canonical.{generic_view, canonical, given_by, Spells, fault};
ghost use Rattle.command_parser.specs.CommandOf.{command_of, command_in};
ghost use Rattle.command_fields.specs.LawfulFields.{AreLawfulFields};

use command_grammar::laws::what_is_read_is_lawful;

/// A command is read back from the table's view of it, and what a text is read as is the view of a command.
pub fn views_are_of_commands()
    ensures back { (command : CommandFields) → command_of (generic_view command) ≡ Some command }
    ensures read { (issuer text : List ℕ) (view : Generic) → spelled (given_by issuer) text ≡ Ok view → (command : CommandFields) × (command_of view ≡ Some command) × (generic_view command ≡ view) }
{
    what_is_read_is_lawful();
}

/// A text spells the command that it is read as and no other one; where it spells none, it has a first fault.
pub fn one_command_is_spelled()
    ensures one { (issuer text : List ℕ) (command : CommandFields) → (Spells issuer text command ↔ (command_in issuer text ≡ Some command)) }
    ensures none { (issuer text : List ℕ) → command_in issuer text ≡ None → IsSome (fault issuer text) }
{
    what_is_read_is_lawful();
}

/// Where a text spells a command, its fields are lawful, whoever gives it.
pub fn fields_of_a_text_are_lawful()
    ensures { (issuer text : List ℕ) (command : CommandFields) → Spells issuer text command → AreLawfulFields command }
{
    what_is_read_is_lawful();
}

/// The operands of a command are those of the table, word by word in its order, so that its canonical text is the one
/// that the table's reader reads.
pub fn operands_are_the_tables()
    ensures words { (command : CommandFields) → words_of (operands_of_command command) ≡ map (λ (o : Operand). o.word) (operands_of (verb_of command)) }
    ensures text { (command : CommandFields) → canonical command ≡ canon (generic_view command) }
{}
