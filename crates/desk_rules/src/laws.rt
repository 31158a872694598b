//! Laws of the definitions. The functions do nothing: their contracts are what is proved.

ghost use Rattle.std.specs.Prelude.{◌≡◌, ◌<◌, ◌^◌, ℕ, List, Option, Some, Ok, IfSome, map};
ghost use Rattle.command_parser.specs.Canonical.{canonical, IsWritten};
ghost use Rattle.journal_records.specs.declared.record.CommandRecord.{CommandRecord};
ghost use Rattle.journal_records.specs.Reading.{record_of};
ghost use Rattle.audit_records.specs.Feedless.{IsFeedless, IsFeedlessState};
ghost use Rattle.desk_rules.specs.History.{at, IsLegal, HadRoom};
ghost use Rattle.desk_rules.specs.Outcome.{outcome};
ghost use Rattle.desk_rules.specs.OneLine.{IsFeedlessAccepted, IsFeedlessOutcome};
ghost use Rattle.desk_rules.specs.Position.{Position, position_behind, restarted};
ghost use Rattle.desk_rules.specs.Recovery.{recovered_from, standing};

/// A desk that is opened again goes on as the one that ran: a command has the same outcome at both, and behind the same
/// commands both have the same number, rows and journal, so that what is opened then is the same.
pub fn recovery_agrees_with_the_running_desk()
    ensures outcome { (position : Position) (id : List ℕ) (group : Option (List ℕ)) (text : List ℕ) →
        outcome (restarted position) id group text ≡ outcome position id group text }
    ensures history { (base : Position) (history : List CommandRecord) → restarted (at (restarted base) history) ≡ restarted (at base history) }
{}

/// Where records lead from a base to a position, they are those of a history that is legal from the base on, and the
/// position is the one behind it, as far as it outlives a restart. Where its gate lies within the 2^28 bytes of a
/// journal, there was room for each record: so an opening needn't ask for it.
pub fn records_lead_along_a_history()
    ensures room { (base : Position) (history : List CommandRecord) → (at base history).gate < 2 ^ 28 → HadRoom base history }
    ensures leads { (base : Position) (records : List (List ℕ)) (position : Position) → recovered_from base records ≡ Ok position →
        (history : List CommandRecord) × IsLegal base history × (map record_of records ≡ map Ok history)
        × (position ≡ restarted (at base history)) }
{}

/// A command that is accepted is written: its canonical text spells it, whoever gives it.
pub fn accepted_commands_are_written()
    ensures { (position : Position) (id : List ℕ) (group : Option (List ℕ)) (text : List ℕ) (given : CommandRecord) →
        outcome position id group text ≡ Ok given → IsWritten given.command (canonical given.command) }
{
    command_parser::laws::operands_are_the_tables();
    command_parser::laws::one_command_is_spelled();
    command_grammar::laws::what_is_read_is_lawful();
    command_grammar::laws::canonical_text_is_read_again();
}

/// No line feed stands in what an outcome tells, whatever the text of the command: not in the words of its refusal, nor
/// in the IDs and names of the issuer and the command that are kept, where none is in a name of the position, nor in the
/// ID and the group of whoever gives it. None is in a name of the position behind that command, and none in one of a
/// position that the files of two disks stand for.
pub fn no_line_feed_is_told()
    ensures outcome { (position : Position) (id : List ℕ) (group : Option (List ℕ)) (text : List ℕ) →
        IsFeedlessState position.image.state → IsFeedless id → IfSome group IsFeedless → IsFeedlessOutcome (outcome position id group text) }
    ensures behind { (position : Position) (given : CommandRecord) →
        IsFeedlessAccepted given → IsFeedlessState position.image.state → IsFeedlessState (position_behind position given).image.state }
    ensures reached { (first second : List ℕ) (base : Position) → standing first second ≡ Ok base → IsFeedlessState base.image.state }
{
    command_parser::laws::one_command_is_spelled();
    command_parser::laws::fields_of_a_text_are_lawful();
    journal_records::laws::canonical_texts_are_of_commands();
    journal_records::laws::fields_are_of_identifiers();
}
