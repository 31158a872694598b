//! Laws of the definitions. The functions do nothing: their contracts are what is proved.
ghost use Rattle.std.specs.Prelude.{◌≡◌, ◌≤◌, ◌+◌, ◌↔◌, List, ℕ, Ok, Some, length, drop};
ghost use Rattle.byteorder.specs.Endian.{big_number};
ghost use Rattle.access_levels.specs.Spelling.{id_of};
ghost use Rattle.command_fields.specs.declared.issuer.Issuer.{Issuer};
ghost use Rattle.command_fields.specs.declared.fields.CommandFields.{CommandFields};
ghost use Rattle.command_parser.specs.Canonical.{canonical, IsWritten};
ghost use Rattle.journal_records.specs.declared.record.CommandRecord.{CommandRecord};
ghost use Rattle.journal_records.specs.Spelling.{filled, spelled, IsLawful, AreBytes};
ghost use Rattle.journal_records.specs.Reading.{id_in, issuer_in, canonical_command, record_of};

use crate::fields::is_spelled;
use crate::record::CommandRecord;
use command_parser::printed_is_read;

/// A field is read as the identifier that fills it, and two fields as the issuer whose identifiers fill them.
pub fn fields_are_of_identifiers()
    ensures one { (field id : List ℕ) → ((id_in field ≡ Some id) ↔ ((id_of id ≡ Ok id) × (field ≡ filled id))) }
    ensures two { (id group : List ℕ) (issuer : Issuer) → ((issuer_in id group ≡ Ok issuer) ↔ ((id_of issuer.id ≡ Ok issuer.id) × (id ≡ filled issuer.id) × (group ≡ filled issuer.group))) }
{}

/// A text is the canonical one of the command that it is read as, and of no other, whoever gives it. It has 1 to 30,000
/// bytes.
pub fn canonical_texts_are_of_commands()
    ensures one { (issuer text : List ℕ) (command : CommandFields) → ((canonical_command issuer text ≡ Some command) ↔ IsWritten command text) }
    ensures least { (text : List ℕ) (command : CommandFields) → IsWritten command text → 1 ≤ length text }
    ensures most { (text : List ℕ) (command : CommandFields) → IsWritten command text → length text ≤ 30000 }
{
    command_parser::laws::one_command_is_spelled();
    command_parser::laws::operands_are_the_tables();
    command_grammar::laws::what_is_read_is_lawful();
    command_grammar::laws::canonical_text_is_read_again();
}

/// What bytes are read as is a lawful record, which they spell; and each lawful record is read from its spelling.
pub fn records_are_their_spelling()
    ensures found { (bytes : List ℕ) (item : CommandRecord) → AreBytes bytes → record_of bytes ≡ Ok item → IsLawful item × (bytes ≡ spelled item) }
    ensures only { (item : CommandRecord) → IsLawful item → record_of (spelled item) ≡ Ok item }
{
    canonical_texts_are_of_commands();
}

/// A record has 20 bytes and its text, and at most 30,020; its first four bytes are the length of the rest.
pub fn lengths_are_those_of_the_texts()
    ensures whole { (item : CommandRecord) → IsLawful item → length (spelled item) ≡ 20 + length (canonical item.command) }
    ensures most { (item : CommandRecord) → IsLawful item → length (spelled item) ≤ 30020 }
    ensures first { (item : CommandRecord) → IsLawful item → big_number 4 (spelled item) ≡ length (drop 4 (spelled item)) }
{
    canonical_texts_are_of_commands();
}

/// Every record is lawful, and is read from its bytes.
pub fn written_is_read(item: &CommandRecord)
    ensures lawful { IsLawful item.now }
    ensures read { record_of (spelled item.now) ≡ Ok item.now }
{
    printed_is_read(&item.command);
    is_spelled(&item.issuer.id);
    records_are_their_spelling();
}
