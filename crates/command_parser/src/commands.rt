//! Commands, read from their text and written as their canonical text.

ghost use Rattle.std.specs.Prelude.{◌≡◌, ◌++◌, List, ℕ, IfOk, IfErr, OnOk, OnErr};
ghost use Rattle.command_fields.specs.declared.fields.CommandFields.{CommandFields};
ghost use Rattle.command_values.specs.Results.{Gives};
ghost use Rattle.command_grammar.specs.Canon.{spelled};
ghost use Rattle.command_parser.specs.Canonical.{generic_view, canonical, Spells, IsFault, IsUnlessMemory};

use crate::convert::fields_in_parts;
use access_levels::Id;
use command_fields::CommandFields;
use command_grammar::{LONGEST, laws, printed, read};
use command_values::{Context, ParseFault, Syntax};
use std::alloc::{AllocError, Global};
use std::marker::Model;

/// Want of memory.
pub type NoMemory = AllocError;

/// A command with its canonical text, seen by contracts as its `CommandFields`. The canonical text has at most 30,000
/// bytes, and spells the command for every issuer.
#[derive(Drop)]
pub struct Command {
    /// Which command it is, and its fields.
    fields: CommandFields,
    /// Its canonical text.
    text: Vec<u8>,
}

impl Model for Command {
    ghost use Rattle.command_fields.specs.declared.fields.CommandFields.{CommandFields};
    ghost use Rattle.command_parser.specs.Canonical.{IsWritten};

    ghost Value = { CommandFields };

    ghost view = { λ c. c.fields };

    ghost invariant = { λ c. IsWritten c.fields c.text.items };
}

impl Command {
    /// Which command it is, and its fields.
    pub fn fields(&self) -> &CommandFields
        ensures { result.now ≡ self.now }
    {
        &self.fields
    }

    /// Its canonical text.
    pub fn text(&self) -> &[u8]
        ensures { result.now ≡ canonical self.now }
    {
        &self.text
    }

    /// Its canonical text, which is all that is kept of the command.
    pub fn into_text(self) -> Vec<u8>
        ensures { result.items ≡ canonical self }
    {
        let Command { fields: _, text } = self;
        text
    }
}

/// What the text spells.
fn parse_exact(alloc: Global, at: &Context, text: &[u8]) -> Result<Command, ParseFault>
    ensures { Gives generic_view result (spelled at.now text.now) }
{
    laws::what_is_read_is_lawful();
    laws::canonical_text_is_read_again();
    let parts = read(alloc, at, text)?;
    let canonical = printed(alloc, &parts)?;
    if canonical.len() > LONGEST {
        return Err(ParseFault::Syntax(Syntax::TextTooLong));
    }
    let fields = fields_in_parts(alloc, parts);
    Ok(Command {
        fields,
        text: canonical,
    })
}

/// The command that the text spells where `issuer` gives it, whose ID stands in front of data set names without quotes.
///
/// # Errors
///
/// `Syntax`, with the text's first fault; `NoMemory` where there was no room for the command or its canonical text.
pub fn parse(alloc: Global, issuer: Id, text: &[u8]) -> Result<Command, ParseFault>
    // What is read is spelled so.
    ensures found { IfOk result (Spells issuer text.now) }

    // What is spelled so is read, unless memory runs out.
    ensures only { (c : CommandFields) → Spells issuer text.now c → IsUnlessMemory result c }

    // Which fault it is.
    ensures fault { IfErr result (IsFault issuer text.now) }
{
    parse_exact(alloc, &Context { issuer }, text)
}

/// Writes the canonical text of a command behind what stands in `out`.
pub fn print(command: &Command, out: &mut Vec<u8>) -> Result<(), NoMemory>
    ensures ok { OnOk result (out.new.items ≡ out.old.items ++ canonical command.now) }
    ensures err { OnErr result (out.new.items ≡ out.old.items) }
{
    out.extend_from_slice(command.text())
}

/// The law of both directions: the canonical text of a command spells it, whoever gives it. It does nothing: its
/// contract is what it is for.
pub fn printed_is_read(command: &Command)
    ensures { (issuer : List ℕ) → Spells issuer (canonical command.now) command.now }
{
    let _fields = &command.fields;
}
