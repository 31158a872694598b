//! Records, written as their bytes.
ghost use Rattle.std.specs.Prelude.{◌≡◌, ◌++◌, ◌≤◌, length, OnOk, OnErr};
ghost use Rattle.command_parser.specs.Canonical.{canonical};
ghost use Rattle.journal_records.specs.Spelling.{content, spelled};

use crate::fields::{filled, is_spelled};
use crate::laws;
use crate::record::CommandRecord;
use byteorder::{BigEndian, ByteOrder};
use command_parser::{Command, NoMemory, printed_is_read};

/// Appends the bytes of a record. Where memory is short, `out` stays as it was.
#[tactic(auto, unfolding(crate::specs::Spelling::spelled))]
pub fn write(item: &CommandRecord, out: &mut Vec<u8>) -> Result<(), NoMemory>
    ensures ok { OnOk result (out.new.items ≡ out.old.items ++ spelled item.now) }
    ensures err { OnErr result (out.new.items ≡ out.old.items) }
{
    let length = content_length(item);
    out.reserve(4 + length as usize)?;
    let mut number = [0; 4];
    BigEndian::write_u32(&mut number, length);
    // There is room for all of it.
    out.extend_from_slice(&number).unwrap();
    out.extend_from_slice(&filled(&item.issuer.id)).unwrap();
    out.extend_from_slice(&filled(&item.issuer.group)).unwrap();
    out.extend_from_slice(item.command.text()).unwrap();
    Ok(())
}

/// How many bytes follow the length.
fn content_length(item: &CommandRecord) -> u32
    ensures { result ≡ length (content item.now) }
{
    let text = short_text(&item.command);
    is_spelled(&item.issuer.id);
    is_spelled(&item.issuer.group);
    16 + text.len() as u32
}

/// The canonical text of a command.
fn short_text(command: &Command) -> &[u8]
    ensures text { result.now ≡ canonical command.now }
    ensures short { length result.now ≤ 30000 }
{
    laws::canonical_texts_are_of_commands();
    printed_is_read(command);
    command.text()
}
