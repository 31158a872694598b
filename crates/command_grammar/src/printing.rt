//! The canonical text of a command.

ghost use Rattle.std.specs.Prelude.{◌≡◌, ◌++◌, ◌∷◌, OnOk, IfOk};
ghost use Rattle.command_grammar.specs.Canon.{value_text, positions_text, operands_text, canon};
ghost use Rattle.command_grammar.specs.Parts.{generic};
ghost use Rattle.command_values.specs.OperandWords.{spelling_of};

use crate::reading::Parts;
use crate::table::Operand;
use command_values::{Content, push_content};
use std::alloc::{AllocError, Global};

/// Room for most texts, taken at once.
const MOST_TEXTS: usize = 120;

/// A value in its parentheses, or nothing where there is none.
fn push_value(out: &mut Vec<u8>, content: &Content) -> Result<(), AllocError>
    ensures { OnOk result (out.new.items ≡ out.old.items ++ value_text content.now) }
{
    if let Content::Flag = content {
        return Ok(());
    }
    out.push(b'(')?;
    push_content(out, content)?;
    out.push(b')')?;
    Ok(())
}

/// Writes the positional words, each behind a blank.
fn push_positions(out: &mut Vec<u8>, positions: &[Content]) -> Result<(), AllocError>
    ensures { OnOk result (out.new.items ≡ out.old.items ++ positions_text positions.now) }
{
    for content in positions {
        out.push(b' ')?;
        push_content(out, content)?;
    }
    Ok(())
}

/// Writes an operand with its value, behind a blank.
fn push_operand(out: &mut Vec<u8>, row: Operand, content: &Content) -> Result<(), AllocError>
    ensures { OnOk result (out.new.items ≡ out.old.items ++ (32 ∷ (spelling_of row.word ++ value_text content.now))) }
{
    out.push(b' ')?;
    out.extend_from_slice(row.word.spelling())?;
    push_value(out, content)
}

/// Writes the operands that were given, in the order of the table.
fn push_operands(
    out: &mut Vec<u8>,
    rows: &[Operand],
    slots: &[Option<Content>],
) -> Result<(), AllocError>
    ensures { OnOk result (out.new.items ≡ out.old.items ++ operands_text rows.now slots.now) }
{
    let (mut rows, mut slots) = (rows, slots);
    while let (Some((row, more_rows)), Some((slot, more_slots))) = (
        rows.split_first(),
        slots.split_first(),
    ) {
        if let Some(content) = slot {
            push_operand(out, *row, content)?;
        }
        rows = more_rows;
        slots = more_slots;
    }
    Ok(())
}

/// The canonical text of a command: its full name, its positional words, and its operands in the order of the table,
/// each behind one blank. It may be longer than a command's text can be.
#[tactic(auto, unfolding(crate::specs::Canon::canon))]
pub fn printed(alloc: Global, parts: &Parts) -> Result<Vec<u8>, AllocError>
    ensures { IfOk result (λ text. text.items ≡ canon (generic parts.now)) }
{
    let mut out = Vec::with_capacity(alloc, MOST_TEXTS)?;
    out.extend_from_slice(parts.verb.full_name())?;
    push_positions(&mut out, &parts.positions)?;
    push_operands(&mut out, parts.verb.operands(), &parts.slots)?;
    Ok(out)
}
