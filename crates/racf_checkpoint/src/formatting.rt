//! How the disks of a new store are written.

ghost use Rattle.std.specs.Prelude.{◌+◌, ◌≤◌, ◌≡◌, ◌⊎◌, [], List, length, IfOk, IfErr, OnOk, OnErr};
ghost use Rattle.racf_outside.specs.Causes.{Rose};
ghost use Rattle.racf_outside.specs.Disk.{Now};
ghost use Rattle.racf_outside.specs.Moments.{durable};
ghost use Rattle.racf_profiles.specs.NewDatabase.{new_database};
ghost use Rattle.database_image.specs.Image.{image_of};
ghost use Rattle.checkpoint_disks.specs.declared.counting.Side.{Side};
ghost use Rattle.checkpoint_disks.specs.Baring.{first_to_go};
ghost use Rattle.checkpoint_disks.specs.Compacting.{with_head, new_checkpoint};
ghost use Rattle.checkpoint_disks.specs.Made.{IsMade};
ghost use Rattle.racf_checkpoint.specs.Contents.{IsCausedByOne};
ghost use Rattle.racf_checkpoint.specs.Formatting.{StaysFormatting, StaysBaring, InOrder, LeavesNoOlder};
ghost use Rattle.racf_checkpoint.specs.Stored.{IsStored, IsPassedOver, NowRead};
ghost use Rattle.racf_checkpoint.specs.declared.fault.StoreFault.TheVariants as fault;

use crate::fault::StoreFault;
use crate::laws::a_new_database_is_stored;
use crate::reading::sync_both;
use checkpoint_disks::laws::{
    a_new_file_says_its_checkpoint, bared_in_order_they_say_nothing_else,
};
use checkpoint_disks::{NewCheckpoint, Side, TELLING, first_to_go, make_bare, prepare, write};
use database_image::laws::stored_rows_are_lawful;
use racf_outside::{Disk, Failed};
use racf_profiles::{NoMemory, Rows};
use std::alloc::Global;

/// Makes both files ones without a checkpoint, and writes that of a new database on the first. The place of its journal
/// is answered. All memory is taken before anything is written. Wherever the call ends, the two say nothing older than
/// what they might have said before.
pub(crate) fn write_first<D: Disk>(
    alloc: Global,
    first: &mut D,
    second: &mut D,
) -> Result<u64, StoreFault>
    ensures start { IfOk result (λ start. start ≡ 33 + length (image_of new_database)) }
    ensures stored { IfOk result (λ start. Now (D.tells first.new) (IsStored 1 start start (new_checkpoint 1 0 new_database))) }
    ensures passed { OnOk result (Now (D.tells second.new) (IsPassedOver Side.First 1)) }
    ensures first_moments { StaysFormatting (D.tells first.old) (D.tells first.new) }
    ensures second_moments { StaysBaring (D.tells second.old) (D.tells second.new) }
    ensures joint { LeavesNoOlder (D.tells first.old) (D.tells second.old) (D.tells first.new) (D.tells second.new) }
    ensures fault { IfErr result (λ why. (why ≡ fault.DiskFault) ⊎ (why ≡ fault.NoMemory)) }
    ensures memory { IfErr result (λ why. why ≡ fault.NoMemory → (first.new ≡ first.old) × (second.new ≡ second.old)) }
    ensures cause { IfErr result (IsCausedByOne (D.faults first.old) (D.faults first.new) (D.faults second.old) (D.faults second.new)) }
    ensures first_no_fewer { D.faults first.old ≤ D.faults first.new }
    ensures second_no_fewer { D.faults second.old ≤ D.faults second.new }
{
    a_new_database_is_stored();
    a_new_file_says_its_checkpoint();
    bared_in_order_they_say_nothing_else();
    let new = first_checkpoint(alloc)?;
    sync_both(first, second)?;
    make_both_bare(first, second)?;
    write(first, &new)?;
    Ok(new.start())
}

/// The first checkpoint of a new database.
fn first_checkpoint(alloc: Global) -> Result<NewCheckpoint, NoMemory>
    ensures { IfOk result (IsMade 1 0 new_database) }
{
    a_new_database_is_stored();
    stored_rows_are_lawful();
    let rows = Rows::new_database(alloc)?;
    prepare(alloc, 1, 0, &rows)
}

/// Makes both files ones without a checkpoint, that which doesn't count before the other: a stop in between then leaves
/// what the two said, or nothing.
fn make_both_bare<D: Disk>(first: &mut D, second: &mut D) -> Result<(), Failed>
    requires first { Now (D.tells first.old) (λ m. m ≡ durable m.bytes) }
    requires second { Now (D.tells second.old) (λ m. m ≡ durable m.bytes) }
    ensures first_bare { OnOk result (Now (D.tells first.new) (λ m. m ≡ durable (with_head 0 []))) }
    ensures second_bare { OnOk result (Now (D.tells second.new) (λ m. m ≡ durable (with_head 0 []))) }
    ensures first_moments { StaysBaring (D.tells first.old) (D.tells first.new) }
    ensures second_moments { StaysBaring (D.tells second.old) (D.tells second.new) }
    ensures order { InOrder (D.tells first.old) (D.tells second.old) (D.tells first.new) (D.tells second.new) }
    ensures cause { OnErr result (Rose (D.faults first.old) (D.faults first.new) ⊎ Rose (D.faults second.old) (D.faults second.new)) }
    ensures first_no_fewer { D.faults first.old ≤ D.faults first.new }
    ensures second_no_fewer { D.faults second.old ≤ D.faults second.new }
{
    match goes_first(first, second)? {
        Side::First => {
            make_bare(first)?;
            make_bare(second)
        }
        Side::Second => {
            make_bare(second)?;
            make_bare(first)
        }
    }
}

/// The side whose file is made bare before the other. The disks are only read.
fn goes_first<D: Disk>(first: &mut D, second: &mut D) -> Result<Side, Failed>
    ensures side { IfOk result (λ side. NowRead (D.tells first.old) (D.tells second.old) (λ one two. side ≡ first_to_go one two)) }
    ensures kept { (D.tells first.new ≡ D.tells first.old) × (D.tells second.new ≡ D.tells second.old) }
    ensures cause { OnErr result (Rose (D.faults first.old) (D.faults first.new) ⊎ Rose (D.faults second.old) (D.faults second.new)) }
    ensures first_no_fewer { D.faults first.old ≤ D.faults first.new }
    ensures second_no_fewer { D.faults second.old ≤ D.faults second.new }
{
    let mut one = [0; TELLING];
    let mut two = [0; TELLING];
    let read_one = first.read(0, &mut one)?;
    let read_two = second.read(0, &mut two)?;
    Ok(first_to_go(&one[..read_one], &two[..read_two]))
}
