//! Laws of what is stored. The functions do nothing: their contracts are what is proved.

ghost use Rattle.std.specs.Prelude.{ℕ, ◌≡◌, ◌<◌, ◌^◌, List, Option, length};
ghost use Rattle.racf_outside.specs.Crashes.{Leaves};
ghost use Rattle.racf_outside.specs.Disk.{History, Now};
ghost use Rattle.racf_outside.specs.Moments.{Moment, IsImage};
ghost use Rattle.racf_profiles.specs.NewDatabase.{new_database};
ghost use Rattle.database_image.specs.Image.{image_of, IsStored as AreStored};
ghost use Rattle.checkpoint_disks.specs.declared.counting.Side.{Side};
ghost use Rattle.checkpoint_disks.specs.Files.{CheckpointRead};
ghost use Rattle.checkpoint_disks.specs.Compacting.{new_checkpoint, IsCheckpoint};
ghost use Rattle.checkpoint_disks.specs.Counting.{said};
ghost use Rattle.racf_checkpoint.specs.Contents.{Says};
ghost use Rattle.racf_checkpoint.specs.Stored.{IsStored, IsPassedOver, Beside, WasPossible};

use checkpoint_disks::laws::records_are_read_behind_an_image;
use database_image::laws::images_are_of_rows;

/// Of what is stored every crash leaves files that say it.
pub fn what_is_stored_is_said()
    ensures { (side : Side) (epoch start gate : ℕ) (kept : CheckpointRead) (live : Moment) (idle : Option History)
        → IsStored epoch start gate kept live → Now idle (IsPassedOver side epoch) → Leaves (Beside side idle (Says kept)) live }
{
    records_are_read_behind_an_image();
}

/// Two files of which each says what was possible of its disk say together what some two images of then say.
pub fn what_was_possible_is_said()
    ensures { (one two : Moment) (first second : List ℕ) → WasPossible one first → WasPossible two second
        → (before : List ℕ) × (after : List ℕ) × IsImage one before × IsImage two after × (said first second ≡ said before after) }
{}

/// The rows of a new database are what an image may hold.
pub fn a_new_database_is_stored()
    ensures stored { AreStored new_database }
    ensures size { length (image_of new_database) < 2 ^ 64 }
    ensures checkpoint { IsCheckpoint (new_checkpoint 1 0 new_database) }
{
    images_are_of_rows();
}
