//! Laws of what files say. The functions do nothing: their contracts are what is proved.

ghost use Rattle.std.specs.Prelude.{[], ℕ, ◌+◌, ◌<◌, ◌≤◌, ◌≡◌, ◌^◌, true, false, List, Ok, length};
ghost use Rattle.racf_profiles.specs.declared.rows.Rows.{Rows};
ghost use Rattle.database_image.specs.Image.{image_of, rows_of, IsStored};
ghost use Rattle.racf_journal.specs.Kept.{ReadsAs};
ghost use Rattle.racf_journal.specs.Reading.{spelled};
ghost use Rattle.checkpoint_disks.specs.declared.counting.Side.{Side};
ghost use Rattle.checkpoint_disks.specs.Files.{head_is_open, CheckpointRead, contents};
ghost use Rattle.checkpoint_disks.specs.Baring.{IsBaring, first_to_go};
ghost use Rattle.checkpoint_disks.specs.Compacting.{with_head, first_of, second_of, Counts, IsOneOf, CountsBeside, SaysEither, said_beside, new_file, new_checkpoint, with_image, with_records};

use database_image::laws::images_are_of_rows;

/// The file of a new checkpoint says it, and beside a file of a lower epoch it counts.
pub fn a_new_file_says_its_checkpoint()
    ensures alone { (epoch number : ℕ) (rows : Rows) → IsStored rows → 0 < epoch → epoch < 2 ^ 64 → number ≤ 2 ^ 62 → 34 + length (image_of rows) ≤ 2 ^ 28
        → contents (new_file epoch number rows) ≡ Ok (new_checkpoint epoch number rows) }
    ensures beside { (side : Side) (live before : List ℕ) (epoch number : ℕ) (rows : Rows) → CountsBeside side before live epoch
        → IsStored rows → epoch < 2 ^ 64 → number ≤ 2 ^ 62 → 34 + length (image_of rows) ≤ 2 ^ 28
        → said_beside side (new_file epoch number rows) live ≡ Ok (new_checkpoint epoch number rows) }
{
    images_are_of_rows();
}

/// Behind the fields and an image a journal's records are those of the checkpoint, whose rows are what the image is read
/// as, and its file counts with that epoch.
pub fn records_are_read_behind_an_image()
    ensures says { (epoch number : ℕ) (image : List ℕ) (rows : Rows) (records : List (List ℕ)) (file : List ℕ) → rows_of image ≡ Ok rows → 0 < epoch → epoch < 2 ^ 64 → number ≤ 2 ^ 62
        → (33 + length image) + length (spelled records) < 2 ^ 28 → length file ≤ 2 ^ 28
        → ReadsAs (with_image epoch number image) records file → contents file ≡ Ok (with_records epoch number rows (33 + length image) records) }
    ensures counts { (epoch number : ℕ) (image : List ℕ) (records : List (List ℕ)) (file : List ℕ) → epoch < 2 ^ 64
        → ReadsAs (with_image epoch number image) records file → Counts epoch file }
{}

/// What a crash leaves of the disk that doesn't count says, beside a file that counted, what that one says, or the new
/// checkpoint.
pub fn what_is_left_says_either()
    ensures { (side : Side) (live before file : List ℕ) (epoch number : ℕ) (rows : Rows) → CountsBeside side before live epoch
        → IsStored rows → epoch < 2 ^ 64 → number ≤ 2 ^ 62 → 34 + length (image_of rows) ≤ 2 ^ 28
        → IsOneOf before (new_file epoch number rows) file → SaysEither side live (new_checkpoint epoch number rows) file }
{
    a_new_file_says_its_checkpoint();
}

/// Where the head gate was there and closed, a crash that leaves it open leaves the new file whole: the gate is
/// written only once all behind it is kept.
pub fn an_open_head_has_its_body()
    ensures { (before made file : List ℕ) → IsOneOf before made file → 9 ≤ length before → head_is_open before ≡ false → head_is_open file ≡ true → file ≡ made }
{}

/// While the file that is to go first is made bare, and then the other, the two say nothing but what they said before.
pub fn bared_in_order_they_say_nothing_else()
    ensures one { (side : Side) (one other file : List ℕ) (kept : CheckpointRead) → first_to_go (first_of side one other) (second_of side one other) ≡ side
        → IsBaring one file → said_beside side file other ≡ Ok kept → said_beside side one other ≡ Ok kept }
    ensures other { (side : Side) (one other file : List ℕ) (kept : CheckpointRead) → first_to_go (first_of side one other) (second_of side one other) ≡ side
        → IsBaring other file → said_beside side (with_head 0 []) file ≡ Ok kept → said_beside side one other ≡ Ok kept }
{}
