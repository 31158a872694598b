//! Laws of the definitions. The functions do nothing: their contracts are what is proved.
ghost use Rattle.std.specs.Prelude.{◌≡◌, List, ℕ, Ok};
ghost use Rattle.racf_profiles.specs.declared.rows.Rows.{Rows};
ghost use Rattle.racf_profiles.specs.Lawful.{AreLawful};
ghost use Rattle.database_image.specs.Reading.{AreBytes};
ghost use Rattle.database_image.specs.Description.{image};
ghost use Rattle.database_image.specs.Image.{AreImageOf, image_of, first_pass, rows_of, IsStored, FirstUnlawful};
ghost use Rattle.database_image.specs.Spelled.{AreSpelled};

/// What the first pass reads is lawful field by field, and the bytes are its image, which may be one of before there was
/// the class CDT; and rows whose fields are lawful are read again from their image.
pub fn fields_are_of_rows()
    ensures found { (bytes : List ℕ) (rows : Rows) → AreBytes bytes → first_pass bytes ≡ Ok rows → image.Fits rows × AreImageOf bytes rows }
    ensures only { (rows : Rows) → image.Fits rows → first_pass (image_of rows) ≡ Ok rows }
{}

/// The same of both passes: what bytes are read as is what an image may hold, and they are its image; and what an image
/// may hold is read again from its own image.
pub fn images_are_of_rows()
    ensures found { (bytes : List ℕ) (rows : Rows) → AreBytes bytes → rows_of bytes ≡ Ok rows → IsStored rows × AreImageOf bytes rows }
    ensures only { (rows : Rows) → IsStored rows → rows_of (image_of rows) ≡ Ok rows }
    ensures own { (rows : Rows) → IsStored rows → AreImageOf (image_of rows) rows }
{}

/// What an image may hold is lawful, so that a database may be made of what `read` gives. No image holds listed copies,
/// and none of what is lawful speaks of them.
pub fn stored_rows_are_lawful()
    ensures lawful { (rows : Rows) → IsStored rows → AreLawful rows }
{}

/// Rows that an image may hold have no first unlawful field, and all others have one at most.
pub fn first_fault_is_one()
    ensures apart { (rows : Rows) (place : ℕ) → IsStored rows → FirstUnlawful rows place → ⊥ }
    ensures one { (rows : Rows) (place other : ℕ) → FirstUnlawful rows place → FirstUnlawful rows other → place ≡ other }
{}

/// What is lawful, and spelled as its types keep it, an image may hold: so no rows of a database are refused.
pub fn lawful_rows_are_stored()
    ensures stored { (rows : Rows) → AreLawful rows → AreSpelled rows → IsStored rows }
{}
