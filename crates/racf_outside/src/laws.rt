//! Laws of the definitions. The functions do nothing: their contracts are what is proved.

ghost use Rattle.std.specs.Prelude.{ℕ, ◌≡◌, ◌≤◌, ◌↔◌, Bool, true, List, length, Option, Some, IfSome};
ghost use Rattle.racf_outside.specs.Crashes.{Stays, StaysIn, LeftSince, moment_number};
ghost use Rattle.racf_outside.specs.Disk.{History};
ghost use Rattle.racf_outside.specs.ImageTest.{is_image};
ghost use Rattle.racf_outside.specs.Moments.{Moment, IsImage};

/// The test of an image says exactly what a crash may leave.
pub fn images_are_tested()
    ensures { (m : Moment) (image : List ℕ) → m.shortest ≤ length m.bytes → (is_image m image ≡ true) ↔ IsImage m image }
{}

/// Where calls kept to their clause, whatever a crash may have left since the first of them has what the clause says.
pub fn what_stays_is_left()
    ensures stays { (test : List ℕ → Bool) (from to : History) (image : List ℕ) → Stays (λ c. test c ≡ true) from to
        → LeftSince to (moment_number from) image → test image ≡ true }
    ensures told { (test : List ℕ → Bool) (from : History) (new : Option History) (image : List ℕ)
        → StaysIn (λ c. test c ≡ true) (Some from) new
        → IfSome new (λ to. LeftSince to (moment_number from) image → test image ≡ true) }
{}
