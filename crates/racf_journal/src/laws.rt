//! Laws of what files say. The functions do nothing: their contracts are what is proved.

ghost use Rattle.std.specs.Prelude.{ℕ, ◌≤◌, ◌≡◌, ◌++◌, ◌∷◌, [], List, Ok, length, take};
ghost use Rattle.racf_outside.specs.Crashes.{Leaves};
ghost use Rattle.racf_outside.specs.Moments.{Moment};
ghost use Rattle.racf_journal.specs.Kept.{IsAtRest, ReadsAs};
ghost use Rattle.racf_journal.specs.Reading.{Reading, reading};

/// Of a journal at rest every crash leaves a file that is read as its records.
pub fn resting_reads_as_its_records()
    ensures { (front : List ℕ) (start gate : ℕ) (records : List (List ℕ)) (m : Moment)
        → IsAtRest front start gate records m → Leaves (ReadsAs front records) m }
{}

/// A cut behind the last gate changes no reading, and neither does one that takes the gate.
pub fn cutting_changes_no_reading()
    ensures { (start end : ℕ) (file : List ℕ) (found : Reading) → 8 ≤ start → start ≤ length file
        → reading start file ≡ Ok found → found.gate ≤ end → reading start (take end file) ≡ Ok found }
{}

/// Another byte in the place of the last gate, with which the file then ends, changes no reading, whatever byte it is.
pub fn rewriting_the_gate_changes_no_reading()
    ensures { (start byte : ℕ) (file : List ℕ) (found : Reading) → 8 ≤ start → start ≤ length file
        → reading start file ≡ Ok found → reading start (take found.gate file ++ byte ∷ []) ≡ Ok found }
{}
