//! What is held until a command counts.
ghost use Rattle.std.specs.Prelude.{◌≡◌, IfOk};
ghost use Rattle.std.specs.Arc.{arc_value};

use crate::note::Note;
use command_history::{Accepted, Naming};
use racf_profiles::NoMemory;
use raclist_image::Image;
use std::alloc::Global;
use std::marker::Model;
use std::snapshot::Snapshot;
use std::sync::{Arc, OnceLock};

/// An entry with the image behind it, and all that publishing it takes. Contracts see it as both.
#[derive(Drop)]
pub(crate) struct Held<J: Naming> {
    /// The entry, as contracts see it: the value itself is its owner's.
    pub(crate) entry: Snapshot<Accepted>,
    /// An owner of the image, for the publisher.
    pub(crate) image: Arc<Image, Global>,
    /// One for the slot.
    pub(crate) shown: Arc<Image, Global>,
    /// One for the next note.
    pub(crate) spare: Arc<Image, Global>,
    /// The slot that callers will find, which is empty yet.
    pub(crate) slot: Arc<OnceLock<Note<J>>, Global>,
}

impl<J: Naming> Model for Held<J> {
    ghost use Rattle.std.specs.Prelude.{◌≡◌};
    ghost use Rattle.std.specs.Arc.{arc_value};
    ghost use Rattle.raclist_snapshots.specs.Kept.{Holding};

    ghost Value = { Holding };

    ghost view = { λ h. record { entry = h.entry.value; image = arc_value h.image } };

    ghost invariant = { λ h. (arc_value h.shown ≡ arc_value h.image) × (arc_value h.spare ≡ arc_value h.image) };
}

impl<J: Naming> Held<J> {
    /// Takes the memory.
    pub(crate) fn new(
        alloc: Global,
        image: Arc<Image, Global>,
        entry: &Accepted,
    ) -> Result<Held<J>, NoMemory>
        ensures { IfOk result (λ held. held ≡ record { entry = entry.now; image = arc_value image }) }
    {
        Ok(Held {
            entry: Snapshot::of(entry),
            shown: Arc::try_clone(&image)?,
            spare: Arc::try_clone(&image)?,
            image,
            slot: Arc::new(alloc, OnceLock::new())?,
        })
    }

    /// The number of the image.
    pub(crate) fn number(&self) -> u64
        ensures { result ≡ self.now.image.generation }
    {
        self.image.generation()
    }

    /// One more owner of the slot.
    pub(crate) fn slot(&self) -> Result<Arc<OnceLock<Note<J>>, Global>, NoMemory> {
        Arc::try_clone(&self.slot)
    }
}
