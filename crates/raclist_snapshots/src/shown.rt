//! What is published, and what an operation makes of it.

use left_right::Absorb;
use std::alloc::{AllocError, Global};
use std::sync::{Arc, OnceLock};

/// Where a note is put once it may be seen. The slot is made before that, so that publishing takes no memory. There is
/// none where nothing was published yet, and where the number of its owners couldn't be raised.
pub type Slot<N> = Option<Arc<OnceLock<N>, Global>>;

/// One of the two copies, of which readers read one.
#[derive(Drop)]
pub struct Shown<N: Drop> {
    /// The number of the note's image, so that it can be compared before the note is touched.
    pub(crate) number: u64,
    /// The note.
    pub(crate) slot: Slot<N>,
}

/// What is published next: it takes the place of what a copy shows.
#[derive(Drop)]
pub struct Fresh<N: Drop> {
    /// The number of the note's image.
    number: u64,
    /// The note, once it may be seen.
    slot: Slot<N>,
}

/// What a publisher makes of a slot, to show it. A publisher knows the type of its operations by this alone.
pub trait Opens<N: Drop>: Drop {
    /// The operation that shows this slot, under this number.
    fn open(number: u64, slot: Slot<N>) -> Self;
}

impl<N: Drop> Opens<N> for Fresh<N> {
    fn open(number: u64, slot: Slot<N>) -> Fresh<N> {
        Fresh { number, slot }
    }
}

impl<N: Drop> Shown<N> {
    /// Nothing that a reader would take.
    pub(crate) fn nothing() -> Shown<N> {
        Shown {
            number: 0,
            slot: None,
        }
    }
}

/// Nothing is said of what the copies show: who reads one knows what he finds by its type.
impl<N: Drop> Absorb<Fresh<N>> for Shown<N> {
    type State = ();

    ghost state = { λ shown. tt };

    ghost applied = { λ state fresh. tt };

    ghost never_fails = { Unit {0} };

    fn absorb_first(&mut self, operation: &Fresh<N>, _other: &Shown<N>) -> Result<(), AllocError> {
        let slot = match &operation.slot {
            Some(slot) => Arc::try_clone(slot).ok(),
            None => None,
        };
        *self = Shown {
            number: operation.number,
            slot,
        };
        Ok(())
    }

    fn absorb_second(&mut self, operation: Fresh<N>, _other: &Shown<N>) -> Result<(), Fresh<N>> {
        let Fresh { number, slot } = operation;
        *self = Shown { number, slot };
        Ok(())
    }
}
