//! Images that were taken.
ghost use Rattle.std.specs.Prelude.{◌≡◌};
ghost use Rattle.std.specs.Arc.{arc_value};

use raclist_image::Image;
use std::marker::Model;
use std::sync::Arc;

/// An image that was taken. Later commands leave it as it is.
pub struct TakenImage {
    /// The image, of which this is one owner.
    image: Arc<Image>,
}

impl Model for TakenImage {
    ghost use Rattle.std.specs.Arc.{arc_value};
    ghost use Rattle.raclist_image.specs.Imaged.{Imaged};

    ghost Value = { Imaged };

    ghost view = { λ taken. arc_value taken.image };
}

impl TakenImage {
    /// An image that has one more owner now.
    pub(crate) fn of(image: Arc<Image>) -> TakenImage
        ensures { result ≡ arc_value image }
    {
        TakenImage { image }
    }

    /// The image.
    pub fn image(&self) -> &Image
        ensures { result.now ≡ self.now }
    {
        &self.image
    }
}

/// Written out, so that what an image is made of is let go in this crate alone.
impl Drop for TakenImage {
    fn drop(self) {
        let TakenImage { image: _ } = self;
    }
}
