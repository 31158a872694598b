//! A database that commands change, and the image that questions are asked of.

use anyhow::{Result, anyhow};
use followed_images::{Followed, Outcome, TakenImage};
use raclist_image::Image;
use std::alloc::Global;

/// A database that commands change, and the image that questions are asked of.
#[derive(Drop)]
pub(crate) struct System {
    /// The database, as the commands have left it, with the image that follows it.
    followed: Followed,
    /// The image that a row asked for last; none before the first.
    image: Option<TakenImage>,
}

impl System {
    /// A new database, without an image to be asked.
    pub(crate) fn new(alloc: Global) -> Result<System> {
        Ok(System {
            followed: Followed::new(alloc)?,
            image: None,
        })
    }

    /// Gives a command, which makes the next image of the one before.
    pub(crate) fn command(&mut self, alloc: Global, text: &str) -> Result<()> {
        match self.followed.give(alloc, text.as_bytes()) {
            Ok(Outcome::Accepted) => Ok(()),
            Ok(_) => Err(anyhow!("a command that is refused: {text}")),
            Err(_) => Err(anyhow!("no memory for a command")),
        }
    }

    /// Asks an image of all rows from now on, made from nothing.
    pub(crate) fn make_image(&mut self, alloc: Global) -> Result<()> {
        self.image = Some(self.followed.image_of_rows(alloc, 0)?);
        Ok(())
    }

    /// Asks the image from now on that the commands have made, each of the one before.
    pub(crate) fn take_image(&mut self) -> Result<()> {
        self.image = Some(self.followed.take()?);
        Ok(())
    }

    /// The image that is asked.
    pub(crate) fn image(&self) -> Result<&Image> {
        match &self.image {
            Some(image) => Ok(image.image()),
            None => Err(anyhow!("no image")),
        }
    }
}
