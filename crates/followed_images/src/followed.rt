//! A database, and the image that follows it.
ghost use Rattle.std.specs.Prelude.{◌≡◌, None, IfOk, OnOk, OnErr};
ghost use Rattle.racf_profiles.specs.State.{restart};
ghost use Rattle.command_rules.specs.Conflicts.{conflict_of};
ghost use Rattle.followed_images.specs.Given.{giver, first_image, image_behind, Becomes};

use crate::taken::TakenImage;
use command_parser::{Command, Issuer, ParseFault, Syntax, parse};
use racf_database::{Conflict, Database};
use racf_profiles::laws::rows_are_changed;
use racf_profiles::{NoMemory, ibmuser, sys1};
use raclist_image::Image;
use std::alloc::{AllocError, Global};
use std::marker::Model;
use std::sync::Arc;

/// A database, and the image of its rows: a new database's is made of all its rows, and each accepted command makes the
/// next one of the one before, as a stream's does. Contracts see it as the image.
pub struct Followed {
    /// The rows.
    database: Database,
    /// How many commands were accepted.
    number: u64,
    /// The image of the rows.
    image: Arc<Image>,
}

/// What became of a command.
#[derive(Clone, Copy)]
pub enum Outcome {
    /// It was accepted.
    Accepted,
    /// Its text spells no command: the first fault.
    Faulty(Syntax),
    /// The first conflict with the rows.
    Refused(Conflict),
}

impl Model for Followed {
    ghost use Rattle.std.specs.Prelude.{◌≡◌};
    ghost use Rattle.std.specs.Arc.{arc_value};
    ghost use Rattle.raclist_image.specs.Imaged.{Imaged};

    ghost Value = { Imaged };

    ghost view = { λ followed. arc_value followed.image };

    ghost invariant = { λ followed. ((arc_value followed.image).state.rows ≡ followed.database.rows) × ((arc_value followed.image).generation ≡ followed.number) };
}

impl Followed {
    /// A new database with its image.
    pub fn new(alloc: Global) -> Result<Followed, NoMemory>
        ensures { IfOk result (λ followed. followed ≡ first_image) }
    {
        let database = Database::new(alloc)?;
        let rows = database.to_rows(alloc)?;
        let image = Image::of(alloc, &rows, 0)?;
        Ok(Followed {
            database,
            number: 0,
            image,
        })
    }

    /// How many commands were accepted.
    pub fn number(&self) -> u64
        ensures { result ≡ self.now.generation }
    {
        self.number
    }

    /// The image that follows the rows.
    pub fn image(&self) -> &Image
        ensures { result.now ≡ self.now }
    {
        &self.image
    }

    /// The image that follows the rows, to be kept while they go on.
    pub fn take(&self) -> Result<TakenImage, NoMemory>
        ensures { IfOk result (λ taken. taken ≡ self.now) }
    {
        Ok(TakenImage::of(Arc::try_clone(&self.image)?))
    }

    /// An image of all rows under that number, made from nothing.
    pub fn image_of_rows(&self, alloc: Global, number: u64) -> Result<TakenImage, NoMemory>
        ensures { IfOk result (λ taken. taken ≡ record { state = restart self.now.state.rows; generation = number }) }
    {
        let rows = self.database.to_rows(alloc)?;
        Ok(TakenImage::of(Image::of(alloc, &rows, number)?))
    }

    /// Gives a command, as IBMUSER in SYS1. Where memory is wanting, the rows and the image stay as they are.
    pub fn give(&mut self, alloc: Global, text: &[u8]) -> Result<Outcome, NoMemory>
        ensures becomes { IfOk result (λ outcome. Becomes text.now self.old outcome self.new) }
        ensures err { OnErr result (self.new ≡ self.old) }
    {
        let issuer = issuer();
        let command = match parse(alloc, issuer.id, text) {
            Ok(command) => command,
            Err(ParseFault::Syntax(fault)) => return Ok(Outcome::Faulty(fault)),
            Err(ParseFault::NoMemory) => return Err(AllocError),
        };
        if let Err(conflict) = self.database.check(&issuer, &command) {
            return Ok(Outcome::Refused(conflict));
        }
        self.accept(alloc, &command)?;
        Ok(Outcome::Accepted)
    }

    /// Makes the next image of the one before, and then the command.
    fn accept(&mut self, alloc: Global, command: &Command) -> Result<(), NoMemory>
        requires { conflict_of giver command.now self.old.state.rows ≡ None }
        ensures ok { OnOk result (self.new ≡ image_behind command.now self.old) }
        ensures err { OnErr result (self.new ≡ self.old) }
    {
        rows_are_changed();
        let change = self.database.prepare(alloc, &issuer(), command)?;
        let number = self.number.saturating_add(1);
        let image = self.image.after(alloc, &change, number)?;
        self.image = image;
        self.number = number;
        self.database.apply(change);
        Ok(())
    }
}

/// Written out, so that what the rows and an image are made of is let go in this crate alone.
impl Drop for Followed {
    fn drop(self) {
        let Followed {
            database: _,
            number: _,
            image: _,
        } = self;
    }
}

/// Who gives each command.
fn issuer() -> Issuer
    ensures { result ≡ giver }
{
    Issuer {
        id: ibmuser(),
        group: sys1(),
    }
}
