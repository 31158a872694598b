//! Verifies users and decides, as the rows of standard input ask, and prints each answer whole: what images, ACEEs and
//! decisions are over databases that commands made. The rows stand in `stdin`, what they print in `stdout`.
//!
//! Rows that make what is asked:
//! - `C command`: gives a command to the database, as IBMUSER in the group SYS1. A text or a command that is refused is
//!   printed with its cause, and one that is accepted prints nothing;
//! - `I number`: makes the image of the database as it stands under that number, which the rows below read until the
//!   next `I`, and prints the number, the options, and how many users there are, with the first and the last.
//! - `D`: begins anew with a new database, and prints `new database`;
//! - `A`: takes the image that follows the database, which each accepted command makes anew of the one before it, for
//!   the rows below until the next `I` or `A`, and prints the same of it.
//!
//! Rows that compare the image that follows the database with one that is made of all its rows:
//! - `N id`, `R class name`: names an ID, or a resource, that both are asked for from here on;
//! - `E`: asks both by each call that reads an image, and prints the first answer in which they differ;
//! - `T`: prints in how many of the comparisons since the last `T` no answer differed.
//!
//! Rows that ask the image, and print what it has, or `none`:
//! - `U user`, `G group`, `K class`: a user, a group, the flags of a class with the number of its profiles;
//! - `P class name`: the facts of the profile that decides on a name;
//! - `S group owner`: whether a profile of that owner is in scope of the group.
//!
//! All other rows are lines of requests, as `request_files` reads them:
//! - `VERIFY a user` with operands: prints the user's ACEE with all that it holds, in which a `*` marks a group with
//!   group-OPERATIONS, and keeps it under the name `a`; or prints why he isn't verified;
//! - `AUTH a class name level` and `FASTAUTH` with the same words: prints the decision with all that it holds;
//! - `/* text` prints nothing.
//!
//! The first row that can't be worked ends the program, which names the cause.
//!
//! ```
//! C ADDUSER JOE DFLTGRP(SYS1)
//! I 7
//! VERIFY A JOE TERMINAL(T1)
//! AUTH A DATASET JOE.LIST READ
//! ```
#![tactic(auto)]

mod answers;
mod commands;
mod compared;
mod equal;
mod looks;
mod row_words;

use access_levels::Id;
use acee::{Acee, VerifyFault, VerifyRequest};
use anyhow::{Result, anyhow};
use commands::give;
use compared::{Asked, Difference, first_difference};
use decision::{auth, fastauth, verify};
use followed_images::{Followed, TakenImage};
use raclist_image::Image;
use request_files::{AceeTable, RequestLine, read_line};
use row_words::{id, parted, request_to_read, text};
use std::alloc::Global;

/// What the rows have made.
#[derive(Drop)]
struct Session {
    /// The database that the commands change, and the image that follows it.
    database: Followed,
    /// The image that rows ask.
    image: Option<TakenImage>,
    /// The ACEEs of those who were verified.
    acees: AceeTable,
    /// What images are asked for where they are compared.
    asked: Asked,
    /// How many comparisons there were since they were counted last.
    compared: u64,
    /// In how many of them no answer differed.
    same: u64,
}

impl Session {
    /// A new database, no image and no ACEE.
    fn new(alloc: Global) -> Result<Session> {
        Ok(Session {
            database: Followed::new(alloc)?,
            image: None,
            acees: AceeTable::new(alloc)?,
            asked: Asked {
                ids: Vec::new(alloc),
                resources: Vec::new(alloc),
            },
            compared: 0,
            same: 0,
        })
    }

    /// Does what a row asks for.
    fn run_row(&mut self, rt: &(impl Print + AllocGlobal), row: &str) -> Result<()> {
        let (verb, rest) = parted(row);
        match verb {
            "C" => give(rt, &mut self.database, rest),
            "D" => self.begin_anew(rt),
            "I" => self.make_image(rt, rest),
            "A" => self.take_image(rt),
            "N" => self.ask_for_id(rest),
            "R" => self.ask_for_resource(rest),
            "E" => self.compare(rt),
            "T" => self.tell_same(rt),
            "U" => looks::print_user(rt, self.image()?, rest),
            "G" => looks::print_group(rt, self.image()?, rest),
            "K" => looks::print_class(rt, self.image()?, rest),
            "P" => looks::print_profile(rt, self.image()?, rest),
            "S" => looks::print_scope(rt, self.image()?, rest),
            _ => self.answer(rt, row),
        }
    }

    /// Begins anew with a new database.
    fn begin_anew(&mut self, rt: &(impl Print + AllocGlobal)) -> Result<()> {
        self.database = Followed::new(rt.alloc())?;
        println!(rt; "new database")?;
        Ok(())
    }

    /// Makes the image of the database under a number.
    fn make_image(&mut self, rt: &(impl Print + AllocGlobal), number: &str) -> Result<()> {
        let image = self
            .database
            .image_of_rows(rt.alloc(), number.parse::<u64>()?)?;
        looks::print_image(rt, image.image())?;
        self.image = Some(image);
        Ok(())
    }

    /// Takes the image that follows the database.
    fn take_image(&mut self, rt: &impl Print) -> Result<()> {
        let image = self.database.take()?;
        looks::print_image(rt, image.image())?;
        self.image = Some(image);
        Ok(())
    }

    /// Has both images asked for an ID.
    fn ask_for_id(&mut self, word: &str) -> Result<()> {
        self.asked.ids.push(id(word)?)?;
        Ok(())
    }

    /// Has both images asked for a resource of a class.
    fn ask_for_resource(&mut self, row: &str) -> Result<()> {
        self.asked.resources.push(request_to_read(row)?)?;
        Ok(())
    }

    /// Compares the image that follows the database with one that is made of all its rows.
    fn compare(&mut self, rt: &(impl Print + AllocGlobal)) -> Result<()> {
        let whole = self
            .database
            .image_of_rows(rt.alloc(), self.database.number())?;
        self.compared = self.compared.saturating_add(1);
        match first_difference(self.database.image(), whole.image(), &self.asked) {
            Some(found) => print_difference(rt, &found),
            None => {
                self.same = self.same.saturating_add(1);
                Ok(())
            }
        }
    }

    /// Prints in how many comparisons no answer differed, and begins to count anew.
    fn tell_same(&mut self, rt: &impl Print) -> Result<()> {
        println!(rt; "same {} of {}", self.same, self.compared)?;
        self.compared = 0;
        self.same = 0;
        Ok(())
    }

    /// Works a line of a request.
    fn answer(&mut self, rt: &(impl Print + AllocGlobal), line: &str) -> Result<()> {
        match &read_line(line.as_bytes()) {
            Ok(RequestLine::Verify(name, request)) => {
                let name: Id = *name;
                self.verify(rt, name, request)
            }
            Ok(RequestLine::Auth(name, request)) => {
                let name: Id = *name;
                let decision = auth(self.image()?, self.acee(name)?, request);
                answers::print_decision(rt, &decision)
            }
            Ok(RequestLine::Fastauth(name, request)) => {
                let name: Id = *name;
                let decision = fastauth(self.image()?, self.acee(name)?, request);
                answers::print_decision(rt, &decision)
            }
            Ok(RequestLine::Skip) => Ok(()),
            _ => Err(anyhow!("no such row: {line}")),
        }
    }

    /// Verifies a user, and keeps his ACEE under the name.
    fn verify(
        &mut self,
        rt: &(impl Print + AllocGlobal),
        name: Id,
        request: &VerifyRequest,
    ) -> Result<()> {
        match verify(rt.alloc(), self.image()?, request) {
            Ok(acee) => {
                answers::print_acee(rt, &acee)?;
                match self.acees.put(name, acee) {
                    Ok(()) => Ok(()),
                    Err(_) => Err(anyhow!("no place for the ACEE")),
                }
            }
            Err(VerifyFault::NoMemory) => Err(anyhow!("no memory for an ACEE")),
            Err(fault) => {
                println!(rt; "{fault:?}")?;
                Ok(())
            }
        }
    }

    /// The ACEE of that name.
    fn acee(&self, name: Id) -> Result<&Acee> {
        match self.acees.get(name) {
            Some(acee) => Ok(acee),
            None => Err(anyhow!("no ACEE of that name")),
        }
    }

    /// The image that was made last.
    fn image(&self) -> Result<&Image> {
        match &self.image {
            Some(image) => Ok(image.image()),
            None => Err(anyhow!("no image")),
        }
    }
}

/// Prints in which answer two images differ.
fn print_difference(rt: &impl Print, found: &Difference<'_>) -> Result<()> {
    match found {
        Difference::Whole => println!(rt; "differs: number, options or number of users")?,
        Difference::Place(place) => println!(rt; "differs: user at {place}")?,
        Difference::Name(id) => println!(rt; "differs: {}", text(id.text()))?,
        Difference::Cover(resource) => {
            println!(rt; "differs: profile of {}", text(resource.name.text()))?
        }
    }
    Ok(())
}

/// Works the rows of standard input.
fn main(rt: HostRuntime) -> Result<()> {
    let mut session = Session::new(rt.alloc())?;
    for line in rt.lines(rt.alloc()) {
        let line = line?;
        session.run_row(&rt, line.as_str())?;
    }
    Ok(())
}
