//! Repeats look-ups and decisions in process, with no text read or written between them, so that a script can measure
//! what one costs. Each row of standard input is a letter and words; each is worked at once.
//!
//! Rows that make what is asked:
//! - `C command`: gives a command to the database, as IBMUSER in the group SYS1;
//! - `I`: makes an image of all rows of the database as they stand, which the rows below read until the next `I` or
//!   `J`;
//! - `J`: takes the image in its place that the commands made, each of the one before;
//! - `V user`, `V user group`: adds the ACEE of a user, which is known by its place from 0;
//! - `Q place level class name`: adds a question: whether the user of the ACEE at that place may have that access;
//! - `E user-or-group level`: puts an entry into an access list of its own, which no profile has;
//! - `G group`: adds a group to those by which that list is asked.
//!
//! Rows that ask, each so many times, and print how often the answer was yes:
//! - `A times`: decides on all questions, and tells how many were let through;
//! - `U times user..`, `K times class..`: looks each user, each class up in the image;
//! - `F times class name..`: looks for the profile of the image that decides on each name;
//! - `L times user`: asks which entry of the access list counts for a user with those groups.
//!
//! `D` prints the return code of each question once, and the profile that decided or `-`. The first row that can't be
//! worked ends the program, which names the cause.
#![tactic(auto)]

mod lists;
mod lookups;
mod questions;
mod row_words;
mod system;

use anyhow::{Result, anyhow};
use lists::List;
use questions::Questions;
use row_words::{id, level, parted, request, times};
use std::alloc::Global;
use system::System;

/// What the rows have made.
#[derive(Drop)]
struct Bench {
    /// The database, and its image.
    system: System,
    /// The questions that rows have added.
    questions: Questions,
    /// The access list that rows have made.
    list: List,
}

impl Bench {
    /// A new database, and nothing to be asked.
    fn new(alloc: Global) -> Result<Bench> {
        Ok(Bench {
            system: System::new(alloc)?,
            questions: Questions::new(alloc),
            list: List::new(alloc),
        })
    }

    /// Does what a row asks for.
    fn run_row(&mut self, rt: &(impl Print + AllocGlobal), row: &str) -> Result<()> {
        let (verb, rest) = parted(row);
        match verb {
            "C" => self.system.command(rt.alloc(), rest),
            "I" => self.system.make_image(rt.alloc()),
            "J" => self.system.take_image(),
            "V" => self.verify(rt.alloc(), rest),
            "Q" => self.question(rest),
            "E" => self.entry(rest),
            "G" => self.list.add_group(id(rest)?),
            _ => self.ask(rt, verb, rest),
        }
    }

    /// Works a row that asks.
    fn ask(&self, rt: &(impl Print + AllocGlobal), verb: &str, rest: &str) -> Result<()> {
        if verb == "D" {
            return self.questions.print(rt, self.system.image()?);
        }
        let (count, rest) = parted(rest);
        let times = times(count)?;
        let found = match verb {
            "A" => self.questions.times_allowed(self.system.image()?, times),
            "U" => lookups::users(rt.alloc(), self.system.image()?, times, rest)?,
            "K" => lookups::classes(rt.alloc(), self.system.image()?, times, rest)?,
            "F" => lookups::profiles(rt.alloc(), self.system.image()?, times, rest)?,
            "L" => self.list.times_found(id(rest)?, times),
            _ => return Err(anyhow!("no such row")),
        };
        println!(rt; "{found}")?;
        Ok(())
    }

    /// Adds the ACEE of a user, in a group where one is named.
    fn verify(&mut self, alloc: Global, row: &str) -> Result<()> {
        let (user, group) = parted(row);
        let user = id(user)?;
        let group = if group.is_empty() {
            None
        } else {
            Some(id(group)?)
        };
        self.questions
            .add_user(alloc, self.system.image()?, user, group)
    }

    /// Adds a question.
    fn question(&mut self, row: &str) -> Result<()> {
        let (place, rest) = parted(row);
        let (asked, rest) = parted(rest);
        let (class, name) = parted(rest);
        let request = request(id(class)?, name, level(asked)?)?;
        self.questions.add(place.parse::<usize>()?, request)
    }

    /// Puts an entry into the access list.
    fn entry(&mut self, row: &str) -> Result<()> {
        let (who, given) = parted(row);
        self.list.put(id(who)?, level(given)?)
    }
}

/// Works the rows of standard input.
fn main(rt: HostRuntime) -> Result<()> {
    let mut bench = Bench::new(rt.alloc())?;
    for line in rt.lines(rt.alloc()) {
        let line = line?;
        bench.run_row(&rt, line.as_str())?;
    }
    Ok(())
}
