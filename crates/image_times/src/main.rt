//! Makes databases of an image, or images of a database, so that a script can measure what one costs. Standard input is
//! the image, and the words are one of these and a number:
//! - `read times`: makes a database of the image so many times, and drops it;
//! - `write times`: copies the rows of the image's database so many times, and writes their image.
//!
//! Either prints how many bytes the image has and how many users, or that a field of it has no lawful value, and where.
//! For this the database is made once, and its rows are copied once, also where the number is 0.
#![tactic(auto)]

use anyhow::{Context, Result, anyhow};
use database_image::write;
use racf_database::Database;
use std::alloc::Global;
use std::env;
use std::env::Env;
use std::io::Read;
use stored_database::{RowsFault, of_image};

/// The words of the command line, without the program's name.
fn words<R: Env + AllocGlobal>(rt: &R) -> Result<Vec<String>> {
    Ok(env::args(rt)?.skip(1).collect(rt.alloc())?)
}

/// The bytes of standard input.
fn input(rt: &(impl Input + AllocGlobal)) -> Result<Vec<u8>> {
    let mut bytes = Vec::new(rt.alloc());
    let mut reader = rt.reader();
    reader.read_to_end(&mut bytes)?;
    Ok(bytes)
}

/// Makes a database of the image so many times.
fn read_times(alloc: Global, image: &[u8], times: u32) -> Result<()> {
    for _time in 0..times {
        let _database = of_image(alloc, image)?;
    }
    Ok(())
}

/// Writes the image of the database's rows so many times.
fn write_times(alloc: Global, database: &Database, times: u32) -> Result<()> {
    for _time in 0..times {
        let rows = database.to_rows(alloc)?;
        let _image = write(alloc, &rows)?;
    }
    Ok(())
}

/// Does what the words ask for, with the image and its database.
fn repeat(alloc: Global, words: &[String], image: &[u8], database: &Database) -> Result<()> {
    let [verb, times] = words else {
        return Err(anyhow!("usage: image_times read|write TIMES"));
    };
    let times = times.as_str().parse::<u32>().context("times")?;
    match verb.as_str() {
        "read" => read_times(alloc, image, times),
        "write" => write_times(alloc, database, times),
        _ => Err(anyhow!("no such word")),
    }
}

/// Works the image of standard input as the words ask for.
fn main(rt: HostRuntime) -> Result<()> {
    let words = words(&rt)?;
    let image = input(&rt)?;
    match of_image(rt.alloc(), &image) {
        Ok(database) => {
            repeat(rt.alloc(), &words, &image, &database)?;
            let rows = database.to_rows(rt.alloc())?;
            println!(rt; "bytes {} users {}", image.len(), rows.users.items.len())?;
        }
        Err(RowsFault::BadRow(place)) => println!(rt; "no lawful value at byte {place}")?,
        Err(RowsFault::NoMemory) => return Err(anyhow!("no memory")),
    }
    Ok(())
}
