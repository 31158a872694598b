//! The example of docs/EMBEDDING.md as a whole program: it makes a desk, gives it commands by two issuers, verifies two
//! users and decides on two requests, and prints each step. Its database ends with it: the disks keep nothing. Who puts
//! the libraries into a program of his own may begin with a copy of it.
//!
//! ```
//! rt run      # in this folder: prints what `stdout` holds
//! ```
#![tactic(auto)]

use anyhow::{Result, anyhow};
use yilthen::{
    Acee, Desk, Error, FixedClass, Id, Image, Level, NameKind, NeverDisk, Request, Resource, Two,
    VerifyRequest, auth, verify,
};

/// The commands, with who gives each. PAX is no user, and the data set is not ANN's, so the last two are refused.
const COMMANDS: [(&str, &str); 6] = [
    ("IBMUSER", "ADDGROUP PAY OWNER(SYS1)"),
    ("IBMUSER", "ADDUSER ANN DFLTGRP(PAY)"),
    ("IBMUSER", "ADDSD 'PAY.**' UACC(NONE)"),
    ("IBMUSER", "PERMIT 'PAY.**' ID(PAY) ACCESS(READ)"),
    ("IBMUSER", "PERMIT 'PAY.**' ID(PAX) ACCESS(UPDATE)"),
    ("ANN", "PERMIT 'PAY.**' ID(ANN) ACCESS(UPDATE)"),
];

/// Goes through the steps, from a new database to two users' requests. A desk is never just let go: at the end it hands
/// back its disks.
fn main(rt: HostRuntime) -> Result<()> {
    let nothing_is_kept = Two {
        first: NeverDisk,
        second: NeverDisk,
    };
    let mut desk = match Desk::format(rt.alloc(), nothing_is_kept) {
        Ok(desk) => desk,
        Err((_, error)) => return Err(error.into()),
    };
    let shown = show(&rt, &mut desk);
    let _ = desk.into_disks();
    shown
}

/// Gives the commands, decides on the image behind them, and writes a checkpoint.
fn show(rt: &(impl Print + AllocGlobal), desk: &mut Desk<NeverDisk>) -> Result<()> {
    for (issuer, text) in COMMANDS {
        give(rt, desk, identifier(issuer)?, text)?;
    }
    let image = desk.image();
    println!(rt; "the image has {} users", image.user_count())?;
    show_user(rt, image, "ANN")?;
    show_user(rt, image, "BOB")?;
    desk.compact(rt.alloc())?;
    println!(rt; "a checkpoint of {} commands is written", desk.number())?;
    Ok(())
}

/// The ID that is spelled so.
fn identifier(text: &str) -> Result<Id> {
    Id::read(text.as_bytes()).map_err(|_| anyhow!("no identifier"))
}

/// Gives a command, by this issuer in his default group. Over disks that keep something, a command that is accepted
/// stands on them; where they fail, the desk takes no more, and the database is to be opened again.
fn give(
    rt: &(impl Print + AllocGlobal),
    desk: &mut Desk<NeverDisk>,
    issuer: Id,
    text: &str,
) -> Result<()> {
    match desk.execute(rt.alloc(), issuer, None, text.as_bytes()) {
        Ok(number) => println!(rt; "{number} accepted: {text}")?,
        Err(Error::Refused(refused)) => {
            println!(rt; "{} refused, {refused}: {text}", refused.number)?;
        }
        Err(error) => return Err(error.into()),
    }
    Ok(())
}

/// Verifies a user, and decides on two requests of his.
fn show_user(rt: &(impl Print + AllocGlobal), image: &Image, user: &str) -> Result<()> {
    let request = VerifyRequest {
        user: identifier(user)?,
        group: None,
        port: None,
        application: None,
        label: None,
    };
    match verify(rt.alloc(), image, &request) {
        Ok(acee) => {
            println!(rt; "{user} is verified")?;
            decide(rt, image, &acee, Level::Read)?;
            decide(rt, image, &acee, Level::Update)
        }
        Err(error) => {
            println!(rt; "{user} isn't verified: {error}")?;
            Ok(())
        }
    }
}

/// Decides whether the user of the ACEE may have that access to a data set.
fn decide(rt: &impl Print, image: &Image, acee: &Acee, asked: Level) -> Result<()> {
    let name = Resource::read(NameKind::DataSet, b"PAY.LIST").map_err(|_| anyhow!("no name"))?;
    let request = Request::new(FixedClass::Dataset.id(), name, asked).ok_or_else(|| anyhow!(
        "no request"
    ))?;
    let decision = auth(image, acee, &request);
    let answer = if decision.rc == 0 { "may" } else { "may not" };
    println!(rt; "{answer} have {asked:?}: code {}", decision.rc)?;
    Ok(())
}
