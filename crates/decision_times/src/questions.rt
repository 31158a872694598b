//! Questions of users for access, and how they are decided.

use access_levels::Id;
use acee::{Acee, VerifyRequest};
use anyhow::{Result, anyhow};
use decision::{Decision, Request, auth};
use raclist_image::Image;
use std::alloc::Global;
use std::str;

/// Whether the user of the ACEE at that place may have this access.
#[derive(Drop)]
struct Question {
    /// Where the ACEE stands of the user who asks.
    place: usize,
    /// The access that is asked for.
    request: Request,
}

/// Questions, and the ACEEs of those who ask them.
#[derive(Drop)]
pub(crate) struct Questions {
    /// The ACEEs, which are known by their places.
    acees: Vec<Acee>,
    /// The questions, as they were added.
    items: Vec<Question>,
}

impl Questions {
    /// No questions.
    pub(crate) fn new(alloc: Global) -> Questions {
        Questions {
            acees: Vec::new(alloc),
            items: Vec::new(alloc),
        }
    }

    /// Adds the ACEE of a user, as the image has him.
    pub(crate) fn add_user(
        &mut self,
        alloc: Global,
        image: &Image,
        user: Id,
        group: Option<Id>,
    ) -> Result<()> {
        let request = VerifyRequest {
            user,
            group,
            port: None,
            application: None,
            label: None,
        };
        let Ok(acee) = Acee::of(alloc, image, &request) else {
            return Err(anyhow!("a user who is not verified"));
        };
        self.acees.push(acee)?;
        Ok(())
    }

    /// Adds a question of the user whose ACEE is at that place.
    pub(crate) fn add(&mut self, place: usize, request: Request) -> Result<()> {
        if place >= self.acees.len() {
            return Err(anyhow!("no ACEE at that place"));
        }
        self.items.push(Question { place, request })?;
        Ok(())
    }

    /// How often access is given where all questions are decided so many times.
    pub(crate) fn times_allowed(&self, image: &Image, times: u32) -> u32 {
        let mut allowed = 0u32;
        for _time in 0..times {
            allowed = allowed.wrapping_add(self.allowed(image));
        }
        allowed
    }

    /// How many of the questions are let through.
    fn allowed(&self, image: &Image) -> u32 {
        let mut allowed = 0u32;
        for question in &self.items {
            if let Some(decision) = self.decided(image, question) {
                allowed = allowed.wrapping_add(u32::from(decision.rc == 0));
            }
        }
        allowed
    }

    /// Prints the return code of each question and the profile that decided.
    pub(crate) fn print(&self, rt: &impl Print, image: &Image) -> Result<()> {
        for question in &self.items {
            if let Some(decision) = self.decided(image, question) {
                println!(rt; "{} {}", decision.rc, profile_name(&decision))?;
            }
        }
        Ok(())
    }

    /// The decision on a question.
    fn decided(&self, image: &Image, question: &Question) -> Option<Decision> {
        let acee = self.acees.get(question.place)?;
        Some(auth(image, acee, &question.request))
    }
}

/// The name of the profile that decided, or `-`.
fn profile_name(decision: &Decision) -> &str {
    match &decision.profile {
        Some(profile) => str::from_utf8(profile.text()).unwrap_or("?"),
        None => "-",
    }
}
