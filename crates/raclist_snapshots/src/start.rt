//! How a history begins to be published.
ghost use Rattle.std.specs.Prelude.{◌≡◌, ◌<◌, [], length, false, None, IfOk};
ghost use Rattle.std.specs.List.{All};
ghost use Rattle.std.specs.Arc.{arc_value};

use crate::caller::Caller;
use crate::note::Note;
use crate::publisher::Publisher;
use crate::shown::{Fresh, Shown};
use command_history::{Naming, Opened};
use left_right::WriteHandle;
use racf_profiles::NoMemory;
use raclist_image::Image;
use std::alloc::{AllocError, Global};
use std::sync::{Arc, Wait};

/// The publisher of a new history, and so many callers, none of whom has seen anything but the image at which it
/// begins. The history is the one of the name `J`, and so is where it begins.
#[tactic(auto, using(command_history::proofs::Leading::reached_none))]
pub fn snapshots<'a, J: Naming, Q: Wait>(
    rt: &'a Q,
    alloc: Global,
    opened: Opened,
    image: Arc<Image, Global>,
    callers: u32,
) -> Result<
    (
        Publisher<J, Shown<Note<J>>, Fresh<Note<J>>, &'a Q>,
        Vec<Caller<J>>,
    ),
    NoMemory,
>
    requires book { opened ≡ J.book }
    requires base { arc_value image ≡ J.base.image }
    requires some { 0 < callers }
    ensures publisher { IfOk result (λ made. made.0 ≡ record { events = []; held = None; told = false }) }
    ensures callers { IfOk result (λ made. All (λ caller. caller ≡ record { events = []; learned = 0 }) made.1.items) }
    ensures count { IfOk result (λ made. length made.1.items ≡ callers) }
{
    let (book, front) = opened.named::<J>();
    let turn = book.turn(&front, 0).ok_or(AllocError)?;
    let note = Note::of(image, front);
    let spare = note.shared()?;
    let writer = WriteHandle::new(
        alloc,
        rt,
        Shown::nothing(),
        Shown::nothing(),
        callers as usize,
    )?;
    let seated = seated(alloc, &writer, &note, callers)?;
    Ok((Publisher::new(writer, book, note, turn, spare), seated))
}

/// So many callers, which have seen this.
fn seated<J: Naming, Q: Wait + Drop>(
    alloc: Global,
    writer: &WriteHandle<Shown<Note<J>>, Fresh<Note<J>>, Q>,
    note: &Note<J>,
    callers: u32,
) -> Result<Vec<Caller<J>>, NoMemory>
    ensures callers { IfOk result (λ made. All (λ caller. caller ≡ record { events = note.now; learned = 0 }) made.items) }
    ensures count { IfOk result (λ made. length made.items ≡ callers) }
{
    let mut made = Vec::with_capacity(alloc, callers as usize)?;
    for count in 0..callers {
        made.push(Caller::new(writer.handle()?, note.again()?))?;
    }
    Ok(made)
}
