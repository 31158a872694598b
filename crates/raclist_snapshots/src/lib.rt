//! One history, published: images that callers read, of whom each sees a history that only grows.
//!
//! A history of `command_history` has one [`Publisher`] and any number of [`Caller`]s, which [`snapshots`] makes.
//! Behind each accepted command the publisher shows the image of the state that it led to. A caller keeps the newest
//! image that it has seen: [`Caller::enter`] looks for a newer one, waits for nobody and is never refused, and where
//! there is none it writes to no memory that others read. A [`Note`] is what the publisher tells somebody at once, in
//! the middle of a command or at the end; whoever learns it has seen no less.
//!
//! What is published, told and kept is the same pair: an image, with the history that it is the image of. So
//! [`Caller::image`] is always the state behind what the caller has seen, and of what two callers have seen one is a
//! beginning of the other. The type parameter `J` says which history it is, and where it begins. The images are those
//! of `raclist_image`, the positions those of `desk_rules`; a command's way through a desk and through this is the
//! work of the layer above.
//!
//! ```
//! publisher.hold(alloc, image, &entry)?;     // takes all memory; what comes behind it isn't refused
//! desk.commit(&ready)?;                      // now the command counts
//! publisher.publish(&entry);                 // whoever looks from now on sees it
//! caller.enter();                            // in a thread of its own, at any time
//! answer(caller.image())                     // all on one image, whatever is published meanwhile
//! ```
#![tactic(auto)]

mod caller;
mod held;
mod note;
mod publisher;
mod shown;
mod start;

pub use caller::Caller;
pub use note::Note;
pub use publisher::Publisher;
pub use shown::{Fresh, Opens, Shown, Slot};
pub use start::snapshots;
