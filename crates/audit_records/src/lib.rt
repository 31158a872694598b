//! Audit records: which decisions are logged, and the line that is printed of them.
//!
//! [`logged`] tells whether a [`Decision`](decision::Decision) is logged: by the log option of its class, the user's
//! UAUDIT, and what the deciding profile asks for, which the decision carries. [`write_line`] writes the line of one
//! that is: its [`Outcome`], the user, the class, the name, and the level that was asked. Decisions are those of
//! `decision`, and the log options stand in an image of `raclist_image`. [`logged`] takes no memory.
//!
//! ```
//! let decision = auth(&image, &acee, &request);
//! if logged(&image, &acee, &request, false, &decision) {
//!     write_line(&acee, &request, &decision, &mut out)?;      // AUDIT FAILURE JOE DATASET SYS1.A READ
//! }
//! ```
#![tactic(auto)]

mod cases;
pub mod laws;
mod line;

pub use cases::logged;
pub use line::{Outcome, write_line};
