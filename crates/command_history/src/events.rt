//! What a history is made of.
use access_levels::Text;
use command_parser::Issuer;

/// An entry: a command that was accepted.
#[derive(Drop)]
pub struct Accepted {
    /// Which deck's command it was.
    pub deck: u32,
    /// Who gave it, with the group that was current for him.
    pub issuer: Issuer,
    /// Its canonical text.
    pub text: Text,
}

/// What may come next in a history.
#[derive(Drop)]
pub enum Event {
    /// A command was accepted.
    Added(Accepted),
    /// The final mark, behind which nothing comes: the entry of the command that a disk failed, where one did.
    Ended(Option<Accepted>),
}
