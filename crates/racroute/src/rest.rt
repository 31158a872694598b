//! What no pass has of the ledgers.
ghost use Rattle.std.specs.Prelude.{◌≡◌, ◌+◌, vec_len};
ghost use Rattle.std.specs.List.{sum_by};

use crate::passes::DeckEnd;
use std::marker::Model;
use std::sync::ledger::{Ledger, Share};

/// What is left of the ledgers of commands and of faults when each deck has its pass. Contracts see it as the number of
/// the decks, which with it are all that have a part.
#[derive(Drop)]
pub(crate) struct Rest<S: Ledger, F: Ledger> {
    /// The rest of the accepted commands: none.
    commands: Share<S>,
    /// The rest of the disk faults: none.
    faults: Share<F>,
    /// How many passes there were.
    decks: u32,
}

impl<S: Ledger, F: Ledger> Model for Rest<S, F> {
    ghost use Rattle.std.specs.Prelude.{◌≡◌, ◌+◌, ℕ};

    ghost Value = { ℕ };

    ghost view = { λ r. r.decks };

    ghost invariant = { λ r. (r.commands.parts ≡ 1) × (r.commands.amount ≡ 0) × (r.faults.parts ≡ 1) × (r.faults.amount ≡ 0)
        × (r.decks + 1 ≡ S.parts) × (r.decks + 1 ≡ F.parts) };
}

impl<S: Ledger, F: Ledger> Rest<S, F> {
    /// What is left when so many passes are cut.
    pub(crate) fn new(commands: Share<S>, faults: Share<F>, decks: u32) -> Rest<S, F>
        requires commands { (commands.parts ≡ 1) × (commands.amount ≡ 0) }
        requires faults { (faults.parts ≡ 1) × (faults.amount ≡ 0) }
        requires all { (decks + 1 ≡ S.parts) × (decks + 1 ≡ F.parts) }
        ensures { result ≡ decks }
    {
        Rest {
            commands,
            faults,
            decks,
        }
    }

    /// How many decks there were.
    pub(crate) fn decks(&self) -> u32
        ensures decks { result ≡ self.now }
        ensures parts { result + 1 ≡ S.parts }
    {
        self.decks
    }

    /// Both ledgers whole: the rest, with all ends.
    pub(crate) fn with_all(self, ends: Vec<DeckEnd<S, F>>) -> (Share<S>, Share<F>)
        requires all { vec_len ends ≡ self }
        ensures commands { (result.0.parts ≡ S.parts) × (result.0.amount ≡ sum_by (λ e. e.commands) ends.items) }
        ensures faults { (result.1.parts ≡ F.parts) × (result.1.amount ≡ sum_by (λ e. e.faults) ends.items) }
    {
        let Rest {
            mut commands,
            mut faults,
            decks: _,
        } = self;
        gather(&mut commands, &mut faults, ends);
        (commands, faults)
    }
}

/// Puts the shares of the ends to these.
fn gather<S: Ledger, F: Ledger>(
    commands: &mut Share<S>,
    faults: &mut Share<F>,
    ends: Vec<DeckEnd<S, F>>,
)
    ensures commands { (commands.new.parts ≡ commands.old.parts + vec_len ends)
        × (commands.new.amount ≡ commands.old.amount + sum_by (λ e. e.commands) ends.items) }
    ensures faults { (faults.new.parts ≡ faults.old.parts + vec_len ends)
        × (faults.new.amount ≡ faults.old.amount + sum_by (λ e. e.faults) ends.items) }
{
    for end in ends {
        let DeckEnd {
            deck: _,
            commands: given,
            faults: failed,
        } = end;
        commands.merge(given);
        faults.merge(failed);
    }
}
