//! Passes, which decks give commands with, and what is left of them.
ghost use Rattle.std.specs.Prelude.{◌≡◌, ◌+◌, ◌<◌, IfOk};
ghost use Rattle.racroute.specs.Core.{new_passes};

use racf_profiles::NoMemory;
use std::alloc::Global;
use std::marker::Model;
use std::sync::ledger::{Book, Ledger, Share};

/// The right of a deck to give commands. Contracts see it as the deck's number, and the counts of its commands that
/// were accepted and that met a disk fault.
#[derive(Drop)]
pub struct DeckPass<S: Ledger, F: Ledger, P: Ledger> {
    /// The deck's number.
    pub(crate) deck: u32,
    /// Its share of the accepted commands.
    pub(crate) commands: Share<S>,
    /// Its share of the disk faults.
    pub(crate) faults: Share<F>,
    /// Its share of the passes that are out: it is one.
    pub(crate) out: Share<P>,
}

impl<S: Ledger, F: Ledger, P: Ledger> Model for DeckPass<S, F, P> {
    ghost use Rattle.std.specs.Prelude.{◌≡◌};
    ghost use Rattle.racroute.specs.Core.{Passing};

    ghost Value = { Passing };

    ghost view = { λ p. record { deck = p.deck; commands = p.commands.amount; faults = p.faults.amount } };

    ghost invariant = { λ p. (p.commands.parts ≡ 1) × (p.faults.parts ≡ 1) × (p.out.parts ≡ 1) × (p.out.amount ≡ 1) };
}

/// What is left of a pass that was handed in: the same counts.
#[derive(Drop)]
pub struct DeckEnd<S: Ledger, F: Ledger> {
    /// The deck's number.
    pub(crate) deck: u32,
    /// Its share of the accepted commands.
    pub(crate) commands: Share<S>,
    /// Its share of the disk faults.
    pub(crate) faults: Share<F>,
}

impl<S: Ledger, F: Ledger> Model for DeckEnd<S, F> {
    ghost use Rattle.std.specs.Prelude.{◌≡◌};
    ghost use Rattle.racroute.specs.Core.{Passing};

    ghost Value = { Passing };

    ghost view = { λ e. record { deck = e.deck; commands = e.commands.amount; faults = e.faults.amount } };

    ghost invariant = { λ e. (e.commands.parts ≡ 1) × (e.faults.parts ≡ 1) };
}

impl<S: Ledger, F: Ledger, P: Ledger> DeckPass<S, F, P> {
    /// A pass that nothing was done with, of what isn't given to other decks yet.
    pub(crate) fn cut(
        deck: u32,
        commands: &mut Share<S>,
        faults: &mut Share<F>,
        out: &mut Book<P>,
        left: &mut Share<P>,
    ) -> DeckPass<S, F, P>
        requires commands { (1 < commands.old.parts) × (commands.old.amount ≡ 0) }
        requires faults { (1 < faults.old.parts) × (faults.old.amount ≡ 0) }
        requires left { (1 < left.old.parts) × (left.old.amount ≡ 0) }
        ensures pass { result ≡ record { deck = deck; commands = 0; faults = 0 } }
        ensures commands { (commands.new.parts + 1 ≡ commands.old.parts) × (commands.new.amount ≡ 0) }
        ensures faults { (faults.new.parts + 1 ≡ faults.old.parts) × (faults.new.amount ≡ 0) }
        ensures left { (left.new.parts + 1 ≡ left.old.parts) × (left.new.amount ≡ 0) }
        ensures out { out.new.total ≡ out.old.total + 1 }
    {
        let mut one = left.split_off(1, 0);
        out.add(&mut one, 1);
        DeckPass {
            deck,
            commands: commands.split_off(1, 0),
            faults: faults.split_off(1, 0),
            out: one,
        }
    }
}

/// A pass for each deck.
pub(crate) fn new_passes<S: Ledger, F: Ledger, P: Ledger>(
    alloc: Global,
    decks: u32,
    commands: &mut Share<S>,
    faults: &mut Share<F>,
    out: &mut Book<P>,
    left: &mut Share<P>,
) -> Result<Vec<DeckPass<S, F, P>>, NoMemory>
    requires commands { (commands.old.parts ≡ decks + 1) × (commands.old.amount ≡ 0) }
    requires faults { (faults.old.parts ≡ decks + 1) × (faults.old.amount ≡ 0) }
    requires left { (left.old.parts ≡ decks + 1) × (left.old.amount ≡ 0) }
    requires out { out.old.total ≡ 0 }
    ensures passes { IfOk result (λ made. made.items ≡ new_passes decks) }
    ensures commands { IfOk result (λ made. (commands.new.parts ≡ 1) × (commands.new.amount ≡ 0)) }
    ensures faults { IfOk result (λ made. (faults.new.parts ≡ 1) × (faults.new.amount ≡ 0)) }
    ensures out { IfOk result (λ made. out.new.total ≡ decks) }
{
    let mut made = Vec::with_capacity(alloc, decks as usize)?;
    for deck in 0..decks {
        made.push(DeckPass::cut(deck, commands, faults, out, left))?;
    }
    Ok(made)
}
