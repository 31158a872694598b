ghost use Rattle.std.specs.Prelude.{◌≡◌, ◌⊎◌, ℕ, ◌+◌, ◌<◌, ◌≤◌, false, true, length, map, slice_index, IfSome, IsSome};
ghost use Rattle.generic_names.specs.Spelled.{qualifiers};
ghost use Rattle.generic_names.specs.Before.{ranks};
ghost use Rattle.generic_names.specs.Gap.{is_below, begin_apart, NoneCovers};
ghost use Rattle.generic_names.specs.Reading.{rest_at};
ghost use Rattle.generic_names.specs.Follows.{may_follow};
ghost use Rattle.generic_names.specs.OrderKey.{squeezed, AreRanks};

use crate::order::Ranks;
use crate::order_key::OrderKey;
use crate::resource::Resource;
use std::marker::Model;

/// How far, in the order of specificity, no pattern covers a name: up to those that begin as a certain
/// pattern does and go on with a certain rank or a higher one.
#[derive(Drop)]
pub struct Gap<'a> {
    /// The pattern with whose ranks those begin that are passed over.
    text: &'a [u8],
    /// With how many of its ranks they begin.
    count: usize,
    /// The least rank with which they go on.
    least: u16,
}

impl<'a> Model for Gap<'a> {
    ghost use Rattle.std.specs.Prelude.{ℕ, ◌<◌, List, [], ◌∷◌, ◌++◌, length, take};
    ghost use Rattle.generic_names.specs.Spelled.{qualifiers};
    ghost use Rattle.generic_names.specs.Before.{ranks};
    ghost use Rattle.generic_names.specs.GapRanks.{IsWithin};

    ghost Value = { List ℕ };

    ghost view = { λ g. take g.count (ranks (qualifiers g.text.now)) ++ g.least ∷ [] };

    ghost invariant = { λ g. IsWithin g.text.now g.count g.least };
}

impl<'a> Gap<'a> {
    /// The gap behind a pattern that doesn't cover a name, if it ends behind other patterns than that one.
    pub(crate) fn behind(pattern: &'a [u8], name: &Resource) -> Option<Gap<'a>>
        requires fits { length pattern.now ≤ 246 }
        requires ranked { AreRanks (ranks (qualifiers pattern.now)) }
        ensures none { IfSome result (λ gap. NoneCovers (record { kind = name.now.kind; text = pattern.now }) gap name.now) }
        ensures onward { IfSome result (λ gap. is_below (record { kind = name.now.kind; text = pattern.now }) gap ≡ true) }
        ensures comes { begin_apart pattern.now name.now.text ≡ true → IsSome result }
    {
        let text = name.text();
        let mut these = Ranks::of(pattern);
        let mut begun = true;
        for count in 0..text.len() + 2 {
            let rank = these.next();
            let least = least_that_follows(text, begun, count, rank);
            if rank < least {
                return Some(Gap {
                    text: pattern,
                    count,
                    least,
                });
            }
            if rank > 257 {
                return None;
            }
            begun = rank == 257;
        }
        None
    }

    /// The place of its end in the order of specificity, as bytes. A pattern lies before the end exactly if its
    /// key is lower.
    pub fn order_key(&self) -> OrderKey
        ensures key { result ≡ map squeezed self.now }
        ensures ranked { AreRanks self.now }
    {
        let mut key = OrderKey::of_first(self.text, self.count);
        key.push(self.least);
        key
    }
}

/// The least rank from this one on that a pattern may have where a name has been met up to a place.
fn least_that_follows(name: &[u8], begun: bool, at: usize, rank: u16) -> u16
    requires { rank ≤ 260 }
    ensures from { rank ≤ result }
    ensures least { (at < length name.now × (result ≡ slice_index name.now at)) ⊎ (255 < result × (result < 261)) }
    ensures none { (c : ℕ) → rank ≤ c → c < result → may_follow begun (rest_at name.now at) c ≡ false }
    ensures byte { result ≡ rank → rank < 257 → at < length name.now × (slice_index name.now at ≡ 46 → ⊥) }
    ensures same { result ≡ rank → rank < 256 → at < length name.now × (slice_index name.now at ≡ rank) }
    ensures end { result ≡ rank → rank ≡ 257 → at ≤ length name.now × (at < length name.now → slice_index name.now at ≡ 46) }
{
    if at > name.len() {
        return rank.max(259);
    }
    if at == name.len() || name[at] == b'.' {
        return if rank <= 257 {
            257
        } else if rank == 259 {
            260
        } else {
            rank
        };
    }
    let byte = u16::from(name[at]);
    if rank <= byte {
        byte
    } else if rank <= 256 {
        256
    } else if rank <= 258 {
        258
    } else {
        260
    }
}
