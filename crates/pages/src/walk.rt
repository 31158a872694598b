ghost use Rattle.std.specs.Prelude.{◌≡◌};
ghost use Rattle.std.specs.Iterator.{YieldsFirstRef, item_count};

use crate::pages::Pages;
use std::sync::Arc;

/// The items of a list from a place on, in order. It takes a leaf at a time, so a step costs no search.
#[derive(Drop)]
pub struct Walk<'a, T: Drop> {
    /// The list that is walked.
    pages: &'a Pages<T>,
    /// The place behind the leaf that is being walked.
    next: usize,
    /// What is left of that leaf.
    leaf: &'a [Arc<T>],
}

impl<'a, T: Drop> Walk<'a, T> {
    ghost use Rattle.pages.specs.Walk.{left};

    /// A walk over a whole list.
    pub(crate) fn new(pages: &'a Pages<T>) -> Walk<'a, T>
        ensures { left result ≡ pages.now }
    {
        Walk {
            pages,
            next: 0,
            leaf: &[],
        }
    }
}

impl<'a, T: Drop> Iterator for Walk<'a, T> {
    ghost use Rattle.pages.specs.Walk.{left};

    type Item = &'a T;

    ghost next_gives = { YieldsFirstRef left };

    ghost remaining = { item_count left };

    fn next(&mut self) -> Option<&'a T> {
        if self.leaf.is_empty() && self.next < self.pages.len() {
            self.leaf = self.pages.leaf_from(self.next);
            self.next += self.leaf.len();
        }
        let (item, rest) = self.leaf.split_first()?;
        self.leaf = rest;
        Some(item)
    }
}
