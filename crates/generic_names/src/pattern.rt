ghost use Rattle.std.specs.Prelude.{◌≡◌, true, Ok, IfOk, IfSome, IsSome};
ghost use Rattle.std.specs.Result.{result_ok};
ghost use Rattle.generic_names.specs.Faults.{pattern_of};
ghost use Rattle.generic_names.specs.Covers.{is_generic, covers};
ghost use Rattle.generic_names.specs.Before.{before, order};
ghost use Rattle.generic_names.specs.Gap.{is_below, begin_apart, NoneCovers};
ghost use Rattle.generic_names.specs.OrderKey.{order_key};

use crate::covering::covers_text;
use crate::fault::NameFault;
use crate::form::Form;
use crate::gap::Gap;
use crate::kind::NameKind;
use crate::order::compare;
use crate::order_key::OrderKey;
use crate::reading::{fault_in, has_generic_byte};
use crate::resource::Resource;
use crate::spelling::Spelling;
use std::cmp::Ordering;
use std::marker::Model;

/// The name of a profile, discrete or generic. `%` stands for one byte other than a period, a `*` at
/// the end of a qualifier for the rest of it, a whole qualifier `*` for one qualifier and `**` for any
/// number. The `*` that ends the name of a general class reaches to the end of the resource's name.
/// (After RACF's enhanced generic naming, always on; in detail this product's own rules.)
#[derive(Clone, Copy)]
pub struct Pattern {
    /// Its text, with its kind.
    name: Spelling,
}

impl Model for Pattern {
    ghost use Rattle.std.specs.Prelude.{◌≡◌, Ok};
    ghost use Rattle.generic_names.specs.Spelled.{Spelled};
    ghost use Rattle.generic_names.specs.Faults.{pattern_of};

    ghost Value = { Spelled };

    ghost view = { λ p. p.name };

    ghost invariant = { λ p. pattern_of p.name.kind p.name.text ≡ Ok p.name };

    ghost inverse = { λ name. record { name = name } };
}

impl Pattern {
    /// Reads the name of a profile of this kind. Lower case is not folded.
    pub fn read(kind: NameKind, bytes: &[u8]) -> Result<Pattern, NameFault>
        ensures name { result ≡ pattern_of kind bytes.now }
        ensures kind { IfOk result (λ name. name.kind ≡ kind) }
    {
        if let Some(fault) = fault_in(Form::Generic, kind, bytes) {
            return Err(fault);
        }
        Ok(Pattern {
            name: Spelling::of(kind, bytes),
        })
    }

    /// The discrete pattern of a resource's very name.
    pub fn discrete(name: &Resource) -> Pattern
        ensures { result ≡ name.now }
    {
        Pattern {
            name: Spelling::of(name.kind(), name.text()),
        }
    }

    /// The pattern with this spelling, if it is the name of one.
    pub(crate) fn spelled(name: Spelling) -> Option<Pattern>
        ensures { result ≡ result_ok (pattern_of name.kind name.text) }
    {
        if fault_in(Form::Generic, name.kind(), name.text()).is_some() {
            return None;
        }
        Some(Pattern { name })
    }

    /// Whose name it is.
    pub fn kind(&self) -> NameKind
        ensures { result ≡ self.now.kind }
    {
        self.name.kind()
    }

    /// The name as it was read.
    pub fn text(&self) -> &[u8]
        ensures text { result.now ≡ self.now.text }
        ensures name { pattern_of self.now.kind self.now.text ≡ Ok self.now }
    {
        self.name.text()
    }

    /// Whether it has a generic character.
    pub fn is_generic(&self) -> bool
        ensures { result ≡ is_generic self.now }
    {
        has_generic_byte(self.name.text())
    }

    /// Whether it covers the name of a resource. This takes about as many steps as the two names have
    /// bytes, and with `**` at most as many as the product of their lengths. The very name needs no walk.
    pub fn covers(&self, name: &Resource) -> bool
        requires { self.now.kind ≡ name.now.kind }
        ensures { result ≡ covers self.now name.now }
    {
        if self.name.text() == name.text() {
            return true;
        }
        covers_text(self.name.kind(), self.name.text(), name.text())
    }

    /// Whether it is more specific than another pattern. Only two of one kind are meant to be compared.
    pub fn before(&self, other: &Pattern) -> bool
        ensures { result ≡ before self.now other.now }
    {
        compare(self.name.text(), other.name.text()).is_lt()
    }

    /// Which of two patterns of a kind comes first in the order of specificity.
    pub fn order(&self, other: &Pattern) -> Ordering
        requires { self.now.kind ≡ other.now.kind }
        ensures { result ≡ order self.now other.now }
    {
        compare(self.name.text(), other.name.text())
    }

    /// Its place in the order of specificity, as bytes. The keys of two patterns compare as the patterns do.
    pub fn order_key(&self) -> OrderKey
        ensures { result ≡ order_key self.now.text }
    {
        OrderKey::of(self.name.text())
    }

    /// Behind a pattern that doesn't cover a name, how far no other pattern does either, so that a search
    /// through patterns in order can pass over those. None where the two differ behind a `*` or `**` only,
    /// or not at all; one comes at least where the two differ by their first bytes. It takes about as many
    /// steps as the name has bytes.
    pub fn gap<'a>(&'a self, name: &Resource) -> Option<Gap<'a>>
        requires { self.now.kind ≡ name.now.kind }
        ensures none { IfSome result (λ gap. NoneCovers self.now gap name.now) }
        ensures onward { IfSome result (λ gap. is_below self.now gap ≡ true) }
        ensures comes { begin_apart self.now.text name.now.text ≡ true → IsSome result }
    {
        Gap::behind(self.name.text(), name)
    }
}
