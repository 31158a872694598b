//! The values of a command's operands, taken one after another in the order of the table.

ghost use Rattle.std.specs.Prelude.{◌≡◌};
ghost use Rattle.command_parser.specs.Fields.{front, behind, flag_in, id_in, authority_in, name_in, ids_in, level_in, audit_in, reset_in, whos_in, when_in, members_in, member_names_in, log_clauses_in, length_in, truth_in, class_names_in};

use access_levels::{Condition, GroupAuthority, Id, Level, Text};
use command_fields::{ClassNames, Ids, LogClauses, MemberNames, Reset, Whos};
use command_values::Content;
use racf_profiles::{AuditRule, Members};
use std::alloc::Global;
use std::marker::Model;
use std::vec::IntoIter;

/// The slots that are still to be taken, seen by contracts as a list.
#[derive(Drop)]
pub struct Slots {
    /// Those that weren't taken yet.
    rest: IntoIter<Option<Content>>,
}

impl Model for Slots {
    ghost use Rattle.std.specs.Prelude.{List, Option};
    ghost use Rattle.std.specs.Vec.Iter.{into_iter_items};
    ghost use Rattle.command_values.specs.declared.values.Content.{Content};

    ghost Value = { List (Option Content) };

    ghost view = { λ s. into_iter_items s.rest };
}

impl Slots {
    /// The values, from the first on.
    pub fn new(slots: Vec<Option<Content>>) -> Slots
        ensures { result ≡ slots.items }
    {
        Slots {
            rest: slots.into_iter(),
        }
    }

    /// The next slot.
    #[inline(always)]
    #[tactic(auto, unfolding(crate::specs::Fields::front, crate::specs::Fields::behind))]
    fn take(&mut self) -> Option<Content>
        ensures value { result ≡ front self.old }
        ensures rest { self.new ≡ behind self.old }
    {
        self.rest.next().flatten()
    }

    /// Whether an operand was given that takes no value.
    #[inline(always)]
    pub fn flag(&mut self) -> bool
        ensures value { result ≡ flag_in (front self.old) }
        ensures rest { self.new ≡ behind self.old }
    {
        self.take().is_some()
    }

    /// The ID that is in front.
    #[inline(always)]
    pub fn id(&mut self) -> Option<Id>
        ensures value { result ≡ id_in (front self.old) }
        ensures rest { self.new ≡ behind self.old }
    {
        match self.take().as_ref() {
            Some(Content::Id(id)) => Some(*id),
            _ => None,
        }
    }

    /// The group authority that is in front.
    #[inline(always)]
    pub fn authority(&mut self) -> Option<GroupAuthority>
        ensures value { result ≡ authority_in (front self.old) }
        ensures rest { self.new ≡ behind self.old }
    {
        match self.take() {
            Some(Content::Authority(authority)) => Some(authority),
            _ => None,
        }
    }

    /// The user's name that is in front.
    #[inline(always)]
    pub fn name(&mut self) -> Option<Text>
        ensures value { result ≡ name_in (front self.old) }
        ensures rest { self.new ≡ behind self.old }
    {
        match self.take() {
            Some(Content::Name(text)) => Some(text),
            _ => None,
        }
    }

    /// The IDs in front; none where there is no list.
    #[inline(always)]
    pub fn ids(&mut self, alloc: Global) -> Ids
        ensures value { result ≡ ids_in (front self.old) }
        ensures rest { self.new ≡ behind self.old }
    {
        match self.take() {
            Some(Content::Ids(ids)) => ids,
            _ => Ids {
                items: Vec::new(alloc),
            },
        }
    }

    /// The access level that is in front.
    #[inline(always)]
    pub fn level(&mut self) -> Option<Level>
        ensures value { result ≡ level_in (front self.old) }
        ensures rest { self.new ≡ behind self.old }
    {
        match self.take() {
            Some(Content::Level(level)) => Some(level),
            _ => None,
        }
    }

    /// The audit rule that is in front.
    #[inline(always)]
    pub fn audit(&mut self) -> Option<AuditRule>
        ensures value { result ≡ audit_in (front self.old) }
        ensures rest { self.new ≡ behind self.old }
    {
        match self.take() {
            Some(Content::Audit(audit)) => Some(audit),
            _ => None,
        }
    }

    /// The value of RESET that is in front.
    #[inline(always)]
    pub fn reset(&mut self) -> Option<Reset>
        ensures value { result ≡ reset_in (front self.old) }
        ensures rest { self.new ≡ behind self.old }
    {
        match self.take() {
            Some(Content::Reset(reset)) => Some(reset),
            _ => None,
        }
    }

    /// The port of entry that is in front.
    #[inline(always)]
    pub fn when(&mut self) -> Option<Condition>
        ensures value { result ≡ when_in (front self.old) }
        ensures rest { self.new ≡ behind self.old }
    {
        match self.take().as_ref() {
            Some(Content::When(condition)) => Some(*condition),
            _ => None,
        }
    }

    /// The users and groups in front; none where there is no list.
    #[inline(always)]
    pub fn whos(&mut self, alloc: Global) -> Whos
        ensures value { result ≡ whos_in (front self.old) }
        ensures rest { self.new ≡ behind self.old }
    {
        match self.take() {
            Some(Content::Whos(whos)) => whos,
            _ => Whos {
                items: Vec::new(alloc),
            },
        }
    }

    /// The members in front; none where there is no list.
    #[inline(always)]
    pub fn members(&mut self, alloc: Global) -> Members
        ensures value { result ≡ members_in (front self.old) }
        ensures rest { self.new ≡ behind self.old }
    {
        match self.take() {
            Some(Content::Members(members)) => members,
            _ => Members {
                items: Vec::new(alloc),
            },
        }
    }

    /// The words of LOGOPTIONS in front; none where there is no list.
    #[inline(always)]
    pub fn log_clauses(&mut self, alloc: Global) -> LogClauses
        ensures value { result ≡ log_clauses_in (front self.old) }
        ensures rest { self.new ≡ behind self.old }
    {
        match self.take() {
            Some(Content::LogOptions(clauses)) => clauses,
            _ => LogClauses {
                items: Vec::new(alloc),
            },
        }
    }

    /// The length that is in front.
    #[inline(always)]
    pub fn length(&mut self) -> Option<u8>
        ensures value { result ≡ length_in (front self.old) }
        ensures rest { self.new ≡ behind self.old }
    {
        match self.take() {
            Some(Content::Length(length)) => Some(length),
            _ => None,
        }
    }

    /// YES or NO in front.
    #[inline(always)]
    pub fn truth(&mut self) -> Option<bool>
        ensures value { result ≡ truth_in (front self.old) }
        ensures rest { self.new ≡ behind self.old }
    {
        match self.take() {
            Some(Content::Truth(truth)) => Some(truth),
            _ => None,
        }
    }

    /// The value of NAMES that is in front.
    #[inline(always)]
    pub fn class_names(&mut self) -> Option<ClassNames>
        ensures value { result ≡ class_names_in (front self.old) }
        ensures rest { self.new ≡ behind self.old }
    {
        match self.take() {
            Some(Content::ClassNames(names)) => Some(names),
            _ => None,
        }
    }

    /// The names of members in front; none where there is no list.
    #[inline(always)]
    pub fn member_names(&mut self, alloc: Global) -> MemberNames
        ensures value { result ≡ member_names_in (front self.old) }
        ensures rest { self.new ≡ behind self.old }
    {
        match self.take() {
            Some(Content::MemberNames(member_names)) => member_names,
            _ => MemberNames {
                items: Vec::new(alloc),
            },
        }
    }
}
