//! From the values of its operands to the command on options.

ghost use Rattle.std.specs.Prelude.{◌≡◌};
ghost use Rattle.command_parser.specs.OptionFields.{set_ropts_in};

use crate::slots::Slots;
use command_fields::SetRopts;
use command_values::Content;
use std::alloc::Global;

/// SETROPTS, of whose operands these are the values.
pub fn set_ropts(alloc: Global, slots: Vec<Option<Content>>) -> SetRopts
    ensures { result ≡ set_ropts_in slots.items }
{
    let mut slots = Slots::new(slots);
    SetRopts {
        classact: slots.ids(alloc),
        noclassact: slots.ids(alloc),
        grplist: slots.flag(),
        nogrplist: slots.flag(),
        protectall: slots.flag(),
        noprotectall: slots.flag(),
        mls: slots.flag(),
        nomls: slots.flag(),
        raclist: slots.ids(alloc),
        noraclist: slots.ids(alloc),
        global: slots.ids(alloc),
        noglobal: slots.ids(alloc),
        generic: slots.ids(alloc),
        refresh: slots.flag(),
        logoptions: slots.log_clauses(alloc),
    }
}
