//! The lines for the users, each written at the end of what is made.

ghost use Rattle.std.specs.Prelude.{◌≡◌, ◌+◌, ◌-◌, ◌/◌, ◌%◌, ◌==◌, ◌*◌, ◌^◌, ◌<◌, ◌≤◌, [], ◌∷◌, ◌++◌, length, codes, if◌then◌else◌, OnOk};
ghost use Rattle.racf_generator.specs.MadeText.{add_data_set, add_group, add_user, made_lines, six_digits, text_of, user_name};
ghost use Rattle.racf_generator.specs.Made.{definitions_text, part_text, requests_text};

use std::alloc::AllocError;

/// How many lines the text for so many users has.
pub fn line_count(users: u32) -> u32
    requires few { users ≤ 10_000 }
    ensures { result ≡ length (made_lines users) }
{
    users * 6 + (users + 9) / 10
}

/// Writes a part of the text, counted from 0: the lines that define a user, for each of the users, and then the
/// requests of each.
#[tactic(auto, unfolding(crate::specs::Made::part_text))]
pub(crate) fn write_part(users: u32, part: u32, out: &mut Vec<u8>) -> Result<(), AllocError>
    requires few { users ≤ 10_000 }
    requires within { part < 2 * users }
    ensures { OnOk result (out.new.items ≡ out.old.items ++ part_text users part) }
{
    if part < users {
        return write_definitions(part + 1, out);
    }
    write_requests(users, part - users + 1, out)
}

/// Writes the commands that define a user.
fn write_definitions(user: u32, out: &mut Vec<u8>) -> Result<(), AllocError>
    requires { 1 ≤ user }
    ensures { OnOk result (out.new.items ≡ out.old.items ++ definitions_text user) }
{
    let group = (user - 1) / 10 + 1;
    write_group_before(user, group, out)?;
    write_user(user, group, out)?;
    write_data_set(user, out)
}

/// Writes the command that defines a group before the first of its users, and before the others nothing.
fn write_group_before(user: u32, group: u32, out: &mut Vec<u8>) -> Result<(), AllocError>
    requires { 1 ≤ user }
    ensures { OnOk result (out.new.items ≡ out.old.items ++
        text_of (if (user - 1) % 10 == 0 then add_group group ∷ [] else [])) }
{
    if (user - 1) % 10 == 0 {
        return write_group(group, out);
    }
    Ok(())
}

/// Writes the command that defines a group.
fn write_group(group: u32, out: &mut Vec<u8>) -> Result<(), AllocError>
    ensures { OnOk result (out.new.items ≡ out.old.items ++ (add_group group ++ codes "\n")) }
{
    out.extend_from_slice(b"ADDGROUP ")?;
    write_name(b'G', group, out)?;
    out.extend_from_slice(b" SUPGROUP(SYS1) OWNER(SYS1)\n")
}

/// Writes the command that defines a user in a group.
fn write_user(user: u32, group: u32, out: &mut Vec<u8>) -> Result<(), AllocError>
    ensures { OnOk result (out.new.items ≡ out.old.items ++ (add_user user group ++ codes "\n")) }
{
    out.extend_from_slice(b"ADDUSER ")?;
    write_name(b'U', user, out)?;
    out.extend_from_slice(b" DFLTGRP(")?;
    write_name(b'G', group, out)?;
    out.extend_from_slice(b") OWNER(")?;
    write_name(b'G', group, out)?;
    out.extend_from_slice(b")\n")
}

/// Writes the command that defines the profile of a user's data sets.
fn write_data_set(user: u32, out: &mut Vec<u8>) -> Result<(), AllocError>
    ensures { OnOk result (out.new.items ≡ out.old.items ++ (add_data_set user ++ codes "\n")) }
{
    out.extend_from_slice(b"ADDSD '")?;
    write_name(b'U', user, out)?;
    out.extend_from_slice(b".**' OWNER(")?;
    write_name(b'U', user, out)?;
    out.extend_from_slice(b") UACC(READ)\n")
}

/// Writes the requests of a user.
fn write_requests(users: u32, user: u32, out: &mut Vec<u8>) -> Result<(), AllocError>
    requires some { 1 ≤ users }
    requires few { users ≤ 10_000 }
    ensures { OnOk result (out.new.items ≡ out.old.items ++ requests_text users user) }
{
    out.extend_from_slice(b"VERIFY A ")?;
    write_name(b'U', user, out)?;
    out.extend_from_slice(b"\n")?;
    write_access(user % users + 1, b".DATA UPDATE\n", out)?;
    write_access(user, b".DATA ALTER\n", out)?;
    out.extend_from_slice(b"DELETE A\n")
}

/// Writes the request for access to a data set of a user: `rest` is the end of the data set's name, and the access.
fn write_access(user: u32, rest: &[u8], out: &mut Vec<u8>) -> Result<(), AllocError>
    ensures { OnOk result (out.new.items ≡ out.old.items ++ (codes "AUTH A DATASET " ++ (user_name user ++ rest.now))) }
{
    out.extend_from_slice(b"AUTH A DATASET ")?;
    write_name(b'U', user, out)?;
    out.extend_from_slice(rest)
}

/// Writes a name: a letter, and a number of six digits.
fn write_name(letter: u8, number: u32, out: &mut Vec<u8>) -> Result<(), AllocError>
    ensures { OnOk result (out.new.items ≡ out.old.items ++ letter ∷ six_digits number) }
{
    let name = [
        letter,
        digit(number, 100_000),
        digit(number, 10_000),
        digit(number, 1_000),
        digit(number, 100),
        digit(number, 10),
        digit(number, 1),
    ];
    out.extend_from_slice(&name)
}

/// The digit of a number that stands for so many ones, as text.
fn digit(number: u32, power: u32) -> u8
    requires { 0 < power }
    ensures { result ≡ 48 + number / power % 10 }
{
    b'0' + (number / power % 10) as u8
}
