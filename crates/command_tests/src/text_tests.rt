//! The fields that a command shows, and its issuer.

use access_levels::Id;
use command_parser::{AddUser, CommandFields, Issuer, parse, print};
use std::process::Abort;
use std::test::Fail;

fn assert_fields(rt: &impl Abort, user: &AddUser) {
    assert_eq!(rt; user.user.text(), b"U2".as_slice());
    assert!(rt; user.dfltgrp.is_some() && !user.special && user.nospecial && user.name.is_none());
    assert_eq!(rt; user.clauth.items.len(), 2);
}

#[test]
fn tells_the_fields(rt: HostRuntime) -> Result<(), Fail> {
    let text = b"AU U2 DFLTGRP(G) NOSPECIAL CLAUTH(USER TAPEVOL)";
    let command = parse(rt.alloc(), Id::read(b"JOE")?, text)?;
    let mut out = Vec::new(rt.alloc());
    print(&command, &mut out)?;
    assert_eq!(rt;
        out.as_slice(),
        b"ADDUSER U2 DFLTGRP(G) NOSPECIAL CLAUTH(USER TAPEVOL)".as_slice()
    );
    match command.fields() {
        CommandFields::AddUser(user) => assert_fields(&rt, user),
        _ => assert!(rt; false),
    }
    Ok(())
}

#[test]
fn wants_a_group_name(rt: HostRuntime) -> Result<(), Fail> {
    assert!(rt; Issuer::new(Id::read(b"U2")?, Id::read(b"2G")?).is_none());
    assert!(rt; Issuer::new(Id::read(b"2U")?, Id::read(b"G2")?).is_some());
    Ok(())
}
