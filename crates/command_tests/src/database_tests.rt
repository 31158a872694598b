//! A new database with ample memory. What `prepare` answers to each command is asked by `decision_rows` and by the
//! streams; which conflict a command meets is computed on the definitions, in the proofs of `racf_database`.
use racf_database::Database;
use std::alloc::Global;

/// How many users and groups the rows of a database have.
fn counts(alloc: Global, database: &Database) -> (usize, usize) {
    match database.to_rows(alloc) {
        Ok(rows) => (rows.users.items.len(), rows.groups.items.len()),
        Err(_) => (0, 0),
    }
}

#[test]
fn new_database(rt: HostRuntime) {
    let Ok(database) = Database::new(rt.alloc()) else {
        panic!(rt; "no memory")
    };
    assert!(rt; counts(rt.alloc(), &database) == (1, 1));
}
