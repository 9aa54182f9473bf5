//! Connections on which a transaction is open, which no store takes over.
use crate::tables::{ROWS, TABLES, connection, over, run};
use hall_store::StoreFault;
use sqlite::{Connection, MemStore};
use std::alloc::AllocGlobal;
use std::process::Abort;

/// Whether the store refuses the connection as no world of the hall.
fn is_refused(conn: Connection<MemStore>) -> bool {
    matches!(&over(conn), Err(StoreFault::Failed))
}

fn see_refused(rt: &(impl AllocGlobal + Abort), before: &[&str], statement: &str) {
    let mut conn = connection(rt, before);
    run(rt, &mut conn, statement);
    assert!(rt; is_refused(conn), "{statement}");
}

#[test]
fn an_open_transaction_is_refused(rt: HostRuntime) {
    for statement in "BEGIN\nBEGIN EXCLUSIVE\nSAVEPOINT here".lines() {
        see_refused(&rt, &[], statement);
        see_refused(&rt, &[TABLES], statement);
        see_refused(&rt, &[TABLES, ROWS], statement);
    }
    for statement in "BEGIN IMMEDIATE\nBEGIN; DROP TABLE protests".lines() {
        let mut conn = connection(&rt, &[TABLES]);
        // A statement that the connection doesn't know leaves the tables, which are taken.
        let is_run = conn.execute_batch(statement).is_ok();
        assert!(rt; is_refused(conn) == is_run, "{statement}");
    }
}
