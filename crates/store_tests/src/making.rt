//! Making the tables in an empty file, which is stopped.
use crate::files::{Image, Stopped, ask_in, empty_image, tables_in};
use crate::tables::Ask;
use crate::work::{Work, see_stops};
use hall_store::Store;
use std::alloc::AllocGlobal;
use std::process::Abort;

/// Asks for nothing but the tables.
#[derive(Clone, Copy)]
struct Making;

impl Ask for Making {
    fn ask<S: Store, R: AllocGlobal + Abort>(&mut self, _rt: &R, store: S) {
        drop(store);
    }
}

impl Work for Making {
    fn name(&self) -> &str {
        "making"
    }

    fn is_told<R: AllocGlobal + Abort>(&self, rt: &R, files: &mut Stopped) -> bool {
        ask_in(rt, files, &mut Making)
    }

    fn is_kept<R: AllocGlobal + Abort>(&self, rt: &R, left: &Image) -> bool {
        let count = tables_in(rt, left);
        assert!(rt; count == 7 || count == 0, "{count} tables");
        count == 7
    }
}

#[test]
fn a_stop_leaves_all_seven_tables_or_none(rt: HostRuntime) {
    see_stops(&rt, &Making, &empty_image(&rt));
}
