//! How many pages of a file are looked at.
use crate::scanning::{As, scan};
use crate::values::Ends::From;
use crate::values::Value::Number;
use files_for_tests::F2;
use std::test::*;

/// Of three located pages with the ends 1 and 3, 10 and 12, 4 and 6: the least number that is asked for, the rows that are given, and the
/// pages that are looked at.
const LOOKED_AT: [(i128, usize, usize); 5] = [
    (1, 9, 3),
    (4, 6, 2),
    (10, 3, 1),
    (12, 3, 1),
    (13, 0, 0),
];

#[test]
fn pages_that_are_looked_at(rt: HostRuntime) -> Result<(), Fail> {
    let alloc = rt.alloc();
    for (least, rows, pages) in LOOKED_AT {
        let bytes = Vec::from_slice(alloc, &F2)?;
        let found = scan(alloc, bytes, &[("a", As::Numbers, From(Number(least)))])?;
        if (found.rows, found.pages) != (rows, pages) {
            return Err(Fail::new(format_args!(
                "from {least}: {} rows of {} pages",
                found.rows, found.pages
            )));
        }
    }
    Ok(())
}
