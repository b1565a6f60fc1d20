//! The tally of a caller takes no memory, and the tally of an iteration counts its matches.
use crate::made::first_of;
use literal_base::count::Tally;
use literal_examples::counts::{count_scanned, ticked};
use std::test::Fail;

#[test]
fn takes_no_bytes(rt: HostRuntime) {
    let tally = ticked();
    assert!(rt; size_of::<Tally>() == 0);
    let _ = tally;
}

#[test]
fn counts_matches_one_after_another(rt: HostRuntime) -> Result<(), Fail> {
    let search = first_of(rt.alloc(), &[b"ab"])?;
    assert!(rt; count_scanned(&search, b"ab xabab", &mut Tally::new()) == 3);
    Ok(())
}
