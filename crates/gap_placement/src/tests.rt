use super::*;
use std::test::Fail;
use txn_model::PlaceMap;

#[test]
fn no_logs_have_an_empty_placement(rt: HostRuntime) -> Result<(), Fail> {
    let first = PlaceMap::of(rt.alloc(), &[])?;
    let placed = place_all(rt.alloc(), &[], &first)?.ok_or("a placement")?;
    assert_eq!(rt; placed.placement.len(), 0);
    assert_eq!(rt; placed.registers.rows().len(), 0);
    let placement = place(rt.alloc(), &[], &first)?.ok_or("a placement")?;
    assert_eq!(rt; placement.len(), 0);
    Ok(())
}
