use super::*;
use declust::SpreadLayout;
use hot_set::{HotList, HotRow};
use stage_layout::{Layout, LayoutRow};
use std::test::Fail;
use txn_model::{Place, TupleId};

#[test]
fn a_line_with_the_number_and_one_for_each(rt: HostRuntime) -> Result<(), Fail> {
    let rows = vec![in rt.alloc();
        HotRow {
            tuple: TupleId(0),
            uses: 2
        },
        HotRow {
            tuple: TupleId(4_294_967_295),
            uses: 65_536
        },
    ]?;
    let text = hot_text(rt.alloc(), &HotList::of(rows))?;
    assert_eq!(rt; text.as_str(), "hot 2\nt0 2\nt4294967295 65536\n");
    Ok(())
}

#[test]
fn a_line_for_each_place_and_one_with_the_passes(rt: HostRuntime) -> Result<(), Fail> {
    let rows = vec![in rt.alloc();
        LayoutRow {
            tuple: TupleId(7),
            place: Place {
                stage: 11,
                array: 3,
                cell: 4_095,
            },
        },
    ]?;
    let spread = SpreadLayout {
        layout: Layout::of(rt.alloc(), rows)?,
        passes: 4,
        plain: 5,
    };
    let text = layout_text(rt.alloc(), &spread)?;
    assert_eq!(rt; text.as_str(), "layout 1\nt7 11 3 4095\npasses 4 plain 5\n");
    Ok(())
}
