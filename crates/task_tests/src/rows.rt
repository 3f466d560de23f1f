//! Rows that are sorted and added up, on one hart.
use std::test::Fail;
use task_loops::Part;
use task_nested::{Done, Rows, Summary, Work};
use tasks::run_alone;

#[test]
fn each_row_is_sorted_and_added_up(rt: HostRuntime) -> Result<(), Fail> {
    let table = [
        vec![in rt.alloc(); 3u64, 1, 4, 1, 5]?,
        vec![in rt.alloc()]?,
        vec![in rt.alloc(); u64::MAX, 2]?,
    ];
    let expected = vec![in rt.alloc();
        Summary {
            sorted: vec![in rt.alloc(); 1u64, 1, 3, 4, 5]?,
            sum: 14
        },
        Summary {
            sorted: vec![in rt.alloc()]?,
            sum: 0
        },
        Summary {
            sorted: vec![in rt.alloc(); 2u64, u64::MAX]?,
            sum: 1
        },
    ]?;
    for cuts in 0..4u8 {
        let rows = Rows {
            rows: &table,
            cuts,
            shortest: 0,
        };
        let work = Work::Table(Part::whole(rows, 2, 0));
        match run_alone(rt.alloc(), work)? {
            Done::Summaries(summaries) => assert!(rt; summaries == expected, "with {cuts} cuts"),
            _ => assert!(rt; false, "not summaries"),
        }
    }
    Ok(())
}
