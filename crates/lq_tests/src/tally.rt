//! Conditions that are counted.

use lq_chain::Chain;
use lq_tally::Tally;
use lq_templates::{Given, Rule, Site};
use lq_tree::Place;
use sqlite_items::Items;
use std::test::Fail;

#[test]
fn conditions_are_kept_up_to_a_number_and_counted_behind_it(rt: HostRuntime) -> Result<(), Fail> {
    let alloc = rt.alloc();
    let mut tally = Tally::new(alloc);
    let place = Place { line: 1, col: 1 };
    let site = Site {
        at: place,
        first: place,
        second: place,
        class: 0,
        kinds: (false, false),
        fields: (0, 0),
    };
    let facts = Chain::new(alloc);
    for _ in 0..4_097_u32 {
        let goal = Given::Of {
            template: 1,
            values: Items::new(alloc),
        };
        tally.ask(alloc, Rule::Fold, site, &facts, goal)?;
    }
    assert!(rt; tally.is_full() && tally.kept.len() == 4_096 && tally.count == 4_097);
    tally.count_more(3)?;
    assert!(rt; tally.count == 4_100);
    Ok(())
}
