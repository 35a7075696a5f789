use crate::range_of;
use std::test::Fail;

#[test]
fn cuts_forks(rt: HostRuntime) -> Result<(), Fail> {
    assert_eq!(rt; range_of(5, 2, 0), (0, 3));
    assert_eq!(rt; range_of(5, 2, 1), (3, 2));
    assert_eq!(rt; range_of(2, 64, 1), (1, 1));
    assert_eq!(rt; range_of(7, 3, 2), (5, 2));
    assert_eq!(rt; range_of(u64::MAX, 1, 0), (0, u64::MAX));
    Ok(())
}
