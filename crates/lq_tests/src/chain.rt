//! Lists and their copies.

use lq_chain::Chain;
use std::alloc::{AllocError, Global};
use std::test::Fail;

// A list of so many numbers, from 0.
fn numbers(alloc: Global, count: u32) -> Result<Chain<u32>, AllocError> {
    let mut chain = Chain::new(alloc);
    for number in 0..count {
        chain.push(number)?;
    }
    Ok(chain)
}

#[test]
fn copies_go_their_own_ways(rt: HostRuntime) -> Result<(), Fail> {
    let mut first = numbers(rt.alloc(), 1000)?;
    let mut second = first.copy()?;
    first.push(7)?;
    second.push(8)?;
    assert!(rt; first.len() == 1001 && second.len() == 1001);
    assert!(rt; first.get(255) == Some(&255) && second.get(256) == Some(&256));
    assert!(rt; first.get(1000) == Some(&7) && second.get(1000) == Some(&8));
    assert!(rt; second.get(1001).is_none());
    Ok(())
}

#[test]
fn elements_come_in_their_order(rt: HostRuntime) -> Result<(), Fail> {
    let chain = numbers(rt.alloc(), 600)?;
    let mut expected: u32 = 0;
    for number in chain.iter() {
        assert!(rt; *number == expected);
        expected = expected.wrapping_add(1);
    }
    assert!(rt; expected == 600);
    Ok(())
}
