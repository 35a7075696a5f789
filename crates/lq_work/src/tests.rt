use crate::{Kind, make};
use std::test::Fail;

/// The input of one number and of two, and what `workload` prints of them by docs/COMMANDS.md, "Workloads": the sum, and the last
/// number plus 3.
#[test]
fn inputs_by_the_generator(rt: HostRuntime) -> Result<(), Fail> {
    let one = make(rt.alloc(), Kind::Sort, 1)?;
    assert_eq!(rt; one.input.as_slice(), [1_103_527_590].as_slice());
    let two = make(rt.alloc(), Kind::Stride, 2)?;
    assert_eq!(rt;
        two.input.as_slice(),
        [59_559_187, 1_495_354_192].as_slice()
    );
    let mut sum: i128 = 0;
    for number in two.input.as_slice() {
        sum = sum.wrapping_add(i128::from(*number));
    }
    assert_eq!(rt; sum, 1_554_913_379);
    assert_eq!(rt;
        two.input.as_slice().last().copied(),
        Some(1_495_354_195 - 3)
    );
    Ok(())
}

/// As many numbers as were asked for, each below 2^31.
#[test]
fn the_largest_input(rt: HostRuntime) -> Result<(), Fail> {
    let work = make(rt.alloc(), Kind::Stride, 65_536)?;
    assert_eq!(rt; work.input.len(), 65_536);
    assert!(rt;
        work.input
            .as_slice()
            .iter()
            .all(|number| 0 <= *number && *number < 2_147_483_648)
    );
    Ok(())
}

/// The sizes of `sort.c`, `sort.q`, `strided.c` and `strided.q` in `examples/`, and how they begin and end.
#[test]
fn texts_of_the_examples(rt: HostRuntime) -> Result<(), Fail> {
    let sort = make(rt.alloc(), Kind::Sort, 1)?;
    assert_eq!(rt; (sort.source.len(), sort.quals.len()), (1009, 249));
    assert!(rt;
        sort.source
            .as_slice()
            .starts_with(b"void merge(int *a, int *t, int lo, int mid, int hi) {\n")
    );
    assert!(rt; sort.quals.as_slice().ends_with(b"\n@ < off(t) + mid\n"));
    let stride = make(rt.alloc(), Kind::Stride, 1)?;
    assert_eq!(rt; (stride.source.len(), stride.quals.len()), (245, 28));
    assert!(rt; stride.source.as_slice().ends_with(b"\n  return 0;\n}\n"));
    assert_eq!(rt;
        stride.quals.as_slice(),
        b"0 <= j\n4*i <= @\n@ < 4*i + 4\n".as_slice()
    );
    Ok(())
}
