use super::*;
use std::test::*;

#[test]
fn a_list_grows_and_is_copied(rt: HostRuntime) -> Result<(), Fail> {
    let mut list = List::with_capacity(rt.alloc(), 1)?;
    assert_eq!(rt; list.len(), 0);
    for item in [7, 9] {
        assert_eq!(rt; list.push(item), Ok(()));
    }
    let copy: List<usize> = list.copy(rt.alloc())?;
    assert_eq!(rt; copy.as_slice(), [7, 9].as_slice());
    assert_eq!(rt; *copy.get(1), 9);
    assert_eq!(rt; copy.into_items().as_slice(), [7, 9].as_slice());
    Ok(())
}
