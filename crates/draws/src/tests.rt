//! Draws by hand.
use crate::Draws;
use std::test::Fail;

#[test]
fn draws_from_one(rt: HostRuntime) -> Result<(), Fail> {
    let mut draws = Draws::new(53126);
    assert_eq!(rt; draws.draw(6), 1);
    assert_eq!(rt; draws.draw(6), 5);
    assert_eq!(rt; draws.draw(3), 0);
    assert_eq!(rt; draws.draw(u64::MAX), 12150718406989521687);
    Ok(())
}
