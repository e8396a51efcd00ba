ghost use Rattle.std.specs.Prelude.{◌≡◌, length};

use super::*;
use std::test::*;

#[test]
fn scopes_are_opened_and_given_up(rt: HostRuntime) -> Result<(), Fail> {
    let mut store = Store::new(rt.alloc(), 2)?;
    assert_eq!(rt; store.push(3), Ok(()));
    assert_eq!(rt; store.variables(), 5);
    store.pop();
    assert_eq!(rt; store.variables(), 2);
    Ok(())
}
