use super::*;
use std::test::*;

#[test]
fn laws_can_be_called(_rt: HostRuntime) {
    keep_laws();
    nested_laws();
    place_laws();
    turn_laws();
    count_laws();
}
