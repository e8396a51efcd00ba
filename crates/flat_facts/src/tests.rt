use super::*;
use std::test::*;

#[test]
fn laws_can_be_called(_rt: HostRuntime) {
    class_laws();
    name_laws();
    part_laws();
    added_laws();
    solved_laws();
    store_laws();
    spread_laws();
}
