use super::*;
use std::test::*;

#[test]
fn laws_can_be_called(_rt: HostRuntime) {
    number_laws();
    determined_laws();
    settling_laws();
    idle_laws();
    moving_laws();
    fresh_laws();
    renumbering_laws();
    raw_laws();
}
