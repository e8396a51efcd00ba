use super::*;
use std::test::*;

#[test]
fn laws_can_be_called(_rt: HostRuntime) {
    group_laws();
    clear_laws();
    outcome_laws();
    symbol_laws();
    unique_laws();
}
