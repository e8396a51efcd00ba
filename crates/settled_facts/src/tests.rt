use super::*;
use std::test::*;

#[test]
fn laws_can_be_called(_rt: HostRuntime) {
    change_laws();
    form_laws();
    more_laws();
    overlay_laws();
    variable_laws();
    walk_laws();
}
