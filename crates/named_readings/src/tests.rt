use super::*;
use std::test::*;

#[test]
fn laws_can_be_called(_rt: HostRuntime) {
    readings_are_unique();
    readings_mean_by_name();
}
