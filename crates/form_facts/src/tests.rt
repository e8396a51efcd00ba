use super::*;
use std::test::*;

#[test]
fn laws_can_be_called(_rt: HostRuntime) {
    meanings_respect_sameness();
    winning_is_a_formula();
}
