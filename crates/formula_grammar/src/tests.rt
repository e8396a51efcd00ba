use super::*;
use std::test::*;

#[test]
fn laws_can_be_called(_rt: HostRuntime) {
    faults_stand_right();
    at_most_one_reading();
    lawful_is_faultless();
    at_most_one_outcome();
    files_are_well_formed();
    kinds_say_why();
}
