//! Generated texts against those of a model that was written from the rules and not from this code.
use crate::generate;
use std::test::Fail;

const OF_ONE: &str = "\
symbol a/0, f/1, g/2.
solve ~(forall X: ((finite(X)) | (finite(g(Y, Z))))).
";

const OF_THREE: &str = "\
symbol a/0, f/1, g/2.
solve ~(forall Y: (~(f(Y) != Y))).
solve (exists Z: ((X != Y) | (Z = g(a, Z)))) | (finite(g(a, X))).
solve forall Z: ((finite(a)) & ((Z != Z) | (finite(g(Z, X))))).
";

// A sum over the bytes in their order.
fn check_sum(text: &str) -> u64 {
    let mut sum: u64 = 0;
    for byte in text.bytes() {
        sum = (sum.min(1_000_002) * 31 + byte as u64) % 1_000_003;
    }
    sum
}

#[test]
fn small_files(rt: HostRuntime) -> Result<(), Fail> {
    let alloc = rt.alloc();
    let none = generate(alloc, 0)?;
    assert_eq!(rt; none.as_str(), "symbol a/0, f/1, g/2.\n");
    let one = generate(alloc, 1)?;
    assert_eq!(rt; one.as_str(), OF_ONE);
    let three = generate(alloc, 3)?;
    assert_eq!(rt; three.as_str(), OF_THREE);
    Ok(())
}

#[test]
fn the_largest_file(rt: HostRuntime) -> Result<(), Fail> {
    let text = generate(rt.alloc(), 1000)?;
    assert_eq!(rt; text.len(), 52654);
    assert_eq!(rt; check_sum(text.as_str()), 515055);
    Ok(())
}
