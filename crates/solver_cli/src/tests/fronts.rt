// Each front of a file, byte by byte.
use super::expect_outcome;
use std::alloc::Global;
use std::process::Abort;
use std::test::Fail;

const TEXT: &str =
    "symbol f/1, a/0.\nsolve exists X: (X = f(X) & $1(X) = $1(a)). % loops\nsolve exists Y: Y = f(f(Y)).\npred p(X) := X != a | ~finite(f(X)).\nsolve forall X: (p(X) <-> true).";

// What comes of the fronts, row by row: of those that are shorter than the number, and not shorter than the one before.
// `nothing` is no answer and no fault, and `ended` the fault at the front's end.
const OUTCOMES: &str = "\
1 nothing
6 fault 0 syntax
16 ended
18 nothing
22 fault 17 syntax
24 ended
29 fault 23 unknown
46 ended
47 fault 45 byte
54 ended
55 fault 53 byte
60 ended
70 1 false
74 fault 69 syntax
76 ended
81 fault 75 unknown
97 ended
99 1 false; 2 true
102 fault 98 syntax
109 ended
110 fault 108 syntax
114 ended
115 fault 113 byte
123 ended
127 fault 121 unknown
134 ended
136 1 false; 2 true
140 fault 135 syntax
143 ended
147 fault 141 unknown
158 ended
160 fault 157 byte
162 ended
165 fault 161 unknown
167 ended
168 1 false; 2 true; 3 false";

fn expect_front(rt: &impl Abort, alloc: Global, front: &[u8], outcome: &str) -> Result<(), Fail> {
    match outcome {
        "nothing" => expect_outcome(rt, alloc, front, "", outcome),
        "ended" => {
            let wanted = format!(in alloc; "fault {} ended", front.len())?;
            expect_outcome(rt, alloc, front, &wanted, outcome)
        }
        _ => expect_outcome(rt, alloc, front, outcome, outcome),
    }
}

#[test]
fn each_front_has_its_outcome(rt: HostRuntime) -> Result<(), Fail> {
    let text = TEXT.as_bytes();
    let mut next = 0;
    for row in OUTCOMES.lines() {
        let (end, outcome) = row.split_once(" ").ok_or("a row has two parts")?;
        let end = end.parse::<usize>().ok().ok_or("an end is a number")?;
        for length in next..end {
            let front = text.split_at(length.min(text.len())).0;
            expect_front(&rt, rt.alloc(), front, outcome)?;
        }
        next = end;
    }
    assert_eq!(rt; next, text.len() + 1);
    Ok(())
}
