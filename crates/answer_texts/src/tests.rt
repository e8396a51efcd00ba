ghost use Rattle.std.specs.Prelude.{◌≤◌, length};
ghost use Rattle.formula_ast.specs.WellFormed.{IsWellFormed};

use super::*;
use flattening::Solved;
use formula_ast::File;
use formula_reader::read_file;
use normal_form::PlainEngine;
use std::alloc::Global;
use std::test::*;

// The answers of the first two statements.
fn two_answers(alloc: Global, file: &File) -> Result<String, Fail>
    requires well_formed { IsWellFormed file.now }
    requires two { 2 ≤ length file.now.solves }
{
    let mut table = Solved::new(alloc);
    let mut engine = PlainEngine;
    let first = answer(alloc, &mut engine, file, 1, &mut table)?;
    let second = answer(alloc, &mut engine, file, 2, &mut table)?;
    Ok(format!(in alloc; "{first}{second}")?)
}

const TEXT: &str = "symbol f/1.\nsolve exists X: (X = f(X) & finite(X)).\nsolve X = f(X).\n";

const ANSWERS: &str = "\
1 false
2 open X = f(X)
2 else X != f(X)
2 holds exists V0: (V0 = f(V0) & X = V0)
2 fails exists V0: (V0 = $0(V0) & X = V0)
";

#[test]
fn an_open_statement_behind_a_closed_one(rt: HostRuntime) -> Result<(), Fail> {
    match read_file(rt.alloc(), TEXT.as_bytes()) {
        Ok(file) => {
            if file.solves.len() >= 2 {
                assert_eq!(rt; two_answers(rt.alloc(), &file)?.as_str(), ANSWERS);
                return Ok(());
            }
        }
        Err(_) => {}
    }
    assert!(rt; false);
    Ok(())
}
