ghost use Rattle.std.specs.Prelude.{◌≡◌, [], ◌∷◌, ◌++◌, OnOk, OnErr};

use super::*;
use std::test::*;
use tree_model::Places;

// A struct of another crate holds a signature like this, and its clauses see the list of entries.
#[derive(Debug, Drop)]
struct File {
    signature: Signature,
}

impl File {
    fn declare_symbol(&mut self, name: &str) -> Result<usize, DeclareError>
        ensures last { OnOk result (self.new.signature ≡ self.old.signature ++ record { name = name.now; kind = Kind.Symbol; arity = 0 } ∷ []) }
        ensures kept { OnErr result (self.new ≡ self.old) }
    {
        self.signature.declare(name, Kind::Symbol, 0)
    }
}

#[test]
fn a_name_is_declared_once(rt: HostRuntime) {
    let mut signature = Signature::new(rt.alloc());
    assert_eq!(rt; signature.declare("f", Kind::Symbol, 1), Ok(0));
    assert_eq!(rt;
        signature.declare("f", Kind::Symbol, 1),
        Err(DeclareError::Twice(0))
    );
    assert_eq!(rt; signature.declare("p", Kind::Pred, 2), Ok(1));
    assert_eq!(rt; signature.find("p"), Some(1));
    assert_eq!(rt; signature.find("q"), None);
    assert_eq!(rt; signature.len(), 2);
    assert_eq!(rt; signature.entry(1), (Kind::Pred, 2));
    assert_eq!(rt; signature.name(0), "f");
}

#[test]
fn a_file_holds_a_signature(rt: HostRuntime) {
    let mut file = File {
        signature: Signature::new(rt.alloc()),
    };
    assert_eq!(rt; file.declare_symbol("a"), Ok(0));
    assert_eq!(rt; file.signature.find("a"), Some(0));
}

// The node with this symbol and this many children, each at place 0.
fn node(alloc: Global, symbol: Symbol, children: usize) -> Result<Node, tree_model::NoMemory> {
    let mut places = Places::new(alloc);
    for _ in 0..children {
        places.push(0)?;
    }
    Ok(Node {
        symbol,
        children: places,
    })
}

#[test]
fn nodes_fit_by_kind_and_number_of_children(rt: HostRuntime) -> Result<(), Fail> {
    let mut signature = Signature::new(rt.alloc());
    assert_eq!(rt; signature.declare("f", Kind::Symbol, 1), Ok(0));
    assert_eq!(rt; signature.declare("p", Kind::Pred, 1), Ok(1));
    let cases = [
        (Symbol::Named(0), 1, true),
        (Symbol::Named(0), 2, false),
        (Symbol::Named(1), 1, false),
        (Symbol::Named(2), 1, false),
        (Symbol::Further(7), 0, true),
        (Symbol::Further(7), 3, true),
    ];
    for (symbol, children, fits) in cases {
        let nodes = [
            node(rt.alloc(), Symbol::Named(0), 1)?,
            node(rt.alloc(), symbol, children)?,
        ];
        assert_eq!(rt;
            signature.fits(&nodes),
            fits,
            "{symbol:?} with {children} children"
        );
    }
    Ok(())
}
