use super::*;
use std::alloc::Global;
use std::test::*;

// A node with this symbol and these children.
fn node(alloc: Global, symbol: Symbol, children: &[usize]) -> Result<Node, NoMemory> {
    let mut places = Places::new(alloc);
    for &child in children {
        places.push(child)?;
    }
    Ok(Node {
        symbol,
        children: places,
    })
}

#[test]
fn places_out_of_range_make_no_tree(rt: HostRuntime) -> Result<(), Fail> {
    let f = Symbol::Named(0);
    let mut nodes = Vec::new(rt.alloc());
    assert_eq!(rt;
        Tree::new(Vec::new(rt.alloc()), 0).err(),
        Some(TreeError::Root)
    );
    nodes.push(node(rt.alloc(), f, &[1])?)?;
    assert_eq!(rt; Tree::new(nodes, 0).err(), Some(TreeError::Child(0)));
    Ok(())
}

#[test]
fn a_cyclic_tree_is_read_along_paths(rt: HostRuntime) -> Result<(), Fail> {
    let f = Symbol::Named(0);
    let leaf = Symbol::Further(3);
    let mut nodes = Vec::new(rt.alloc());
    nodes.push(node(rt.alloc(), leaf, &[])?)?;
    nodes.push(node(rt.alloc(), f, &[1, 0])?)?;
    let tree = Tree::new(nodes, 1);
    assert!(rt; tree.is_ok());
    let Ok(tree) = tree else {
        return Ok(());
    };
    let paths: [(&[usize], Option<(&Symbol, usize)>); 6] = [
        (&[], Some((&f, 2))),
        (&[0, 0, 0], Some((&f, 2))),
        (&[0, 1], Some((&leaf, 0))),
        (&[1], Some((&leaf, 0))),
        (&[1, 0], None),
        (&[0, 2], None),
    ];
    for (path, reading) in paths {
        assert_eq!(rt; tree.at(path), reading, "at {path:?}");
    }
    Ok(())
}

// The tree of these nodes, each a symbol with the places of its children, of which the first is the root.
fn tree(alloc: Global, nodes: &[(Symbol, &[usize])]) -> Result<Tree, Fail> {
    let mut made = Vec::new(alloc);
    for (symbol, children) in nodes {
        made.push(node(alloc, *symbol, children)?)?;
    }
    Ok(Tree::new(made, 0)?)
}

const F: Symbol = Symbol::Named(0);

const A: Symbol = Symbol::Named(1);

#[test]
fn trees_of_other_nodes_may_be_the_same(rt: HostRuntime) -> Result<(), Fail> {
    let alloc = rt.alloc();
    let pairs: [(&[(Symbol, &[usize])], &[(Symbol, &[usize])], bool); 7] = [
        (&[(F, &[0])], &[(F, &[1]), (F, &[0])], true),
        (
            &[(F, &[1, 1]), (A, &[])],
            &[(F, &[2, 1]), (A, &[]), (A, &[])],
            true,
        ),
        (
            &[(F, &[1]), (F, &[2]), (A, &[])],
            &[(F, &[1]), (A, &[])],
            false,
        ),
        (&[(F, &[0])], &[(F, &[1]), (F, &[2]), (A, &[])], false),
        (
            &[(F, &[1, 2]), (A, &[]), (F, &[])],
            &[(F, &[1, 1]), (A, &[])],
            false,
        ),
        (
            &[(Symbol::Further(0), &[])],
            &[(Symbol::Further(0), &[0])],
            false,
        ),
        (
            &[(Symbol::Further(0), &[])],
            &[(Symbol::Named(0), &[])],
            false,
        ),
    ];
    for (left, right, alike) in pairs {
        let left = tree(alloc, left)?;
        let right = tree(alloc, right)?;
        assert_eq!(rt; same(alloc, &left, &right), Ok(alike), "{left:?} {right:?}");
        assert_eq!(rt; same(alloc, &right, &left), Ok(alike), "{right:?} {left:?}");
    }
    Ok(())
}

// A loop of so many nodes.
fn long_loop(alloc: Global, length: usize) -> Result<Tree, Fail> {
    let mut nodes = Vec::new(alloc);
    for next in 1..length {
        nodes.push(node(alloc, F, &[next])?)?;
    }
    nodes.push(node(alloc, F, &[0])?)?;
    Ok(Tree::new(nodes, 0)?)
}

// More pairs of nodes than 16 bits can number.
#[test]
fn a_long_loop_is_a_short_one(rt: HostRuntime) -> Result<(), Fail> {
    let long = long_loop(rt.alloc(), 70_000)?;
    let short = long_loop(rt.alloc(), 1)?;
    assert_eq!(rt; same(rt.alloc(), &long, &short), Ok(true));
    assert_eq!(rt; same(rt.alloc(), &short, &long), Ok(true));
    Ok(())
}

#[test]
fn a_loop_is_not_finite_and_a_shared_node_is(rt: HostRuntime) -> Result<(), Fail> {
    let alloc = rt.alloc();
    let trees: [(&[(Symbol, &[usize])], bool); 6] = [
        (&[(F, &[0])], false),
        (&[(A, &[])], true),
        (&[(F, &[1, 2]), (F, &[2, 2]), (A, &[])], true),
        (&[(F, &[1, 2]), (A, &[]), (F, &[1, 0])], false),
        (&[(F, &[2]), (F, &[1]), (A, &[])], true),
        (&[(F, &[1]), (F, &[1])], false),
    ];
    for (nodes, finite) in trees {
        let tree = tree(alloc, nodes)?;
        assert_eq!(rt; is_finite(alloc, &tree), Ok(finite), "{tree:?}");
    }
    Ok(())
}

#[test]
fn an_assignment_gives_the_tree_of_each_variable(rt: HostRuntime) -> Result<(), Fail> {
    let alloc = rt.alloc();
    let leaf = Symbol::Further(0);
    let mut nodes = Vec::new(alloc);
    nodes.push(node(alloc, leaf, &[0])?)?;
    nodes.push(node(alloc, A, &[])?)?;
    let mut roots = Places::new(alloc);
    roots.push(0)?;
    roots.push(1)?;
    let assignment = Assignment::new(nodes, roots)?;
    assert_eq!(rt; assignment.nodes().len(), 2);
    assert_eq!(rt; assignment.roots().len(), 2);
    let looping = assignment.tree(alloc, 0)?;
    assert_eq!(rt; looping.at(&[0, 0]), Some((&leaf, 1)));
    let constant = assignment.tree(alloc, 1)?;
    assert_eq!(rt; constant.at(&[]), Some((&A, 0)));
    Ok(())
}

#[test]
fn places_out_of_range_make_no_assignment(rt: HostRuntime) -> Result<(), Fail> {
    let alloc = rt.alloc();
    for (child, root, error) in [
        (0, 1, Some(TreeError::Root)),
        (1, 1, Some(TreeError::Child(0))),
        (0, 0, None),
    ] {
        let mut nodes = Vec::new(alloc);
        nodes.push(node(alloc, F, &[child])?)?;
        let mut roots = Places::new(alloc);
        roots.push(0)?;
        roots.push(root)?;
        assert_eq!(rt; Assignment::new(nodes, roots).err(), error);
    }
    Ok(())
}

#[test]
fn laws_can_be_called(_rt: HostRuntime) {
    sameness_laws();
    stability_laws();
}
