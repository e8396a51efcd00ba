ghost use Rattle.std.specs.Prelude.{◌≡◌, length, IfOk};

use super::*;
use std::alloc::Global;
use std::test::*;

// Whether these cells follow each other, and the first follows the last.
fn is_ring(rings: &Rings, cells: &[usize]) -> bool {
    for i in 0..cells.len() {
        let behind = if i + 1 < cells.len() {
            cells[i + 1]
        } else {
            cells[0]
        };
        let follows = cells[i] < rings.len() && rings.next(cells[i]) == behind;
        let leads_back = behind < rings.len() && rings.previous(behind) == cells[i];
        if !follows || !leads_back {
            return false;
        }
    }
    true
}

#[test]
fn a_cell_more_follows_its_cell(rt: HostRuntime) -> Result<(), Fail> {
    let mut rings = Rings::new(rt.alloc());
    assert_eq!(rt; rings.new_ring(), Ok(0));
    assert_eq!(rt; rings.new_ring(), Ok(1));
    assert!(rt; rings.len() == 2);
    assert_eq!(rt; rings.add_cell(0), Ok(2));
    assert!(rt; is_ring(&rings, &[0, 2]));
    assert!(rt; is_ring(&rings, &[1]));
    assert!(rt; !is_ring(&rings, &[0, 1]));
    Ok(())
}

// The rings 0 2 and 1 3.
fn two_rings(alloc: Global) -> Result<Rings, NoMemory>
    ensures { IfOk result (λ r. length r ≡ 4) }
{
    let mut rings = Rings::new(alloc);
    rings.new_ring()?;
    rings.new_ring()?;
    rings.add_cell(0)?;
    rings.add_cell(1)?;
    Ok(rings)
}

#[test]
fn a_splice_is_taken_back(rt: HostRuntime) -> Result<(), Fail> {
    let mut rings = two_rings(rt.alloc())?;
    let cut = rings.splice(0, 1);
    assert!(rt; is_ring(&rings, &[0, 3, 1, 2]));
    rings.unsplice(cut);
    assert!(rt; is_ring(&rings, &[0, 2]));
    assert!(rt; is_ring(&rings, &[1, 3]));
    Ok(())
}

#[test]
fn the_last_cell_leaves(rt: HostRuntime) -> Result<(), Fail> {
    let mut rings = two_rings(rt.alloc())?;
    let _cut = rings.splice(2, 3);
    assert!(rt; is_ring(&rings, &[0, 2, 1, 3]));
    rings.remove_last();
    assert!(rt; is_ring(&rings, &[0, 2, 1]));
    assert!(rt; rings.len() == 3);
    Ok(())
}
