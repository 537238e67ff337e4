//! Layouts: closed links, what is refused, and the fabric that is left.
use crate::answers::number;
use fabric::{Addressed, Cube, Fabric, Layout, Mesh, hop, length};
use std::test::Fail;

#[test]
fn the_first_no_gives_its_number(rt: HostRuntime) -> Result<(), Fail> {
    let mut layout = Layout::new(Mesh::new(4, 4)?);
    let cases = [
        ((16, 0), 10),
        ((0, 16), 10),
        ((255, 255), 10),
        ((6, 10), 11),
        ((6, 6), 11),
        ((6, 7), 12),
        ((7, 6), 12),
        ((6, 9), 0),
        ((6, 9), 13),
        ((9, 6), 13),
        ((10, 5), 0),
        ((5, 10), 13),
    ];
    for (link, expected) in cases {
        assert_eq!(rt; number(layout.close(link)), expected);
    }
    assert_eq!(rt; layout.closed(), [(6, 9), (10, 5)].as_slice());
    Ok(())
}

#[test]
fn a_closed_link_is_missing_both_ways(rt: HostRuntime) -> Result<(), Fail> {
    let mesh = Mesh::new(4, 4)?;
    let mut layout = Layout::new(mesh);
    layout.close((9, 6))?;
    for label in 0..20u8 {
        for port in 0..9u8 {
            let expected = match (label, port) {
                (6, 2) | (9, 3) => None,
                _ => mesh.neighbour(label, port),
            };
            assert_eq!(rt; layout.neighbour(label, port), expected);
        }
        assert_eq!(rt; layout.address(label), mesh.address(label));
    }
    for address in 0..1100u32 {
        assert_eq!(rt; layout.label_of(address), mesh.label_of(address));
    }
    assert_eq!(rt; layout.size(), 16);
    Ok(())
}

#[test]
fn ways_go_round_a_closed_link(rt: HostRuntime) -> Result<(), Fail> {
    let mut layout = Layout::new(Mesh::new(4, 4)?);
    assert_eq!(rt; length(&layout, 6, 9), Some(1));
    layout.close((6, 9))?;
    assert_eq!(rt; hop(&layout, 6, 13), Some(7));
    assert_eq!(rt; length(&layout, 6, 9), Some(3));
    assert_eq!(rt; length(&layout, 9, 6), Some(3));
    // as far on the grid as before, and two hops more
    assert_eq!(rt; length(&layout, 6, 13), Some(5));
    Ok(())
}

// Closes the links of a label, and answers whether one was refused for want of room.
fn close_all<F: Fabric>(layout: &mut Layout<F>, label: u8) -> bool {
    (0..8u8).any(|port| {
        layout
            .neighbour(label, port)
            .is_some_and(|neighbour| number(layout.close((label, neighbour))) == 14)
    })
}

#[test]
fn sixty_four_links_can_be_closed(rt: HostRuntime) -> Result<(), Fail> {
    let mut layout = Layout::new(Mesh::new(16, 8)?);
    assert!(rt; (0..128u8).any(|label| close_all(&mut layout, label)));
    assert_eq!(rt; layout.closed().len(), 64);
    // row 15 is out of reach of the first 64, row 1 is not
    assert_eq!(rt; number(layout.close((112, 127))), 14);
    assert_eq!(rt; number(layout.close((0, 15))), 13);
    assert_eq!(rt; number(layout.close((112, 113))), 12);
    assert_eq!(rt; layout.closed().len(), 64);
    Ok(())
}

#[test]
fn a_cube_without_a_link(rt: HostRuntime) -> Result<(), Fail> {
    let mut layout = Layout::new(Cube::new(3)?);
    assert_eq!(rt; number(layout.close((0, 7))), 0);
    assert_eq!(rt; number(layout.close((0, 2))), 11);
    assert_eq!(rt; layout.neighbour(0, 2), None);
    assert_eq!(rt; layout.neighbour(7, 2), None);
    assert_eq!(rt; hop(&layout, 0, 7), Some(3));
    assert_eq!(rt; length(&layout, 0, 7), Some(3));
    Ok(())
}
