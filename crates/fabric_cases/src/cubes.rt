//! Cubes: dimensions, addresses, ports and hops.
use crate::answers::number;
use fabric::{Addressed, Cube, Fabric, hop, length};
use std::test::Fail;

#[test]
fn dimensions_up_to_seven_are_built(rt: HostRuntime) -> Result<(), Fail> {
    for (dimension, nodes) in [(0, 1), (1, 2), (3, 8), (6, 64), (7, 128)] {
        assert_eq!(rt; Cube::new(dimension)?.size(), nodes);
    }
    for dimension in [8, 9, 255, 256, 263, u32::MAX] {
        assert_eq!(rt; number(Cube::new(dimension)), 2);
    }
    Ok(())
}

#[test]
fn addresses_are_the_gray_code(rt: HostRuntime) -> Result<(), Fail> {
    let cube = Cube::new(3)?;
    for (label, address) in [
        (0, 0),
        (1, 1),
        (2, 3),
        (3, 2),
        (4, 6),
        (5, 7),
        (6, 5),
        (7, 4),
    ] {
        assert_eq!(rt; cube.address(label), Some(address));
        assert_eq!(rt; cube.label_of(address), Some(label));
    }
    for address in [8, 9, 255, 256, 65536, u32::MAX] {
        assert_eq!(rt; cube.label_of(address), None);
    }
    assert_eq!(rt; Cube::new(7)?.address(127), Some(64));
    Ok(())
}

#[test]
fn ports_flip_their_bit(rt: HostRuntime) -> Result<(), Fail> {
    let cube = Cube::new(7)?;
    for label in 0..128u8 {
        for (port, bit) in (0..7u8).zip([1, 2, 4, 8, 16, 32, 64]) {
            let neighbour = cube.neighbour(label, port).ok_or("no neighbour")?;
            let across = cube.address(label).map(|address| address ^ bit);
            assert_eq!(rt; cube.address(neighbour), across);
            assert_eq!(rt; cube.port_to(label, neighbour), Some(port));
        }
    }
    Ok(())
}

#[test]
fn past_the_end_is_none(rt: HostRuntime) -> Result<(), Fail> {
    let cube = Cube::new(3)?;
    for port in 0..=255u8 {
        assert_eq!(rt; cube.neighbour(8, port), None);
        assert_eq!(rt; Cube::new(0)?.neighbour(0, port), None);
    }
    for port in 3..=255u8 {
        assert_eq!(rt; cube.neighbour(7, port), None);
    }
    for (from, to) in [(0, 0), (0, 2), (1, 5), (0, 8), (8, 0), (8, 15), (255, 254)] {
        assert_eq!(rt; cube.port_to(from, to), None);
    }
    assert_eq!(rt; cube.address(8), None);
    Ok(())
}

#[test]
fn hops_go_by_label_and_not_by_bits(rt: HostRuntime) -> Result<(), Fail> {
    let cube = Cube::new(3)?;
    for (from, towards, expected) in [
        (0, 6, 3),
        (3, 6, 4),
        (4, 6, 5),
        (5, 6, 6),
        (6, 0, 1),
        (0, 7, 7),
    ] {
        assert_eq!(rt; hop(&cube, from, towards), Some(expected));
    }
    // two bits apart, and four hops
    assert_eq!(rt; length(&cube, 0, 6), Some(4));
    assert_eq!(rt; length(&cube, 6, 0), Some(2));
    Ok(())
}
