//! Meshes: sizes, labels, ports and addresses.
use crate::answers::number;
use fabric::{Addressed, Fabric, Mesh};
use std::process::Abort;
use std::test::Fail;

const ROWS: [[u8; 4]; 4] = [[0, 1, 2, 3], [7, 6, 5, 4], [8, 9, 10, 11], [15, 14, 13, 12]];

fn grid_is_known(rt: &impl Abort, rows: u8) -> Result<(), Fail> {
    let mesh = Mesh::new(u32::from(rows), 4)?;
    for (y, row) in (0..rows).zip(ROWS) {
        for (x, label) in (0..4u8).zip(row) {
            assert_eq!(rt; mesh.label_at((x, y)), Some(label));
            assert_eq!(rt; mesh.place_of(label), Some((x, y)));
        }
    }
    Ok(())
}

#[test]
fn labels_run_to_and_fro(rt: HostRuntime) -> Result<(), Fail> {
    grid_is_known(&rt, 3)?;
    grid_is_known(&rt, 4)
}

#[test]
fn largest_shapes_are_built(rt: HostRuntime) -> Result<(), Fail> {
    for (rows, columns) in [(16, 8), (8, 16), (128, 1), (1, 128), (1, 1), (11, 11)] {
        let mesh = Mesh::new(rows, columns)?;
        assert_eq!(rt; u32::from(mesh.size()), rows.saturating_mul(columns));
        let (m, n) = mesh.shape();
        assert_eq!(rt; (u32::from(m), u32::from(n)), (rows, columns));
    }
    Ok(())
}

#[test]
fn other_shapes_are_refused(rt: HostRuntime) {
    let shapes = [
        (129, 1),
        (1, 129),
        (0, 4),
        (4, 0),
        (0, 0),
        (17, 8),
        (12, 11),
        (65536, 65536),
        (u32::MAX, 1),
        (0, u32::MAX),
        (u32::MAX, u32::MAX),
    ];
    for (rows, columns) in shapes {
        assert_eq!(rt; number(Mesh::new(rows, columns)), 1);
    }
}

#[test]
fn ports_lead_to_the_four_sides(rt: HostRuntime) -> Result<(), Fail> {
    let mesh = Mesh::new(4, 4)?;
    let cases = [
        (6, [Some(5), Some(7), Some(9), Some(1)]),
        (0, [Some(1), None, Some(7), None]),
        (12, [None, Some(13), None, Some(11)]),
        (8, [Some(9), None, Some(15), Some(7)]),
    ];
    for (label, neighbours) in cases {
        for (port, neighbour) in (0..4u8).zip(neighbours) {
            assert_eq!(rt; mesh.neighbour(label, port), neighbour);
        }
    }
    Ok(())
}

#[test]
fn past_the_end_is_none(rt: HostRuntime) -> Result<(), Fail> {
    let mesh = Mesh::new(3, 4)?;
    for label in 12..=255u8 {
        assert_eq!(rt; mesh.place_of(label), None);
        assert_eq!(rt; mesh.address(label), None);
        for port in 0..=255u8 {
            assert_eq!(rt; mesh.neighbour(label, port), None);
        }
    }
    for label in 0..12u8 {
        for port in 4..=255u8 {
            assert_eq!(rt; mesh.neighbour(label, port), None);
        }
    }
    for place in [(4, 0), (0, 3), (255, 0), (0, 255), (255, 255)] {
        assert_eq!(rt; mesh.label_at(place), None);
    }
    for address in [4, 255, 256 * 3, 256 * 255, 65536, 65536 * 256 + 1, u32::MAX] {
        assert_eq!(rt; mesh.label_of(address), None);
    }
    Ok(())
}

#[test]
fn addresses_are_row_and_column(rt: HostRuntime) -> Result<(), Fail> {
    let mesh = Mesh::new(3, 4)?;
    for (label, address) in [(0, 0), (3, 3), (4, 259), (7, 256), (8, 512), (11, 515)] {
        assert_eq!(rt; mesh.address(label), Some(address));
        assert_eq!(rt; mesh.label_of(address), Some(label));
    }
    Ok(())
}
