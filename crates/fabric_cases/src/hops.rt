//! Hops, ways and lengths on meshes.
use fabric::{Fabric, Mesh, hop, length, way};
use std::process::Abort;
use std::test::Fail;

#[test]
fn hops_go_as_far_as_they_may(rt: HostRuntime) -> Result<(), Fail> {
    let mesh = Mesh::new(4, 4)?;
    let cases = [
        (6, 13, Some(9)),
        (6, 7, Some(7)),
        (6, 4, Some(5)),
        (6, 1, Some(1)),
        (6, 8, Some(7)),
        (9, 0, Some(6)),
        (6, 6, None),
        (6, 16, None),
        (16, 6, None),
        (255, 255, None),
    ];
    for (from, towards, expected) in cases {
        assert_eq!(rt; hop(&mesh, from, towards), expected);
    }
    Ok(())
}

fn check_way(rt: &impl Abort, mesh: &Mesh, from: u8, to: u8, labels: &[u8]) -> Result<(), Fail> {
    let path = way(mesh, from, to).ok_or("no way")?;
    assert_eq!(rt; path.labels(), labels);
    Ok(())
}

#[test]
fn way_is_told_label_by_label(rt: HostRuntime) -> Result<(), Fail> {
    let mesh = Mesh::new(4, 4)?;
    check_way(&rt, &mesh, 6, 13, &[6, 9, 10, 13])?;
    check_way(&rt, &mesh, 13, 6, &[13, 10, 9, 6])?;
    check_way(&rt, &mesh, 5, 5, &[5])?;
    check_way(&rt, &Mesh::new(2, 3)?, 0, 4, &[0, 1, 4])?;
    assert!(rt; way(&mesh, 5, 16).is_none());
    assert!(rt; way(&mesh, 16, 5).is_none());
    Ok(())
}

#[test]
fn length_of_a_missing_label_is_none(rt: HostRuntime) -> Result<(), Fail> {
    let mesh = Mesh::new(4, 4)?;
    for (from, to) in [(16, 0), (0, 16), (16, 16), (255, 0), (0, 255)] {
        assert_eq!(rt; length(&mesh, from, to), None);
    }
    Ok(())
}

fn grid_distance(mesh: &Mesh, from: u8, to: u8) -> Option<u8> {
    let (x, y) = mesh.place_of(from)?;
    let (v, w) = mesh.place_of(to)?;
    x.abs_diff(v).checked_add(y.abs_diff(w))
}

#[test]
fn length_is_the_grid_distance(rt: HostRuntime) -> Result<(), Fail> {
    let shapes = [
        (1, 1),
        (1, 2),
        (2, 1),
        (2, 2),
        (3, 4),
        (4, 3),
        (4, 4),
        (5, 7),
        (7, 5),
        (1, 128),
        (128, 1),
        (2, 64),
        (64, 2),
        (11, 11),
        (16, 8),
        (8, 16),
    ];
    for (rows, columns) in shapes {
        let mesh = Mesh::new(rows, columns)?;
        for from in 0..mesh.size() {
            for to in 0..mesh.size() {
                assert_eq!(rt; length(&mesh, from, to), grid_distance(&mesh, from, to));
            }
        }
    }
    Ok(())
}
