//! What callers may do with a chart, a path and the closed links: use a copy again, and count in a byte.
use fabric::{Chart, Fabric, Layout, Mesh, Path, way};
use std::test::Fail;

fn records(chart: Chart) -> usize {
    chart.bytes().len() / 12
}

fn hops(path: Path) -> usize {
    path.labels().len() - 1
}

// It is proved that the number fits, since a layout closes at most 64 links.
fn closed<F: Fabric>(layout: &Layout<F>) -> u8 {
    layout.closed().len() as u8
}

#[test]
fn a_chart_is_used_again(rt: HostRuntime) {
    let chart = Chart::open(&[]);
    let both = [chart, chart];
    assert_eq!(rt; (records(chart), records(chart)), (1, 1));
    assert_eq!(rt; both[1].bytes(), chart.bytes());
    assert_eq!(rt;
        (Layout::new(chart).size(), Layout::new(chart).size()),
        (1, 1)
    );
}

#[test]
fn a_path_is_used_again(rt: HostRuntime) -> Result<(), Fail> {
    let path = way(&Mesh::new(4, 4)?, 6, 13).ok_or("no way")?;
    assert_eq!(rt; (hops(path), hops(path)), (3, 3));
    Ok(())
}

#[test]
fn closed_links_are_counted_in_a_byte(rt: HostRuntime) -> Result<(), Fail> {
    let mut layout = Layout::new(Mesh::new(4, 4)?);
    assert_eq!(rt; closed(&layout), 0);
    layout.close((6, 9))?;
    assert_eq!(rt; closed(&layout), 1);
    Ok(())
}
