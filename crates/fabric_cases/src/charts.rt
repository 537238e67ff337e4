//! Charts: what is refused and where, what is opened, and round trips.
use crate::answers::number;
use fabric::{Addressed, Chart, Cube, Fabric, Layout, Mesh, write_chart};
use std::process::Abort;
use std::test::Fail;

// Three nodes, each a neighbour of the others.
const TRIANGLE: [[u8; 12]; 3] = [
    [0, 0, 0, 5, 1, 2, 255, 255, 255, 255, 255, 255],
    [1, 0, 0, 5, 255, 0, 2, 255, 255, 255, 255, 255],
    [0, 0, 0, 6, 1, 0, 255, 255, 255, 255, 255, 255],
];

fn put(bytes: &mut [u8], at: usize, byte: u8) {
    if let Some(place) = bytes.get_mut(at) {
        *place = byte;
    }
}

fn triangle() -> [u8; 36] {
    let mut bytes = [0; 36];
    bytes.copy_from_slice(TRIANGLE.as_flattened());
    bytes
}

// The refusal's number, the record and the port; no number where the chart passes.
fn fault_of(bytes: &[u8]) -> (u8, u8, u8) {
    Chart::check(bytes).err().map_or(
        (0, 0, 0),
        |fault| (fault.refusal.number(), fault.record, fault.port),
    )
}

fn front(bytes: &[u8], n: usize) -> &[u8] {
    bytes.get(..n).unwrap_or(bytes)
}

// Each record begins at a multiple of 12, and its ports at byte 4.
#[test]
fn each_fault_is_told_with_its_place(rt: HostRuntime) {
    let cases = [
        (12 + 4 + 3, 3, (4, 1, 3)),
        (24 + 4 + 7, 254, (4, 2, 7)),
        (24 + 4 + 2, 2, (5, 2, 2)),
        (4 + 7, 0, (5, 0, 7)),
        (12 + 4 + 5, 2, (6, 1, 5)),
        (4 + 7, 1, (6, 0, 7)),
        (12 + 4 + 2, 255, (7, 2, 0)),
        (12 + 4 + 1, 255, (7, 0, 0)),
        (24 + 4 + 1, 255, (7, 0, 1)),
        (12, 0, (8, 1, 0)),
        (24 + 3, 5, (8, 2, 0)),
        (0, 9, (0, 0, 0)),
    ];
    assert_eq!(rt; fault_of(&triangle()), (0, 0, 0));
    for (at, byte, fault) in cases {
        let mut bytes = triangle();
        put(&mut bytes, at, byte);
        assert_eq!(rt; fault_of(&bytes), fault);
    }
}

#[test]
fn an_earlier_question_goes_first(rt: HostRuntime) {
    let cases = [
        // Nothing but the chain is broken, from 1 to 2 and then from 0 to 1.
        ([(12 + 4 + 2, 255), (24 + 4, 255), (0, 9)], (9, 1, 0)),
        ([(4, 255), (12 + 4 + 1, 255), (0, 9)], (9, 0, 0)),
        // The fault of the earlier question stands in the later record.
        ([(4 + 2, 0), (24 + 4 + 7, 200), (0, 9)], (4, 2, 7)),
        ([(4 + 2, 1), (24 + 4 + 7, 2), (0, 9)], (5, 2, 7)),
        ([(12 + 4 + 1, 255), (24 + 4 + 5, 1), (0, 9)], (6, 2, 5)),
        ([(12, 0), (12 + 4 + 2, 255), (0, 0)], (7, 2, 0)),
        ([(4, 255), (12 + 4 + 1, 255), (24 + 3, 5)], (8, 2, 0)),
        // Both faults are of one question.
        ([(4 + 7, 9), (24 + 4, 9), (0, 9)], (4, 0, 7)),
        ([(12 + 4 + 4, 9), (12 + 4 + 3, 9), (0, 9)], (4, 1, 3)),
    ];
    for (edits, fault) in cases {
        let mut bytes = triangle();
        for (at, byte) in edits {
            put(&mut bytes, at, byte);
        }
        assert_eq!(rt; fault_of(&bytes), fault);
        assert_eq!(rt; fault_of(front(&bytes, 35)), (3, 0, 0));
    }
}

#[test]
fn one_to_128_whole_records_are_a_chart(rt: HostRuntime) -> Result<(), Fail> {
    let mut one = [0; 13];
    assert_eq!(rt; write_chart(&Mesh::new(1, 1)?, &mut one)?, 12);
    let mut most = [0; 1548];
    assert_eq!(rt; write_chart(&Mesh::new(1, 128)?, &mut most)?, 1536);
    for (length, number) in [(0, 3), (11, 3), (12, 0), (13, 3)] {
        assert_eq!(rt; fault_of(front(&one, length)), (number, 0, 0));
    }
    for (length, number, nodes) in [(1536, 0, 128), (1537, 3, 1), (1548, 3, 1)] {
        assert_eq!(rt; fault_of(front(&most, length)), (number, 0, 0));
        assert_eq!(rt; Chart::open(front(&most, length)).size(), nodes);
    }
    Ok(())
}

#[test]
fn a_good_chart_opens_as_its_fabric(rt: HostRuntime) {
    let chart = Chart::open(&triangle());
    assert_eq!(rt; chart.bytes(), &triangle()[..]);
    assert_eq!(rt; chart.size(), 3);
    for (label, address) in [(0, 5), (1, 16777221), (2, 6)] {
        assert_eq!(rt; chart.address(label), Some(address));
        assert_eq!(rt; chart.label_of(address), Some(label));
    }
    let ports = [
        (0, 0, Some(1)),
        (0, 1, Some(2)),
        (0, 2, None),
        (1, 0, None),
        (1, 1, Some(0)),
        (1, 2, Some(2)),
        (2, 7, None),
        (2, 8, None),
        (3, 0, None),
        (255, 255, None),
    ];
    for (label, port, neighbour) in ports {
        assert_eq!(rt; chart.neighbour(label, port), neighbour);
    }
    assert_eq!(rt; chart.address(3), None);
    assert_eq!(rt; chart.label_of(7), None);
}

#[test]
fn a_bad_chart_opens_as_one_node(rt: HostRuntime) {
    for length in [0, 11, 12, 24, 35] {
        let chart = Chart::open(front(&triangle(), length));
        assert_eq!(rt; chart.size(), 1);
        assert_eq!(rt; chart.address(0), Some(0));
        assert_eq!(rt; chart.label_of(0), Some(0));
        assert_eq!(rt; chart.label_of(5), None);
        for port in 0..=255u8 {
            assert_eq!(rt; chart.neighbour(0, port), None);
        }
    }
}

#[test]
fn a_short_buffer_is_refused_and_kept(rt: HostRuntime) -> Result<(), Fail> {
    let chart = Chart::open(&triangle());
    let mut short = [7; 35];
    assert_eq!(rt; number(write_chart(&chart, &mut short)), 15);
    assert_eq!(rt; &short[..], &[7; 35][..]);
    let mut exact = [7; 36];
    assert_eq!(rt; write_chart(&chart, &mut exact)?, 36);
    assert_eq!(rt; &exact[..], &triangle()[..]);
    let mut longer = [7; 40];
    assert_eq!(rt; write_chart(&chart, &mut longer)?, 36);
    assert_eq!(rt; front(&longer, 36), &triangle()[..]);
    assert_eq!(rt; &longer[36..], &[7; 4][..]);
    Ok(())
}

fn same_fabric<F: Addressed>(rt: &impl Abort, chart: &Chart, fabric: &F) {
    assert_eq!(rt; chart.size(), fabric.size());
    for label in 0..=255u8 {
        assert_eq!(rt; chart.address(label), fabric.address(label));
        for port in 0..=8u8 {
            assert_eq!(rt; chart.neighbour(label, port), fabric.neighbour(label, port));
        }
    }
}

// From the fabric to its chart and back, and from there to the same bytes.
fn comes_back<F: Addressed>(rt: &impl Abort, fabric: &F) -> Result<(), Fail> {
    let mut bytes = [0; 1536];
    let length = write_chart(fabric, &mut bytes)?;
    assert_eq!(rt; fault_of(front(&bytes, length)), (0, 0, 0));
    let chart = Chart::open(front(&bytes, length));
    same_fabric(rt, &chart, fabric);
    let mut again = [0; 1536];
    assert_eq!(rt; write_chart(&chart, &mut again)?, length);
    assert_eq!(rt; &again[..], &bytes[..]);
    Ok(())
}

#[test]
fn fabrics_come_back_from_their_charts(rt: HostRuntime) -> Result<(), Fail> {
    for (rows, columns) in [(1, 1), (1, 2), (3, 4), (4, 4), (8, 16), (16, 8), (128, 1)] {
        comes_back(&rt, &Mesh::new(rows, columns)?)?;
    }
    for dimension in 0..=7u32 {
        comes_back(&rt, &Cube::new(dimension)?)?;
    }
    Ok(())
}

#[test]
fn layouts_come_back_from_their_charts(rt: HostRuntime) -> Result<(), Fail> {
    let mut mesh = Layout::new(Mesh::new(4, 4)?);
    for link in [(6, 9), (10, 5), (15, 8)] {
        mesh.close(link)?;
        comes_back(&rt, &mesh)?;
    }
    let mut cube = Layout::new(Cube::new(7)?);
    for link in [(0, 127), (126, 1), (2, 125)] {
        cube.close(link)?;
        comes_back(&rt, &cube)?;
    }
    Ok(())
}
