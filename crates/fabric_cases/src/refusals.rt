//! What refusals are called by: their numbers and their rules.
use fabric::Refusal;
use std::test::Fail;

#[test]
fn refusals_have_numbers_and_rules(rt: HostRuntime) -> Result<(), Fail> {
    let cases = [
        (
            Refusal::MeshSize,
            1,
            "a mesh has at least 1 row and 1 column, and at most 128 nodes",
        ),
        (Refusal::CubeSize, 2, "a cube has at most 7 dimensions"),
        (
            Refusal::ChartLength,
            3,
            "a chart has 1 to 128 whole records of 12 bytes",
        ),
        (
            Refusal::ChartLabel,
            4,
            "a port leads to a label that exists, or is 255 for none",
        ),
        (Refusal::ChartSelf, 5, "no node neighbours itself"),
        (
            Refusal::ChartTwice,
            6,
            "no neighbour is met through two ports",
        ),
        (
            Refusal::ChartOneWay,
            7,
            "a neighbour names the node that names it",
        ),
        (Refusal::ChartAddress, 8, "all addresses differ"),
        (
            Refusal::ChartChain,
            9,
            "every label but the last neighbours the next label",
        ),
        (Refusal::LinkLabel, 10, "a link joins labels that exist"),
        (Refusal::LinkMissing, 11, "a link joins neighbours"),
        (
            Refusal::LinkInChain,
            12,
            "a link between labels one apart stays open",
        ),
        (Refusal::LinkClosed, 13, "a link is closed once"),
        (
            Refusal::LinksFull,
            14,
            "a layout has at most 64 closed links",
        ),
        (
            Refusal::BufferShort,
            15,
            "a chart takes 12 bytes for each node",
        ),
    ];
    for (refusal, number, rule) in cases {
        assert_eq!(rt; refusal.number(), number);
        assert_eq!(rt; refusal.to_string(rt.alloc())?.as_str(), rule);
    }
    Ok(())
}
