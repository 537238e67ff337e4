//! The records of a chart, and its check: question after question, each over all records.
ghost use Rattle.std.specs.Prelude.{◌≡◌, ◌*◌, ◌/◌, ◌%◌, ◌<◌, ◌≤◌, nat_lt, slice_index};
ghost use Rattle.fabric.specs.Chart.{records_of, port_at, named_at, address_at, record_with, chart_near, whole};
ghost use Rattle.fabric.specs.Check.{names, taken, passes, passes_at, found, fault, fault_of};
ghost use Rattle.fabric.specs.Options.{allowed};
ghost use Rattle.fabric.specs.Search.{first_fail};

use crate::questions::Question;
use crate::refusals::Refusal;

/// The first question that a chart fails, and where: the record and the port.
#[derive(Clone, Copy, Debug)]
pub struct ChartFault {
    pub refusal: Refusal,
    pub record: u8,
    pub port: u8,
}

/// What a record has at a port that leads nowhere.
pub(crate) const NO_LABEL: u8 = 255;

// How many whole records there are.
pub(crate) fn records(bytes: &[u8]) -> usize
    ensures { result ≡ records_of bytes.now }
{
    bytes.len() / 12
}

// Whether there are 1 to 128 whole records.
fn whole(bytes: &[u8]) -> bool
    ensures { result ≡ whole bytes.now }
{
    bytes.len() % 12 == 0 && records(bytes) >= 1 && records(bytes) <= 128
}

// The byte at a place, or 0 past the end.
fn byte(bytes: &[u8], i: usize) -> u8
    ensures { result ≡ slice_index bytes.now i }
{
    bytes.get(i).copied().unwrap_or(0)
}

// The byte that a record has for a port.
#[tactic(auto, unfolding(crate::specs::Chart::port_at))]
fn port_at(bytes: &[u8], label: u8, port: u8) -> u8
    ensures { result ≡ port_at bytes.now label port }
{
    byte(bytes, 12 * usize::from(label) + 4 + usize::from(port))
}

// The label that a record names at a port.
fn named_at(bytes: &[u8], label: u8, port: u8) -> Option<u8>
    ensures { result ≡ named_at bytes.now label port }
{
    let entry = port_at(bytes, label, port);
    (entry != NO_LABEL).then_some(entry)
}

// The address in a record, most significant byte first.
#[tactic(auto, unfolding(crate::specs::Chart::address_at))]
fn address_at(bytes: &[u8], label: u8) -> u32
    ensures { result ≡ address_at bytes.now label }
{
    let start = 12 * usize::from(label);
    u32::from_be_bytes([
        byte(bytes, start),
        byte(bytes, start + 1),
        byte(bytes, start + 2),
        byte(bytes, start + 3),
    ])
}

// The neighbour in a record, or none where there is no such record or port.
pub(crate) fn neighbour_in(bytes: &[u8], label: u8, port: u8) -> Option<u8>
    ensures { result ≡ chart_near bytes.now label port }
{
    if usize::from(label) < records(bytes) && port < 8 {
        named_at(bytes, label, port)
    } else {
        None
    }
}

// The address in a record, or none where there is no such record.
pub(crate) fn address_in(bytes: &[u8], label: u8) -> Option<u32>
    ensures { result ≡ allowed (nat_lt label (records_of bytes.now)) (address_at bytes.now label) }
{
    (usize::from(label) < records(bytes)).then(|| address_at(bytes, label))
}

// The first of so many records that has an address, or none where none has it.
pub(crate) fn label_in(bytes: &[u8], count: u8, address: u32) -> Option<u8>
    ensures { result ≡ record_with bytes.now count address }
{
    (0..count).find(|label| address_at(bytes, *label) == address)
}

// Whether one of the first ports of a record names the label.
fn names(bytes: &[u8], label: u8, next: u8, ports: u8) -> bool
    ensures { result ≡ names bytes.now label next ports }
{
    (0..ports).any(|port| port_at(bytes, label, port) == next)
}

// Whether a record before this one has its address.
fn taken(bytes: &[u8], label: u8) -> bool
    ensures { result ≡ taken bytes.now label }
{
    let address = address_at(bytes, label);
    (0..label).any(|earlier| address_at(bytes, earlier) == address)
}

// Whether a record passes a question at a port.
fn passes(bytes: &[u8], question: Question, label: u8, port: u8) -> bool
    requires { label < 128 }
    ensures { result ≡ passes question bytes.now label port }
{
    let next = named_at(bytes, label, port);
    match question {
        Question::Exists => next.is_none_or(|next| usize::from(next) < records(bytes)),
        Question::Other => next != Some(label),
        Question::New => next.is_none_or(|next| !names(bytes, label, next, port)),
        Question::Mutual => next.is_none_or(|next| names(bytes, next, label, 8)),
        Question::Address => port > 0 || !taken(bytes, label),
        Question::Next => port > 0
            || records(bytes) <= usize::from(label) + 1
            || names(bytes, label, label + 1, 8),
    }
}

// Record and port of a place: record after record, and there port after port.
fn record_and_port(place: usize) -> (u8, u8)
    requires { place < 1024 }
    ensures { result ≡ (place / 8, place % 8) }
{
    ((place / 8) as u8, (place % 8) as u8)
}

// The first place at which a question fails.
fn failing(bytes: &[u8], question: Question) -> Option<usize>
    requires { records_of bytes.now ≤ 128 }
    ensures { result ≡ first_fail (passes_at question bytes.now) (8 * records_of bytes.now) }
{
    (0..8 * records(bytes)).find(|place| {
        let (record, port) = record_and_port(*place);
        !passes(bytes, question, record, port)
    })
}

// The first fault by a question: the one scan for all questions.
fn scan(bytes: &[u8], question: Question) -> Result<(), ChartFault>
    requires { records_of bytes.now ≤ 128 }
    ensures { fault_of result ≡ found bytes.now question }
{
    let Some(place) = failing(bytes, question) else {
        return Ok(());
    };
    let (record, port) = record_and_port(place);
    Err(ChartFault {
        refusal: question.into(),
        record,
        port,
    })
}

// The first fault of a chart.
pub(crate) fn ask(bytes: &[u8]) -> Result<(), ChartFault>
    ensures { fault_of result ≡ fault bytes.now }
{
    if !whole(bytes) {
        return Err(ChartFault {
            refusal: Refusal::ChartLength,
            record: 0,
            port: 0,
        });
    }
    scan(bytes, Question::Exists)?;
    scan(bytes, Question::Other)?;
    scan(bytes, Question::New)?;
    scan(bytes, Question::Mutual)?;
    scan(bytes, Question::Address)?;
    scan(bytes, Question::Next)
}
