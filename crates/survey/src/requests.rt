//! What is asked for: a fabric, and what to do with it.
ghost use Rattle.std.specs.Prelude.{◌≤◌};
ghost use Rattle.std.specs.Vec.Iter.{into_iter_len};

use crate::complaints::Complaint;
use std::alloc::Global;
use std::vec::IntoIter;

// The words that are left. No function below adds to them, so the loop of `read` ends.
type Words = IntoIter<String>;

/// Where the fabric comes from.
#[derive(Drop)]
pub(crate) enum Source {
    Mesh { rows: u32, columns: u32 },
    Cube { dimension: u32 },
    Chart { file: String },
}

/// Two numbers that stand for labels, and may be too large to be any.
#[derive(Clone, Copy, Debug)]
pub(crate) struct Ends {
    pub(crate) from: u32,
    pub(crate) to: u32,
}

/// What is done with it.
#[derive(Drop)]
pub(crate) enum Action {
    /// Tell the way from a label to another.
    Way(Ends),
    /// Close the link between two labels.
    Close(Ends),
    /// Print the table of the nodes.
    Show,
    /// Write the chart of what is left of the fabric.
    Write { file: String },
}

#[derive(Drop)]
pub(crate) struct Request {
    pub(crate) source: Source,
    /// In the order of the words.
    pub(crate) actions: Vec<Action>,
}

fn number(word: String) -> Result<u32, Complaint> {
    word.parse().map_err(|_| Complaint::NotANumber(word))
}

fn next_word(words: &mut Words) -> Result<String, Complaint>
    ensures { into_iter_len words.new ≤ into_iter_len words.old }
{
    words.next().ok_or(Complaint::Words)
}

// The next two words as numbers. A missing word is told before a word that is no number.
fn pair(words: &mut Words) -> Result<(u32, u32), Complaint>
    ensures { into_iter_len words.new ≤ into_iter_len words.old }
{
    let first = next_word(words)?;
    let second = next_word(words)?;
    Ok((number(first)?, number(second)?))
}

fn read_ends(words: &mut Words) -> Result<Ends, Complaint>
    ensures { into_iter_len words.new ≤ into_iter_len words.old }
{
    let (from, to) = pair(words)?;
    Ok(Ends { from, to })
}

// `mesh ROWS COLUMNS`, `cube DIMENSION` or `chart FILE`
fn read_source(words: &mut Words) -> Result<Source, Complaint> {
    match next_word(words)?.as_str() {
        "mesh" => {
            let (rows, columns) = pair(words)?;
            Ok(Source::Mesh { rows, columns })
        }
        "cube" => Ok(Source::Cube {
            dimension: number(next_word(words)?)?,
        }),
        "chart" => Ok(Source::Chart {
            file: next_word(words)?,
        }),
        _ => Err(Complaint::Words),
    }
}

// `way FROM TO`, `close FROM TO`, `show` or `write FILE`
fn read_action(kind: &str, words: &mut Words) -> Result<Action, Complaint>
    ensures { into_iter_len words.new ≤ into_iter_len words.old }
{
    match kind {
        "way" => Ok(Action::Way(read_ends(words)?)),
        "close" => Ok(Action::Close(read_ends(words)?)),
        "show" => Ok(Action::Show),
        "write" => Ok(Action::Write {
            file: next_word(words)?,
        }),
        _ => Err(Complaint::Words),
    }
}

/// The fabric, and then any number of actions.
pub(crate) fn read(heap: Global, words: Vec<String>) -> Result<Request, Complaint> {
    let mut words = words.into_iter();
    let source = read_source(&mut words)?;
    let mut actions = Vec::new(heap);
    while let Some(kind) = words.next() {
        actions.push(read_action(&kind, &mut words)?)?;
    }
    Ok(Request { source, actions })
}
