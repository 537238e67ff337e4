//! What a chart of the right length is asked.
ghost use Rattle.std.specs.Prelude.{◌≡◌};
ghost use Rattle.fabric.specs.Check.{refusal_of};

use crate::refusals::Refusal;

// In this order, each at all records and ports before the next.
#[derive(Clone, Copy)]
pub(crate) enum Question {
    // Is the port 255, or a label that exists?
    Exists,
    // Is it another node?
    Other,
    // Is it new in its record, 255 aside?
    New,
    // Does that neighbour name this label too, 255 aside?
    Mutual,
    // Is the address new?
    Address,
    // Does every record but the last name the next label?
    Next,
}

// Why a chart is refused that fails the question.
impl From<Question> for Refusal {
    ghost from_gives = { λ question refusal. refusal ≡ refusal_of question };

    fn from(question: Question) -> Refusal {
        match question {
            Question::Exists => Refusal::ChartLabel,
            Question::Other => Refusal::ChartSelf,
            Question::New => Refusal::ChartTwice,
            Question::Mutual => Refusal::ChartOneWay,
            Question::Address => Refusal::ChartAddress,
            Question::Next => Refusal::ChartChain,
        }
    }
}
