// The questions, and their numbers.
ghost use Rattle.std.specs.Prelude.{◌≡◌};
ghost use Rattle.engine.specs.Numbers.{IsNumbered, numbers_of};

use crate::fault::Fault;

// A question about a graph.
#[derive(Clone, Copy, PartialEq, Eq, Debug)]
pub enum About {
    // Earliest starts.
    Asap,
    // Latest starts.
    Alap,
    // Latest less earliest starts.
    Mobility,
    // The list schedule.
    List,
    // One step of the list schedule.
    Advance,
    // The checker.
    Check,
    // Peak use.
    Peak,
    // The least lawful schedule.
    First,
    // The least lawful schedule after a row.
    Next,
}

impl About {
    // How many numbers the question takes: the number of types, and for some a bound or a step.
    pub fn numbers(self) -> usize
        ensures { result ≡ numbers_of self }
    {
        match self {
            About::Asap | About::List | About::Peak => 1,
            _ => 2,
        }
    }
}

// A question.
#[derive(Clone, Copy, PartialEq, Eq, Debug)]
pub enum Question {
    // It is about a graph, whose rows stand first.
    Graph(About),
    // A part of a channel's table.
    View,
}

impl TryFrom<usize> for Question {
    type Error = Fault;

    ghost try_from_gives = { IsNumbered };

    // The question that has the number.
    fn try_from(number: usize) -> Result<Question, Fault> {
        match number {
            1 => Ok(Question::Graph(About::Asap)),
            2 => Ok(Question::Graph(About::Alap)),
            3 => Ok(Question::Graph(About::Mobility)),
            4 => Ok(Question::Graph(About::List)),
            5 => Ok(Question::Graph(About::Advance)),
            6 => Ok(Question::Graph(About::Check)),
            7 => Ok(Question::Graph(About::Peak)),
            8 => Ok(Question::Graph(About::First)),
            9 => Ok(Question::Graph(About::Next)),
            10 => Ok(Question::View),
            _ => Err(Fault::Unknown),
        }
    }
}
