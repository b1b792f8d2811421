// How a trial is told: what it came to, in the numbers that C reads.
use model::{Answer, Climbed, Found, Objection, Process, Refusal, Verdict};
use std::fmt;

// The number of a call: 0 for a grant, else the refusal's.
pub(crate) fn number(ended: Result<u32, Refusal>) -> u32 {
    Answer::from(ended).number
}

// A call's number, and the place that it gives.
#[derive(Clone, Copy)]
pub(crate) struct Placed(pub(crate) Answer);

impl fmt::Display for Placed {
    fn fmt<W: fmt::Write>(&self, f: &mut fmt::Formatter<W>) -> fmt::Result {
        write!(f, "{}, place {}", self.0.number, self.0.place)
    }
}

// A query's number, the value, and how far and to which place it was climbed.
#[derive(Clone, Copy)]
pub(crate) struct Looked(pub(crate) Result<Climbed, Refusal>);

impl fmt::Display for Looked {
    fn fmt<W: fmt::Write>(&self, f: &mut fmt::Formatter<W>) -> fmt::Result {
        let found = Found::from(self.0);
        write!(
            f,
            "{}, value {}, parents climbed {}, place {}",
            found.number, found.value, found.climbed, found.place
        )
    }
}

// A claim's number, and the rule that it breaks.
#[derive(Clone, Copy)]
pub(crate) struct Judged(pub(crate) Result<(), Objection>);

impl fmt::Display for Judged {
    fn fmt<W: fmt::Write>(&self, f: &mut fmt::Formatter<W>) -> fmt::Result {
        let verdict = Verdict::from(self.0);
        write!(f, "{}, rule {}", verdict.number, verdict.rule)
    }
}

// A process: its role, its type, and its forced role's number.
#[derive(Clone, Copy)]
pub(crate) struct State(pub(crate) Process);

impl fmt::Display for State {
    fn fmt<W: fmt::Write>(&self, f: &mut fmt::Formatter<W>) -> fmt::Result {
        let process = self.0;
        let forced = u32::from(process.forced);
        write!(
            f,
            "role {}, type {}, forced {forced}",
            process.role, process.rctype
        )
    }
}
