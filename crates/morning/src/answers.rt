// What the monitor answers, in words.
use model::{Objection, Refusal, Rule};
use std::fmt;

// A refusal: its number, and what that means.
#[derive(Clone, Copy)]
pub(crate) struct Reason(pub(crate) Refusal);

impl fmt::Display for Reason {
    fn fmt<W: fmt::Write>(&self, f: &mut fmt::Formatter<W>) -> fmt::Result {
        let meaning = match self.0 {
            Refusal::IllFormed => "the tables are damaged",
            Refusal::OutOfRange => "a number is out of its range",
            Refusal::NotLive => "the asking process is not there",
            Refusal::NoSuchPlace => "the thing named is not there, or of the wrong kind or unit",
            Refusal::NotAllowed => "the rules do not allow it",
            Refusal::NotRemovable => "this one is never removed",
            Refusal::TooDeep => "the directories are too deep",
            Refusal::Full => "the table is full",
        };
        write!(f, "REFUSED, number {}: {meaning}", self.0.number())
    }
}

// How a call ended: granted, with the place where something was made, or refused.
#[derive(Clone, Copy)]
pub(crate) struct Ended(pub(crate) Result<u32, Refusal>);

impl fmt::Display for Ended {
    fn fmt<W: fmt::Write>(&self, f: &mut fmt::Formatter<W>) -> fmt::Result {
        match self.0 {
            Ok(0) => write!(f, "granted"),
            Ok(place) => write!(f, "granted, place {place}"),
            Err(refusal) => write!(f, "{}", Reason(refusal)),
        }
    }
}

// A claim that breaks a rule: the rule's number, and what that means, on a line below the refusal.
#[derive(Clone, Copy)]
struct Broken(Rule);

impl fmt::Display for Broken {
    fn fmt<W: fmt::Write>(&self, f: &mut fmt::Formatter<W>) -> fmt::Result {
        let meaning = match self.0 {
            Rule::C1 => "the process is not one of the family",
            Rule::C2 => "a role of the family may administer",
            Rule::C3 => "a role of the family may write, make or delete what is protected",
            Rule::C4 => "a role of the family may turn into one outside it",
            Rule::C5 => "a process of the family may get a type that the claim leaves out",
            Rule::C6 => "a file may have a type that the claim leaves out",
            Rule::C7 => "a program that the family can run brings in a role from outside it",
            Rule::C8 => "the owner's role comes in from outside the family",
            Rule::C9 => "some user's role may come in from outside the family",
        };
        write!(
            f,
            "REFUSED, number 9: the claim breaks a rule\n    rule {}: {meaning}",
            self.0.number()
        )
    }
}

// The checker's verdict on a claim.
#[derive(Clone, Copy)]
pub(crate) struct Judged(pub(crate) Result<(), Objection>);

impl fmt::Display for Judged {
    fn fmt<W: fmt::Write>(&self, f: &mut fmt::Formatter<W>) -> fmt::Result {
        match self.0 {
            Ok(()) => write!(f, "accepted"),
            Err(Objection::Refused(refusal)) => write!(f, "{}", Reason(refusal)),
            Err(Objection::Broken(rule)) => write!(f, "{}", Broken(rule)),
        }
    }
}
