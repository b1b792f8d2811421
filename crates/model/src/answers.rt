// Refusals and rules as their numbers, and a result as the answer in numbers that C reads.
ghost use Rattle.std.specs.Prelude.{◌≡◌};
ghost use Rattle.model.specs.declared.Objection.{Objection};
ghost use Rattle.model.specs.Refusals.{number_of, rule_number, answer_of, found_of, verdict_of};

use crate::{Answer, Climbed, Found, Objection, Refusal, Rule, Verdict};

impl Refusal {
    // The number of a refusal.
    pub fn number(self) -> u32
        ensures { result ≡ number_of self }
    {
        self as u32
    }
}

impl Rule {
    // The number of a rule.
    pub fn number(self) -> u32
        ensures { result ≡ rule_number self }
    {
        self as u32
    }
}

impl From<Refusal> for Objection {
    ghost from_gives = { λ refusal objection. objection ≡ Objection.Refused refusal };

    // A claim may be refused as a call is.
    fn from(refusal: Refusal) -> Objection {
        Objection::Refused(refusal)
    }
}

impl From<Rule> for Objection {
    ghost from_gives = { λ rule objection. objection ≡ Objection.Broken rule };

    // A claim that breaks a rule is not accepted.
    fn from(rule: Rule) -> Objection {
        Objection::Broken(rule)
    }
}

impl From<Result<u32, Refusal>> for Answer {
    ghost from_gives = { λ ended answer. answer ≡ answer_of ended };

    // A grant names a place, a refusal none. The number is worked out apart from the place: by one match for both an access costs 132 instructions,
    // and so 127.
    fn from(ended: Result<u32, Refusal>) -> Answer {
        let number = match ended {
            Ok(_) => 0,
            Err(refusal) => refusal.number(),
        };
        Answer {
            number,
            place: ended.unwrap_or(0),
        }
    }
}

impl From<Result<Climbed, Refusal>> for Found {
    ghost from_gives = { λ ended found. found ≡ found_of ended };

    // What was climbed to, or a refusal's number and zeros.
    fn from(ended: Result<Climbed, Refusal>) -> Found {
        match ended {
            Ok(up) => Found {
                number: 0,
                value: up.value,
                climbed: up.climbed,
                place: up.place,
            },
            Err(refusal) => Found {
                number: refusal.number(),
                value: 0,
                climbed: 0,
                place: 0,
            },
        }
    }
}

impl From<Result<(), Objection>> for Verdict {
    ghost from_gives = { λ ended verdict. verdict ≡ verdict_of ended };

    // A broken rule stands beside number 9.
    fn from(ended: Result<(), Objection>) -> Verdict {
        match ended {
            Ok(()) => Verdict { number: 0, rule: 0 },
            Err(Objection::Refused(refusal)) => Verdict {
                number: refusal.number(),
                rule: 0,
            },
            Err(Objection::Broken(rule)) => Verdict {
                number: 9,
                rule: rule.number(),
            },
        }
    }
}
