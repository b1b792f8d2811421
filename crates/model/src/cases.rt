// The named cases of a value, and the numbers that stand for them in the row. Every number stands for a case, as in the definition.
ghost use Rattle.std.specs.Prelude.{◌≡◌};
ghost use Rattle.model.specs.Records.{kind_of, kind_word, initial_of, initial_word, forced_of, forced_word};

use crate::numbers::{
    DIR, FILE, FREE, INHERIT_PARENT, INHERIT_PROCESS, INHERIT_USER, ROLES, UP_MIXED,
    USE_FORCED_ROLE,
};
use crate::{Forced, Initial, Kind};

impl From<u32> for Kind {
    ghost from_gives = { λ w kind. kind ≡ kind_of w };

    // What stands at a file place whose kind is w.
    #[tactic(auto, unfolding(crate::specs::Records::kind_of))]
    fn from(w: u32) -> Kind {
        match w {
            FREE => Kind::Free,
            FILE => Kind::File,
            _ => Kind::Dir,
        }
    }
}

impl From<Kind> for u32 {
    ghost from_gives = { λ kind w. w ≡ kind_word kind };

    // The number of a kind.
    fn from(kind: Kind) -> u32 {
        match kind {
            Kind::Free => FREE,
            Kind::File => FILE,
            Kind::Dir => DIR,
        }
    }
}

impl From<u32> for Initial {
    ghost from_gives = { λ w initial. initial ≡ initial_of w };

    // The initial role that w stands for: below 32 a role.
    #[tactic(auto, unfolding(crate::specs::Records::initial_of))]
    fn from(w: u32) -> Initial {
        match w {
            0..ROLES => Initial::Plain(w),
            INHERIT_PARENT => Initial::InheritParent,
            _ => Initial::UseForcedRole,
        }
    }
}

impl From<Initial> for u32 {
    ghost from_gives = { λ initial w. w ≡ initial_word initial };

    // The number of an initial role.
    fn from(initial: Initial) -> u32 {
        match initial {
            Initial::Plain(role) => role,
            Initial::InheritParent => INHERIT_PARENT,
            Initial::UseForcedRole => USE_FORCED_ROLE,
        }
    }
}

impl From<u32> for Forced {
    ghost from_gives = { λ w forced. forced ≡ forced_of w };

    // The forced role that w stands for: below 32 a role.
    #[tactic(auto, unfolding(crate::specs::Records::forced_of))]
    fn from(w: u32) -> Forced {
        match w {
            0..ROLES => Forced::Plain(w),
            INHERIT_PARENT => Forced::InheritParent,
            INHERIT_USER => Forced::InheritUser,
            INHERIT_PROCESS => Forced::InheritProcess,
            _ => Forced::UpMixed,
        }
    }
}

impl From<Forced> for u32 {
    ghost from_gives = { λ forced w. w ≡ forced_word forced };

    // The number of a forced role.
    fn from(forced: Forced) -> u32 {
        match forced {
            Forced::Plain(role) => role,
            Forced::InheritParent => INHERIT_PARENT,
            Forced::InheritUser => INHERIT_USER,
            Forced::InheritProcess => INHERIT_PROCESS,
            Forced::UpMixed => UP_MIXED,
        }
    }
}
