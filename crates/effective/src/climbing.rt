// The climb itself (rules 5, 17, 19): to the parent while the value is inherit parent and there is one.
ghost use Rattle.std.specs.Prelude.{◌≡◌};
ghost use Rattle.model.specs.Effective.{climb as climb_of};

use crate::root_value;
use model::Climbed;
use model::layout::PARENT;
use model::numbers::INHERIT_PARENT;
use tables::records::file_word;

// Word `slot` of file o, which has `depth` parents. It calls itself on the parent, as the definition does; on the way back each call counts one
// parent more, and hands the value and the place where the climb ended down as they are.
#[tactic(auto, using(crate::proofs::Laws::climbs))]
pub fn climb(t: &[u32], depth: u32, slot: u32, o: u32) -> Climbed
    ensures { result ≡ climb_of depth t.now slot o }
{
    let value = file_word(t, o, slot);
    if value != INHERIT_PARENT {
        return Climbed {
            value,
            climbed: 0,
            place: o,
        };
    }
    if depth == 0 {
        return Climbed {
            value: root_value(slot),
            climbed: 0,
            place: o,
        };
    }
    let parent = file_word(t, o, PARENT);
    let up = climb(t, depth - 1, slot, parent);
    Climbed {
        climbed: up.climbed + 1,
        ..up
    }
}
