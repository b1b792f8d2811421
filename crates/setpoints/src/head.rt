// Head as pressure: one metre of head is exactly 9,806.65 pascals.
ghost use Rattle.std.specs.Prelude.{◌≡◌};
ghost use Rattle.setpoints.specs.Pascals.{pascals as pascals_of};

// How many hundred-thousandths of a pascal a millimetre of head is, and a pascal.
const MILLIMETRE: u64 = 980665;

const PASCAL: u64 = 100000;

const HALF: u64 = 50000;

// Millimetres of head in whole pascals, to nearest, halves up.
#[tactic(auto, unfolding(crate::specs::Pascals::pascals))]
pub fn pascals(millimetres: u32) -> u64
    ensures { result ≡ pascals_of millimetres }
{
    (u64::from(millimetres) * MILLIMETRE + HALF) / PASCAL
}
