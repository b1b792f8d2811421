// What was sent: items of sixteen bytes, each by value.
ghost use Rattle.std.specs.Prelude.{◌≡◌};
ghost use Rattle.model.specs.Words.{◌!◌, block};
ghost use Rattle.decoding.specs.Kinds.{NUMBERS};
ghost use Rattle.batch.specs.Items.{NUMBERS-AT, padded as padded_of, item_of};
ghost use Rattle.batch.specs.Batch.{items};

pub const ITEM_BYTES: usize = 16;

// A kind, a caller and numbers.
#[derive(Clone, Copy, Debug, PartialEq, Eq)]
pub struct Item {
    pub kind: u32,
    pub caller: u32,
    pub numbers: [u32; 5],
}

// The byte at i; past the end it is 0.
fn byte(b: &[u8], i: usize) -> u32
    ensures { result ≡ b.now ! i }
{
    u32::from(b.get(i).copied().unwrap_or(0))
}

// The call's numbers, one byte each.
#[tactic(auto, unfolding(model::specs::Words::block))]
fn numbers(b: &[u8]) -> [u32; 5]
    ensures { result ≡ block b.now NUMBERS-AT NUMBERS }
{
    [byte(b, 2), byte(b, 3), byte(b, 4), byte(b, 5), byte(b, 6)]
}

// Whether every byte past the numbers is 0; by `&`, so that the compiler reads eight of them at once.
#[tactic(auto, unfolding(crate::specs::Items::padded, sets::specs::Below::all_below))]
fn padded(b: &[u8]) -> bool
    ensures { result ≡ padded_of b.now }
{
    (byte(b, 7) == 0)
        & (byte(b, 8) == 0)
        & (byte(b, 9) == 0)
        & (byte(b, 10) == 0)
        & (byte(b, 11) == 0)
        & (byte(b, 12) == 0)
        & (byte(b, 13) == 0)
        & (byte(b, 14) == 0)
        & (byte(b, 15) == 0)
}

// The item that these bytes are, if all that stands past its numbers is 0.
#[tactic(auto, unfolding(crate::specs::Items::item_of))]
pub fn read(b: &[u8]) -> Option<Item>
    ensures { result ≡ item_of b.now }
{
    if !padded(b) {
        return None;
    }
    Some(Item {
        kind: byte(b, 0),
        caller: byte(b, 1),
        numbers: numbers(b),
    })
}

// How many whole items were sent.
pub fn count(calls: &[u8]) -> usize
    ensures { result ≡ items calls.now }
{
    calls.len() / ITEM_BYTES
}
