//! The house's rule, read from a table of all sets.
ghost use Rattle.std.specs.Prelude.{◌≡◌, true};
ghost use Rattle.voting.specs.Rules.{house, tells};
ghost use Rattle.voting.specs.EverySet.{house_lawful};

use crate::{Members, VotingRule};

/// The house's rule for eight controllers: five may decide, or four with controller 0 among them.
#[derive(Clone, Copy)]
pub struct HouseTable;

// The two entries of the table, as short as its lines need them.
const N: bool = false;

const Y: bool = true;

/// Which sets may decide, 16 to a line.
#[rattlefmt::skip]
const TABLE: [bool; 256] = [
    N, N, N, N, N, N, N, N, N, N, N, N, N, N, N, Y,
    N, N, N, N, N, N, N, Y, N, N, N, Y, N, Y, N, Y,
    N, N, N, N, N, N, N, Y, N, N, N, Y, N, Y, N, Y,
    N, N, N, Y, N, Y, N, Y, N, Y, N, Y, N, Y, Y, Y,
    N, N, N, N, N, N, N, Y, N, N, N, Y, N, Y, N, Y,
    N, N, N, Y, N, Y, N, Y, N, Y, N, Y, N, Y, Y, Y,
    N, N, N, Y, N, Y, N, Y, N, Y, N, Y, N, Y, Y, Y,
    N, Y, N, Y, N, Y, Y, Y, N, Y, Y, Y, Y, Y, Y, Y,
    N, N, N, N, N, N, N, Y, N, N, N, Y, N, Y, N, Y,
    N, N, N, Y, N, Y, N, Y, N, Y, N, Y, N, Y, Y, Y,
    N, N, N, Y, N, Y, N, Y, N, Y, N, Y, N, Y, Y, Y,
    N, Y, N, Y, N, Y, Y, Y, N, Y, Y, Y, Y, Y, Y, Y,
    N, N, N, Y, N, Y, N, Y, N, Y, N, Y, N, Y, Y, Y,
    N, Y, N, Y, N, Y, Y, Y, N, Y, Y, Y, Y, Y, Y, Y,
    N, Y, N, Y, N, Y, Y, Y, N, Y, Y, Y, Y, Y, Y, Y,
    N, Y, Y, Y, Y, Y, Y, Y, Y, Y, Y, Y, Y, Y, Y, Y,
];

/// The table has the house's answer at each set.
fn table() -> &'static [bool; 256]
    ensures { tells house 0 result.now ≡ true }
{
    &TABLE
}

/// Accepts what the table says.
impl VotingRule for HouseTable {
    ghost group = { λ _. 8 };

    ghost accepted = { λ _. house };

    // It keeps the four laws, since it was tested at every set.
    ghost lawful = { λ rule owed. house_lawful };

    fn size(&self) -> u8 {
        8
    }

    #[tactic(auto, using(crate::specs::EverySet::told))]
    fn accepts(&self, set: Members) -> bool {
        table()[usize::from(set)]
    }
}
