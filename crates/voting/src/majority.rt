//! A rule by majority, as a value: how it is made, and which sets it accepts.
ghost use Rattle.std.specs.Prelude.{◌≡◌, IsTrue};
ghost use Rattle.voting.specs.Voting.{sized};

use crate::{Members, RuleFault, VotingRule, is_group, within};

/// The rule that more than half of the group may decide.
#[derive(Clone, Copy)]
pub struct Majority {
    // No `Model`: whoever holds a majority knows by `ok` that the laws are owed, and a number alone would not tell.
    size: u8,
    ghost ok: { IsTrue (sized size) },
}

impl Majority {
    ghost use Rattle.voting.specs.Makes.{majority_of};

    /// The majority of a group of this size. A size outside 2 to `LIMIT` is refused as `RuleFault::Size`.
    pub fn new(size: u8) -> Result<Majority, RuleFault>
        ensures { result ≡ majority_of size }
    {
        if !is_group(usize::from(size)) {
            return Err(RuleFault::Size);
        }
        Ok(Majority { size })
    }
}

/// Accepts more than half of the group.
impl VotingRule for Majority {
    ghost use Rattle.voting.specs.Makes.{size_of};
    ghost use Rattle.voting.specs.Rules.{majority};
    ghost use Rattle.voting.specs.AllOnes.{majority_lawful, sized_some};

    ghost group = { size_of };

    ghost accepted = { λ m. majority (size_of m) };

    // It keeps the four laws, since it is a rule by weights of all ones.
    ghost lawful = { λ m owed. majority_lawful (size_of m) (sized_some (size_of m) owed) };

    fn size(&self) -> u8 {
        self.size
    }

    #[tactic(auto, using(crate::specs::Members::count_within))]
    fn accepts(&self, set: Members) -> bool {
        within(set, self.size) && u32::from(self.size) < 2 * set.count_ones()
    }
}
