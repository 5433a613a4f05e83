//! A rule by weights, as a value: how it is made, and which sets it accepts.
ghost use Rattle.std.specs.Prelude.{◌≡◌, IsTrue};
ghost use Rattle.voting.specs.Rules.{can_vote};

use crate::row::Row;
use crate::{Members, RuleFault, VotingRule};

/// The rule that controllers with more than half of all weight may decide, each weight 0 to 1,000.
#[derive(Clone, Copy)]
pub struct Weights {
    // No `Model`: the laws of a rule would be owed at every list of weights, and fail where all are zero.
    row: Row,
    ghost ok: { IsTrue (can_vote row) },
}

impl Weights {
    ghost use Rattle.voting.specs.Makes.{ballot_of};

    /// The rule by these weights, the first of them controller 0's.
    /// A length outside 2 to `LIMIT` is refused as `RuleFault::Size`, and then a weight above 1,000,
    /// or none above zero, as `RuleFault::Ballot`.
    pub fn new(weights: &[u16]) -> Result<Weights, RuleFault>
        ensures { result ≡ ballot_of weights.now }
    {
        let row = Row::new(weights).ok_or(RuleFault::Size)?;
        if !row.is_fair() {
            return Err(RuleFault::Ballot);
        }
        Ok(Weights { row })
    }
}

/// Accepts controllers of the group with more than half of all weight.
impl VotingRule for Weights {
    ghost use Rattle.std.specs.Prelude.{length};
    ghost use Rattle.voting.specs.Makes.{row_of};
    ghost use Rattle.voting.specs.Rules.{outweighs};
    ghost use Rattle.voting.specs.Weighing.{row_lawful};

    ghost group = { λ w. length (row_of w) };

    ghost accepted = { λ w. outweighs (row_of w) };

    // It keeps the four laws, since its row has weight.
    ghost lawful = { λ w owed. row_lawful (row_of w) w.ok };

    fn size(&self) -> u8 {
        self.row.len()
    }

    fn accepts(&self, set: Members) -> bool {
        self.row.outweighs(set)
    }
}
