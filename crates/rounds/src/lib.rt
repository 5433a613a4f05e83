//! What a round gives a controller, and what holds of every history of rounds: agreement, validity and decision. It is
//! mathematics on the contents of letters, for every kind of order and every voting rule, and the ground of the calls above.
#![tactic(auto)]

ghost use Rattle.std.specs.Prelude.{◌≡◌, true};
ghost use Rattle.voting.specs.Voting.{sized};
ghost use Rattle.rounds.specs.History.{EveryHistory, EveryPlay};
ghost use Rattle.rounds.specs.Outcomes.{EveryRound};
ghost use Rattle.rounds.specs.Promises.{Promises};
ghost use Rattle.rounds.specs.Terms.{terms_of};
ghost use Rattle.std.proofs.Common.{rules};

use orders::Kind;
use voting::{VotingRule, owes_laws};

/// How many controllers take part in a round. That a round gives each of them what the relations say, and that every course
/// of events has a history, stands here too.
pub fn group_of<K: Kind, R: VotingRule>(rule: &R) -> u8
    ensures value { result ≡ R.group rule.now }
    ensures rounds { EveryRound (terms_of K.meaning (R.group rule.now) (R.accepted rule.now)) }
    ensures plays { EveryPlay (terms_of K.meaning (R.group rule.now) (R.accepted rule.now)) }
{
    rule.size()
}

/// Whether the rule's group is of a size for which its laws are owed. Then every history of the group keeps the promises.
#[tactic(auto, using(crate::proofs::Promises::promises_of))]
pub fn owes_promises<K: Kind, R: VotingRule>(rule: &R) -> bool
    ensures value { result ≡ sized (R.group rule.now) }
    ensures promises { result ≡ true → EveryHistory Promises (terms_of K.meaning (R.group rule.now) (R.accepted rule.now)) }
{
    owes_laws(rule)
}

#[cfg(test)]
mod tests {
    use super::*;
    use orders::{LampNumber, LampOrder};
    use std::test::Fail;
    use voting::{HouseTable, Majority, Members, Weights};

    // One controller alone: too small a group for the laws to be owed.
    struct Alone;

    impl VotingRule for Alone {
        ghost group = { λ _. 1 };

        ghost accepted = { λ _ _. true };

        ghost lawful = { Prim.search rules };

        fn size(&self) -> u8 {
            1
        }

        fn accepts(&self, _set: Members) -> bool {
            true
        }
    }

    #[test]
    fn groups_of_each_rule(rt: HostRuntime) -> Result<(), Fail> {
        assert_eq!(rt; group_of::<LampNumber, Majority>(&Majority::new(3)?), 3);
        assert_eq!(rt;
            group_of::<LampOrder, Weights>(&Weights::new(&[3, 1, 1, 0])?),
            4
        );
        assert_eq!(rt; group_of::<LampOrder, HouseTable>(&HouseTable), 8);
        assert_eq!(rt; group_of::<LampNumber, Alone>(&Alone), 1);
        Ok(())
    }

    #[test]
    fn promises_of_each_rule(rt: HostRuntime) -> Result<(), Fail> {
        assert!(rt; owes_promises::<LampNumber, Majority>(&Majority::new(2)?));
        assert!(rt; owes_promises::<LampOrder, Weights>(&Weights::new(&[0, 1000])?));
        assert!(rt; owes_promises::<LampOrder, HouseTable>(&HouseTable));
        assert!(rt; !owes_promises::<LampNumber, Alone>(&Alone));
        Ok(())
    }
}
