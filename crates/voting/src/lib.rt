//! Voting rules of a group of lamp controllers: which sets of controllers may decide, and the four laws that every
//! such rule owes.
#![tactic(auto)]

ghost use Rattle.std.specs.Prelude.{◌≡◌, ℕ, ◌/◌, ◌^◌, Bool, true};
ghost use Rattle.voting.specs.Sets.{has, within};
ghost use Rattle.voting.specs.Voting.{sized, Lawful};

use refusals::{Reason, Refusal};

mod house;
mod majority;
mod row;
mod weights;

pub use house::HouseTable;
pub use majority::Majority;
pub use weights::Weights;

/// A set of controllers, one bit each: bit i stands for controller i.
pub type Members = u8;

/// The most controllers that a group has, and the number of bits of a set.
pub const LIMIT: u8 = 8;

/// The fewest controllers that a group has.
const LEAST: usize = 2;

/// A rule that fixes which sets of controllers may decide.
/// It owes its four laws in a group of 2 to `LIMIT` controllers.
pub trait VotingRule {
    ghost group: { Self → ℕ };

    ghost accepted: { Self → ℕ → Bool };

    /// How many controllers the group has.
    fn size(&self) -> u8
        ensures { result ≡ group self.now };

    /// Whether these controllers may decide.
    fn accepts(&self, set: Members) -> bool
        ensures { result ≡ accepted self.now set };

    ghost lawful: { (rule : Self) → sized (group rule) ≡ true → Lawful (group rule) (accepted rule) };
}

/// Why a voting rule cannot be made.
#[derive(Clone, Copy, PartialEq, Eq, Debug)]
pub enum RuleFault {
    /// The group is too small or too large.
    Size,
    /// A weight is too large, or all are zero.
    Ballot,
}

/// A fault comes to its refusal at place 0, since no byte is at fault.
impl From<RuleFault> for Refusal {
    ghost use Rattle.std.specs.Prelude.{◌≡◌};
    ghost use Rattle.voting.specs.Faults.{rule_refusal};

    ghost from_gives = { λ fault refusal. refusal ≡ rule_refusal fault };

    fn from(fault: RuleFault) -> Refusal {
        let reason = match fault {
            RuleFault::Size => Reason::Size,
            RuleFault::Ballot => Reason::Ballot,
        };
        Refusal { reason, place: 0 }
    }
}

/// Whether the rule's group is of a size for which the laws are owed, and so hold.
pub fn owes_laws<R: VotingRule>(rule: &R) -> bool
    ensures value { result ≡ sized (R.group rule.now) }
    ensures laws { result ≡ true → Lawful (R.group rule.now) (R.accepted rule.now) }
{
    is_group(usize::from(rule.size()))
}

/// Whether a controller is in the set: no number from the set's width on is.
pub fn has(set: Members, member: u8) -> bool
    ensures { result ≡ has set member }
{
    members_from(set, member) % 2 == 1
}

/// Whether a group may have this many controllers.
pub fn is_group(size: usize) -> bool
    ensures { result ≡ sized size }
{
    (LEAST..=usize::from(LIMIT)).contains(&size)
}

/// Whether the set has controllers below `size` only.
fn within(set: Members, size: u8) -> bool
    ensures { result ≡ within size set }
{
    members_from(set, size) == 0
}

/// The members from `first` on, each numbered `first` lower.
#[tactic(auto, using(crate::specs::Members::none_past))]
fn members_from(set: Members, first: u8) -> Members
    ensures { result ≡ set / 2 ^ first }
{
    set.unbounded_shr(u32::from(first))
}

#[cfg(test)]
mod tests {
    use super::*;
    use std::process::Abort;
    use std::test::Fail;

    #[test]
    fn majority_sizes(rt: HostRuntime) {
        for (size, made) in [(1, false), (2, true), (8, true), (9, false)] {
            assert_eq!(rt; Majority::new(size).is_ok(), made);
        }
    }

    fn fault(row: &[u16]) -> Option<RuleFault> {
        Weights::new(row).err()
    }

    #[test]
    fn weights_rows(rt: HostRuntime) {
        assert_eq!(rt; fault(&[1]), Some(RuleFault::Size));
        assert_eq!(rt; fault(&[1; 9]), Some(RuleFault::Size));
        assert_eq!(rt; fault(&[0, 1000]), None);
        assert_eq!(rt; fault(&[0, 1001]), Some(RuleFault::Ballot));
        assert_eq!(rt; fault(&[0, 0]), Some(RuleFault::Ballot));
    }

    // The rule accepts just the sets that the rows say.
    fn check_sets<R: VotingRule>(rt: &impl Abort, rule: &R, rows: &[(Members, bool)]) {
        for (set, accepted) in rows {
            assert_eq!(rt; rule.accepts(*set), *accepted, "{}", *set);
        }
    }

    #[rattlefmt::skip]
    #[test]
    fn sets_that_decide_by_majority(rt: HostRuntime) -> Result<(), Fail> {
        check_sets(&rt, &Majority::new(2)?, &[(0, false), (1, false), (2, false), (3, true)]);
        check_sets(&rt, &Majority::new(3)?, &[(1, false), (3, true), (6, true), (7, true), (9, false), (15, false)]);
        check_sets(&rt, &Majority::new(8)?, &[(0x0F, false), (0x1F, true), (0xF0, false), (0xF8, true), (0xFF, true)]);
        Ok(())
    }

    #[rattlefmt::skip]
    #[test]
    fn sets_that_decide_by_weight(rt: HostRuntime) -> Result<(), Fail> {
        check_sets(&rt, &Weights::new(&[3, 1, 1])?, &[(1, true), (6, false), (7, true), (9, false)]);
        // Half of all weight is not more than half.
        check_sets(&rt, &Weights::new(&[2, 1, 1])?, &[(1, false), (3, true), (6, false)]);
        check_sets(&rt, &Weights::new(&[0, 1000])?, &[(1, false), (2, true), (3, true)]);
        Ok(())
    }

    #[rattlefmt::skip]
    #[test]
    fn sets_that_decide_by_the_house(rt: HostRuntime) {
        check_sets(&rt, &HouseTable, &[(0x0F, true), (0x1E, false), (0x1F, true), (0x3E, true)]);
        check_sets(&rt, &HouseTable, &[(0xF0, false), (0xE1, true), (0x07, false), (0, false), (0xFF, true)]);
    }
}
