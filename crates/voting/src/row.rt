//! The weights of a group's controllers, kept as one value.
ghost use Rattle.std.specs.Prelude.{◌≡◌, ◌*◌, ◌≤◌, length, take, Some, None, if◌then◌else◌, sum};
ghost use Rattle.voting.specs.Rules.{weigh_from, light, outweighs, fair};
ghost use Rattle.voting.specs.Voting.{limit, sized};

use crate::{LIMIT, Members, has, is_group, within};
use std::marker::Model;

/// As many weights as the largest group has controllers.
const ROOM: usize = LIMIT as usize;

/// The largest weight that can vote.
const HEAVIEST: u16 = 1000;

/// As many weights as a group may have, the first of them controller 0's.
#[derive(Clone, Copy)]
pub(crate) struct Row {
    // An array with its size beside, zeros behind: a rule is `Copy`, borrows nothing, needs no heap, and learns its length at run time.
    weights: [u16; ROOM],
    size: u8,
}

/// Clauses see a row as the list of its weights, without the zeros behind.
impl Model for Row {
    ghost use Rattle.std.specs.Prelude.{◌≡◌, List, ℕ, IsTrue, length, take};
    ghost use Rattle.std.proofs.Common.{ap₂, sym};
    ghost use Rattle.voting.specs.Rows.{padded, length-front};
    ghost use Rattle.voting.specs.Voting.{sized};

    ghost Value = { List ℕ };

    ghost view = { λ r. take r.size r.weights };

    ghost invariant = { λ r. IsTrue (sized r.size) × (r.weights ≡ padded (take r.size r.weights)) };

    ghost inverse = { λ ws. record { weights = padded ws; size = length ws } };

    ghost inverse_ok = { λ r h. ap₂ (λ ws n. record { weights = ws; size = n }) (sym h.1) (length-front r.size r.weights h.0 h.1) };
}

impl Row {
    /// The row of these weights, if a group may have as many.
    pub(crate) fn new(weights: &[u16]) -> Option<Row>
        ensures { result ≡ (if sized (length weights.now) then Some weights.now else None) }
    {
        if !is_group(weights.len()) {
            return None;
        }
        let mut row = [0; ROOM];
        row[..weights.len()].copy_from_slice(weights);
        Some(Row {
            weights: row,
            size: weights.len() as u8,
        })
    }

    /// How many weights there are.
    pub(crate) fn len(&self) -> u8
        ensures { result ≡ length self.now }
    {
        self.size
    }

    /// Whether no weight is too large, and not all are zero.
    #[tactic(auto, using(crate::proofs::Rows::fronts))]
    pub(crate) fn is_fair(&self) -> bool
        ensures { result ≡ fair self.now }
    {
        is_light(&self.weights) && 0 < total(&self.weights)
    }

    /// Whether the set has members of the row only, and more than half of all weight.
    #[tactic(auto, using(crate::proofs::Rows::fronts))]
    pub(crate) fn outweighs(&self, set: Members) -> bool
        ensures { result ≡ outweighs self.now set }
    {
        within(set, self.size) && total(&self.weights) < 2 * weigh(&self.weights, self.size, set)
    }
}

/// Whether no weight is too large.
fn is_light(weights: &[u16; ROOM]) -> bool
    ensures { result ≡ light weights.now }
{
    weights.iter().all(|weight| *weight <= HEAVIEST)
}

/// The sum of all weights.
fn total(weights: &[u16; ROOM]) -> u32
    ensures value { result ≡ sum weights.now }
    ensures bound { result ≤ 65535 * limit }
{
    weights.iter().map(|weight| u32::from(*weight)).sum()
}

/// The sum of the members' weights, of which only the first `size` count.
// Not a method of `Row`: that the sum fits is proved from what is known of an array that is a parameter.
fn weigh(weights: &[u16; ROOM], size: u8, set: Members) -> u32
    ensures value { result ≡ weigh_from 0 set (take size weights.now) }
    ensures bound { result ≤ sum weights.now }
{
    (0..size)
        .zip(weights)
        .filter(|(member, _)| has(set, *member))
        .map(|(_, weight)| u32::from(*weight))
        .sum()
}
