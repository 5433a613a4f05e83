//! The trait of a kind of order.
ghost use Rattle.std.specs.Prelude.{◌≡◌, ◌<◌, MatchResult, ◌≢◌};
ghost use Rattle.orders.specs.Kinds.{Meaning, Lawful, unpacking};

use crate::fault::OrderFault;

/// A kind of order: values that pack into a field of 16 bytes, and rank one above the other.
pub trait Kind: Copy {
    // The width, packing, unpacking and ranking that the methods compute.
    ghost meaning: { Meaning Self };

    /// How many bytes of the field a value takes; the others are zero.
    fn width() -> u8
        ensures { result ≡ meaning.wide };

    /// The field of a value.
    fn pack(&self) -> [u8; 16]
        ensures { result ≡ meaning.packed self.now };

    /// The value that packs to the field. Refused as unreadable exactly when there is none.
    fn unpack(field: &[u8; 16]) -> Result<Self, OrderFault>
        ensures { result ≡ unpacking meaning field.now };

    /// Whether this value ranks at least as high as the other.
    // Not provided once for all kinds: a kind need not be `Ord`, and to ask for it would ask more of whoever writes one.
    fn ranks_at_least(&self, other: &Self) -> bool
        ensures { result ≡ meaning.ranks self.now other.now };

    // What each kind must show.
    ghost lawful: { Lawful meaning };
}

/// How many bytes of the field a value takes. That the kind shows its laws stands here too.
pub fn width_of<K: Kind>() -> u8
    ensures value { result ≡ K.meaning.wide }
    ensures laws { Lawful K.meaning }
{
    K::width()
}

/// The value that packs to the field. Refused as unreadable, at a place in the field, exactly when no value does.
pub fn unpack<K: Kind>(field: &[u8; 16]) -> Result<K, OrderFault>
    ensures value { result ≡ unpacking K.meaning field.now }
    ensures exact { MatchResult result (λ v. K.meaning.packed v ≡ field.now) (λ e. (e.place < 16) × ((v : K) → K.meaning.packed v ≢ field.now)) }
{
    K::unpack(field)
}
