//! What every kind needs of a 16-byte field.
ghost use Rattle.std.specs.Prelude.{◌≡◌, ◌<◌, ◌≤◌, length, IfSome, Ok};
ghost use Rattle.std.specs.List.{position_from};
ghost use Rattle.orders.specs.Fault.{unless_wrong};
ghost use Rattle.orders.specs.Fields.{is_nonzero, stray};

use crate::fault::OrderFault;

/// Refused at the first place from `start` on whose byte is not zero.
pub(crate) fn check_zeros(field: &[u8; 16], start: usize) -> Result<(), OrderFault>
    requires { start ≤ 16 }
    ensures { result ≡ unless_wrong (stray start field.now) (Ok tt) }
{
    match first_nonzero(&field[start..]) {
        Some(zeros) => Err(OrderFault {
            place: start + zeros,
        }),
        None => Ok(()),
    }
}

/// Where the first byte stands that is not zero.
fn first_nonzero(bytes: &[u8]) -> Option<usize>
    ensures value { result ≡ position_from is_nonzero 0 bytes.now }
    ensures within { IfSome result (λ k. k < length bytes.now) }
{
    bytes.iter().position(|&byte| byte != 0)
}
