//! The estimate: the kind refuses it, at a place that counts from its first byte, once the head is right.
use crate::base::{NUMBER, ORDER, check_both, check_rows};
use orders::{LampNumber, LampOrder};

#[test]
fn a_wrong_lamp_number_is_unreadable(rt: HostRuntime) {
    check_rows::<LampNumber>(
        &rt,
        &NUMBER,
        &[
            (&[(16, 0)], Some((11, 0))),
            (&[(16, 13)], Some((11, 0))),
            (&[(17, 1)], Some((11, 1))),
            (&[(31, 1)], Some((11, 15))),
            (&[(16, 13), (17, 1)], Some((11, 0))),
        ],
    );
}

#[test]
fn a_wrong_lamp_order_is_unreadable(rt: HostRuntime) {
    check_rows::<LampOrder>(
        &rt,
        &ORDER,
        &[
            (&[(16, 10)], Some((11, 0))),
            (&[(17, 13)], Some((11, 1))),
            (&[(18, 4)], Some((11, 2))),
            (&[(19, 7)], Some((11, 3))),
            (&[(21, 9)], Some((11, 4))),
            (&[(20, 0x02), (21, 0x59)], Some((11, 4))),
            (&[(22, 1)], Some((11, 6))),
            (&[(31, 1)], Some((11, 15))),
            (&[(17, 0), (31, 1)], Some((11, 1))),
        ],
    );
}

#[test]
fn a_wrong_head_counts_before_a_wrong_estimate(rt: HostRuntime) {
    check_both(
        &rt,
        &[
            (&[(0, 4), (31, 1)], Some((5, 0))),
            (&[(1, 9), (31, 1)], Some((5, 1))),
            (&[(2, 4), (31, 1)], Some((5, 2))),
            (&[(3, 4), (31, 1)], Some((5, 3))),
            (&[(4, 2), (31, 1)], Some((5, 4))),
            (&[(5, 7), (31, 1)], Some((5, 5))),
            (&[(7, 1), (31, 1)], Some((5, 6))),
            (&[(11, 0), (31, 1)], Some((5, 8))),
            (&[(15, 4), (31, 1)], Some((5, 12))),
        ],
    );
}
