//! The fields before the round: type, size, sender, leader, approval, width and two zeros.
use crate::base::{FITS, NUMBER, ORDER, check_both, check_rows};
use orders::{LampNumber, LampOrder};

#[test]
fn types_are_1_to_3(rt: HostRuntime) {
    check_both(
        &rt,
        &[
            (&[(0, 0)], Some((5, 0))),
            (&[(0, 1)], FITS),
            // COMMIT needs the timestamp of the round before.
            (&[(0, 2), (15, 4)], FITS),
            (&[(0, 3)], FITS),
            (&[(0, 4)], Some((5, 0))),
            (&[(0, 255)], Some((5, 0))),
        ],
    );
}

#[test]
fn groups_have_2_to_8_controllers(rt: HostRuntime) {
    check_both(
        &rt,
        &[
            (&[(1, 0), (2, 0), (3, 0)], Some((5, 1))),
            (&[(1, 1), (2, 0), (3, 0)], Some((5, 1))),
            (&[(1, 2), (2, 0), (3, 0)], FITS),
            (&[(1, 8), (2, 0), (3, 0)], FITS),
            (&[(1, 9), (2, 0), (3, 0)], Some((5, 1))),
        ],
    );
}

#[test]
fn sender_and_leader_are_in_the_group(rt: HostRuntime) {
    check_both(
        &rt,
        &[
            (&[(2, 3)], FITS),
            (&[(2, 4)], Some((5, 2))),
            (&[(3, 3)], FITS),
            (&[(3, 4)], Some((5, 3))),
            (&[(1, 2), (2, 1), (3, 1)], FITS),
            (&[(1, 2), (2, 2), (3, 1)], Some((5, 2))),
            (&[(1, 2), (2, 1), (3, 2)], Some((5, 3))),
            (&[(1, 8), (2, 7), (3, 7)], FITS),
            (&[(1, 8), (2, 8), (3, 7)], Some((5, 2))),
            (&[(1, 8), (2, 7), (3, 8)], Some((5, 3))),
        ],
    );
}

#[test]
fn approval_width_and_zeros(rt: HostRuntime) {
    check_both(
        &rt,
        &[
            (&[(4, 0)], FITS),
            (&[(4, 1)], FITS),
            (&[(4, 2)], Some((5, 4))),
            // One less and one more than the width of each kind.
            (&[(5, 0)], Some((5, 5))),
            (&[(5, 2)], Some((5, 5))),
            (&[(5, 5)], Some((5, 5))),
            (&[(5, 7)], Some((5, 5))),
            // The two zeros are one field.
            (&[(6, 1)], Some((5, 6))),
            (&[(7, 1)], Some((5, 6))),
            (&[(6, 1), (7, 1)], Some((5, 6))),
        ],
    );
}

#[test]
fn the_width_is_that_of_the_kind(rt: HostRuntime) {
    check_rows::<LampNumber>(
        &rt,
        &NUMBER,
        &[(&[(5, 1)], FITS), (&[(5, 6)], Some((5, 5)))],
    );
    check_rows::<LampOrder>(&rt, &ORDER, &[(&[(5, 6)], FITS), (&[(5, 1)], Some((5, 5)))]);
}

#[test]
fn the_first_wrong_field_counts(rt: HostRuntime) {
    check_both(
        &rt,
        &[
            (&[(0, 0), (1, 1)], Some((5, 0))),
            (&[(1, 9), (2, 9)], Some((5, 1))),
            (&[(2, 4), (3, 4)], Some((5, 2))),
            (&[(3, 4), (4, 2)], Some((5, 3))),
            (&[(4, 2), (5, 0)], Some((5, 4))),
            (&[(5, 0), (6, 1)], Some((5, 5))),
            (&[(7, 1), (11, 0)], Some((5, 6))),
            (&[(11, 0), (15, 255)], Some((5, 8))),
            (&[(0, 4), (15, 4)], Some((5, 0))),
        ],
    );
}
