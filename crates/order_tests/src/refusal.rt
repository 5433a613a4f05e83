//! What a fault of the order layer comes to.
use orders::OrderFault;
use refusals::{Layer, Reason, Refusal};

#[test]
fn a_fault_is_unreadable_at_its_place(rt: HostRuntime) {
    for place in [0, 1, 15] {
        let refusal = Refusal::from(OrderFault { place });
        assert_eq!(rt; refusal.place, place);
        assert_eq!(rt; refusal.reason, Reason::Unreadable);
    }
    assert_eq!(rt; u8::from(Reason::Unreadable), 11);
    assert_eq!(rt; Reason::Unreadable.word(), "unreadable");
    assert_eq!(rt; Reason::Unreadable.layer(), Layer::Order);
}
