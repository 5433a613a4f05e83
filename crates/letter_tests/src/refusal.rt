//! What a fault of the letter layer comes to.
use letters::LetterFault;
use orders::OrderFault;
use refusals::{Layer, Reason, Refusal};

#[test]
fn a_garbled_letter(rt: HostRuntime) {
    for place in [0, 12, 32] {
        let refusal = Refusal::from(LetterFault::Garbled { place });
        assert_eq!(rt; refusal.place, place);
        assert_eq!(rt; refusal.reason, Reason::Garbled);
        assert_eq!(rt; u8::from(refusal.reason), 5);
        assert_eq!(rt; refusal.reason.word(), "garbled");
        assert_eq!(rt; refusal.reason.layer(), Layer::Letter);
    }
}

#[test]
fn an_unreadable_estimate_keeps_what_its_layer_says(rt: HostRuntime) {
    for place in [0, 1, 15] {
        let refusal = Refusal::from(LetterFault::Order(OrderFault { place }));
        assert_eq!(rt; refusal.place, place);
        assert_eq!(rt; refusal.reason, Reason::Unreadable);
        assert_eq!(rt; u8::from(refusal.reason), 11);
        assert_eq!(rt; refusal.reason.layer(), Layer::Order);
    }
}
