// What a refusal reports.
// The other test crate has this file too: a library of both would take an Abort bound out of the tests.
use reading::Fault;
use std::process::Abort;

// Number, layer and place, as the protocol's table has them: a Fault would have them from the code under test.
pub(crate) type Refusal = (u8, u8, u16);

// It is refused, and the fault has this number, layer and place.
pub(crate) fn check_refused<T: Copy>(rt: &impl Abort, answer: Result<T, Fault>, refusal: Refusal) {
    match answer {
        Ok(_) => panic!(rt; "accepted"),
        Err(fault) => assert_eq!(rt;
            (fault.number(), fault.layer() as u8, fault.place()),
            refusal
        ),
    }
}
