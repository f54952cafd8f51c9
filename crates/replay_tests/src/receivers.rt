//! A test of `receiver_core`: the calls that take one kind of input each. The program hands all of them
//! in by `Receiver::input`.

use bml_ports::AreaBytes;
use psi_tables::Selection;
use receiver_core::Receiver;

#[test]
fn a_receiver_takes_each_input(rt: HostRuntime) {
    let alloc = rt.alloc();
    let made = Receiver::new(alloc, Selection::Pid(256), AreaBytes::zeros());
    let mut receiver = made.expect(&rt, "memory");
    let mut out = Vec::new(alloc);
    assert!(rt; receiver.key(1, &mut out).is_ok());
    assert!(rt; receiver.release(1, &mut out).is_ok());
    assert!(rt; receiver.random(7).is_ok());
    receiver.date(11_016, 86_398);
    assert!(rt; receiver.show(&mut out).is_ok());
    assert!(rt; out.as_slice() == b"show 0\n".as_slice());
}
