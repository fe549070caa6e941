//! Programs over a device one of whose calls goes wrong, and what the next one finds on what a crash leaves of it.
use crate::machine::device::DeviceMachine;
use crate::stops::{FORMS, ONE_BY_ONE, TOGETHER, answer_after, answers_on, most_after};
use device_disk::{InjectedFault, MemoryDevice};
use std::alloc::Global;
use std::io;
use std::test::Fail;

/// More calls of the device than the program makes here.
const MOST_CALLS: u64 = 60;

/// What goes wrong: a write that is short, a signal, a full device, a write that fails after a part, any other error.
const FAULTS: [InjectedFault; 5] = [
    InjectedFault::Short(1),
    InjectedFault::Interrupted,
    InjectedFault::Failed(io::ErrorKind::StorageFull),
    InjectedFault::Torn(2),
    InjectedFault::Failed(io::ErrorKind::Other),
];

/// Runs the program over a new device, of which the call of this number goes wrong, and which crashes then: how many forms it answered, and
/// what the next program answers to a question. `None` for want of memory.
fn struck_at(
    alloc: Global,
    call: u64,
    fault: InjectedFault,
    option: &str,
) -> Option<(usize, Vec<u8>)> {
    let device = MemoryDevice::new(alloc, None);
    let machine = DeviceMachine::new(alloc, device, Some((call, fault))).ok()?;
    let answers = answers_on(alloc, &machine, option, FORMS);
    // where its opening failed, its files are as they were made
    let device = match machine.take_device() {
        Some(device) => device,
        None => MemoryDevice::new(alloc, None),
    };
    let again = DeviceMachine::new(alloc, device, None).ok()?;
    let found = answers_on(alloc, &again, option, b"(GET 'A 'B)\n");
    Some((answers.len() / 2, found))
}

/// Whether a fault lets the program go on: it asks again.
fn is_survived(fault: InjectedFault) -> bool {
    matches!(fault, InjectedFault::Short(_) | InjectedFault::Interrupted)
}

/// Whether the next program finds what was answered, or what was under way besides; and whether all was answered, where nothing failed.
fn is_found(alloc: Global, call: u64, fault: InjectedFault, option: &str) -> bool {
    match struck_at(alloc, call, fault, option) {
        Some((answered, found)) => {
            (answered == 3 || !is_survived(fault))
                && (found.as_slice() == answer_after(answered)
                    || found.as_slice() == answer_after(most_after(answered, option)))
        }
        None => false,
    }
}

#[test]
fn a_call_that_goes_wrong_loses_no_answer(rt: HostRuntime) -> Result<(), Fail> {
    for call in 0..MOST_CALLS {
        for fault in FAULTS {
            assert!(rt; is_found(rt.alloc(), call, fault, ONE_BY_ONE));
            assert!(rt; is_found(rt.alloc(), call, fault, TOGETHER));
        }
    }
    Ok(())
}
