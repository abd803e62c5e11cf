//! Turns of two seats of a shared process, one after the other.

ghost use Rattle.std.specs.Prelude.{◌≡◌, []};

use crate::laying::{LEAVING, setup};
use erim_process::Process;
use publish_lock::{Crew, Shared, Turn};
use std::alloc::Global;
use std::marker::Brand;
use std::process::Abort;
use std::sync::Wait;
use std::sync::ledger::{Blank, Ledger};
use thread_runner::NoGate;

/// Seat 1 makes the four steps of the process, and seat 2 finds it over: over ledgers of these
/// names.
fn check_seats<
    L1: Ledger,
    L2: Ledger,
    L3: Ledger,
    L4: Ledger,
    L5: Ledger,
    L6: Ledger,
    L7: Ledger,
    L8: Ledger,
    O: Crew,
    R: Abort + Wait,
>(
    rt: &R,
    alloc: Global,
    one: Blank,
    two: Blank,
    three: Blank,
    four: Blank,
    five: Blank,
    six: Blank,
    seven: Blank,
    eight: Blank,
    marks: Blank,
    process: Process,
)
    requires one_name { one.name ≡ L1.name }
    requires one_parts { (one.parts ≡ L1.parts) × (one.parts ≡ 1) }
    requires two_name { two.name ≡ L2.name }
    requires two_parts { (two.parts ≡ L2.parts) × (two.parts ≡ 1) }
    requires three_name { three.name ≡ L3.name }
    requires three_parts { (three.parts ≡ L3.parts) × (three.parts ≡ 1) }
    requires four_name { four.name ≡ L4.name }
    requires four_parts { (four.parts ≡ L4.parts) × (four.parts ≡ 1) }
    requires five_name { five.name ≡ L5.name }
    requires five_parts { (five.parts ≡ L5.parts) × (five.parts ≡ 1) }
    requires six_name { six.name ≡ L6.name }
    requires six_parts { (six.parts ≡ L6.parts) × (six.parts ≡ 1) }
    requires seven_name { seven.name ≡ L7.name }
    requires seven_parts { (seven.parts ≡ L7.parts) × (seven.parts ≡ 1) }
    requires eight_name { eight.name ≡ L8.name }
    requires eight_parts { (eight.parts ≡ L8.parts) × (eight.parts ≡ 1) }
    requires marks_name { marks.name ≡ O.name }
    requires marks_parts { (marks.parts ≡ O.parts) × (marks.parts ≡ 8) }
    requires started { process.journal ≡ [] }
    requires crew { O.workers ≡ 2 }
{
    let (shared, mut seats) = Shared::<L1, L2, L3, L4, L5, L6, L7, L8, O>::new(
        alloc, one, two, three, four, five, six, seven, eight, marks, process, 2,
    )
    .ok()
    .expect(rt, "shared");
    let mut second = seats.pop().expect(rt, "seat 2");
    let mut first = seats.pop().expect(rt, "seat 1");
    for _ in 0..4 {
        assert!(rt; shared.turn(rt, &mut first, &NoGate) == Turn::Made { steps: 1 });
    }
    assert!(rt; shared.turn(rt, &mut second, &NoGate) == Turn::Over);
    assert!(rt; first.steps() == 4 && second.steps() == 0);
    assert!(rt; !first.over() && second.over());
    assert!(rt; seats.push(first).is_ok() && seats.push(second).is_ok());
    let closed = shared.close(seats);
    assert!(rt; closed.counts == [0, 4, 0, 0, 0, 0, 0, 0, 0]);
}

#[test]
fn two_seats(rt: HostRuntime) {
    let setup = setup(&rt, rt.alloc(), LEAVING, 4);
    let process = Process::start(rt.alloc(), setup)
        .ok()
        .expect(&rt, "process");
    check_seats::<Brand, Brand, Brand, Brand, Brand, Brand, Brand, Brand, Brand, HostRuntime>(
        &rt,
        rt.alloc(),
        Blank::new(1),
        Blank::new(1),
        Blank::new(1),
        Blank::new(1),
        Blank::new(1),
        Blank::new(1),
        Blank::new(1),
        Blank::new(1),
        Blank::new(8),
        process,
    );
}
