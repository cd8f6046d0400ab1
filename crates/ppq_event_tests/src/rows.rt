//! Worked examples: two workers, two records a block, one block a heap.
use crate::desk::{Job, roster, run_job, small};
use ppq_outside::{Host, MemRack, MemSink, OpenGate};
use ppq_record::Triple;
use ppq_testkit::triple;
use std::alloc::Global;
use std::process::Abort;
use std::test::Fail;

// Whether the journal of these events and the program's roster is this text.
fn writes<H: Host + Abort>(
    rt: &H,
    alloc: Global,
    events: &[Triple],
    until: u64,
    most: u64,
    text: &str,
) -> Result<bool, Fail>
where
    H::Dir: Send,
{
    let job = Job {
        sizes: small(),
        events,
        until,
        most,
    };
    let mut roster = roster(alloc)?;
    let mut out = MemSink::new(alloc, 4096)?;
    let ended = run_job(
        rt,
        alloc,
        job,
        &mut roster,
        &mut MemRack::new(),
        &mut out,
        &OpenGate,
    )?;
    Ok(ended.is_ok() && out.bytes() == text.as_bytes())
}

#[test]
fn journals_are_those_that_were_worked_out_by_hand(rt: HostRuntime) -> Result<(), Fail> {
    let alloc = rt.alloc();
    let last = u64::MAX;
    let one = [triple(5, 1, 2)];
    assert!(rt;
        writes(
            &rt,
            alloc,
            &one,
            100,
            100,
            "5 1 2 2\n6 2 1 0\nend empty count 2\n"
        )?
    );
    let two = [triple(1, 2, 4), triple(1, 0, 7)];
    assert!(rt;
        writes(
            &rt,
            alloc,
            &two,
            2,
            100,
            "1 0 7 7\n1 2 4 0\n2 3 2 2\nend until count 3\n"
        )?
    );
    assert!(rt; writes(&rt, alloc, &two, 2, 1, "1 0 7 7\nend full count 1\n")?);
    let gone = [triple(1, 12, 0), triple(2, 12, 5), triple(2, 0, 3)];
    assert!(rt;
        writes(
            &rt,
            alloc,
            &gone,
            100,
            100,
            "1 12 0 1\n2 0 3 3\n2 12 5 lost\nend empty count 3\n"
        )?
    );
    let twice = [triple(4, 13, 0), triple(4, 13, 0), triple(4, 13, 1)];
    assert!(rt;
        writes(
            &rt,
            alloc,
            &twice,
            100,
            100,
            "4 13 0 1\n4 13 0 lost\n4 13 1 lost\nend empty count 3\n"
        )?
    );
    // no event; targets that are no place; words of 0
    assert!(rt; writes(&rt, alloc, &[], 100, 100, "end empty count 0\n")?);
    let lost = [
        triple(3, 16, 1),
        triple(3, last, 2),
        triple(3, 1, 0),
        triple(3, 2, 0),
    ];
    assert!(rt;
        writes(
            &rt,
            alloc,
            &lost,
            3,
            4,
            "3 1 0 0\n3 2 0 0\n3 16 1 lost\n3 18446744073709551615 2 lost\nend empty count 4\n"
        )?
    );
    // nothing follows at the last time, and one event too late is left out
    let late = [
        triple(last, 1, 9),
        triple(last - 1, 2, 4),
        triple(last, 2, 6),
    ];
    assert!(rt;
        writes(
            &rt,
            alloc,
            &late,
            last,
            100,
            "18446744073709551614 2 4 0\n18446744073709551615 1 9 9\n18446744073709551615 2 6 4\n18446744073709551615 3 2 2\nend empty count 4\n"
        )?
    );
    // none is handled
    assert!(rt; writes(&rt, alloc, &one, 100, 0, "end full count 0\n")?);
    assert!(rt; writes(&rt, alloc, &one, 4, 0, "end until count 0\n")?);
    // a place before it in a round handles no more than are left
    assert!(rt;
        writes(
            &rt,
            alloc,
            &twice,
            100,
            2,
            "4 13 0 1\n4 13 0 lost\nend full count 2\n"
        )?
    );
    Ok(())
}
