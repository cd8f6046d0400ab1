//! Talks whose source, sink, blocks or sizes let them down: the end has its cause, and a prefix of the answers was written.

use crate::list::{Case, record, tight};
use crate::talks::{NEVER, Plan, ends, told_of};
use ppq_answer::{End, Outcome};
use ppq_budget::Sizes;
use ppq_record::Pair;
use ppq_testkit::pair;
use std::alloc::Global;
use std::test::Fail;

// Ten requests: five push four records each, and five pop four.
fn ten(alloc: Global) -> Result<Case, Fail> {
    let mut case = Case::new(alloc)?;
    let mut seed = 3;
    for _ in 0..5u32 {
        for _ in 0..4u32 {
            case.push(record(&mut seed, 50))?;
        }
        case.send()?;
    }
    for _ in 0..5u32 {
        case.bulk_pop(3)?;
        case.pop()?;
        case.send()?;
    }
    Ok(case)
}

// How much of the output is written where so many bytes of the input came.
fn written_of(case: &Case, came: usize) -> usize {
    let mut output = 0usize;
    for (read, written) in case.ends.as_slice() {
        if *read <= came {
            output = *written;
        }
    }
    output
}

#[test]
fn all_that_came_before_a_failed_read_is_answered(rt: HostRuntime) -> Result<(), Fail> {
    let case = ten(rt.alloc())?;
    let fault = Outcome::Ended {
        end: End::ReadFault,
    };
    // 430 bytes come in 22 calls, of which the last gives 10; one more finds the end
    assert!(rt; case.input.len() == 430);
    for call in [1u32, 2, 4, 9, 17, 22, 23] {
        let came = (call.saturating_sub(1) as usize).saturating_mul(20);
        let written = written_of(&case, came).min(case.output.len());
        let plan = Plan {
            read: u64::from(call),
            ..Plan::plain(20)
        };
        let sizes = tight(1, 4, case.load);
        let output = &case.output[..written];
        ends(&rt, rt.alloc(), &case.input, sizes, plan, fault, output);
    }
    Ok(())
}

#[test]
fn a_failed_put_ends_the_answers_there(rt: HostRuntime) -> Result<(), Fail> {
    let case = ten(rt.alloc())?;
    let fault = Outcome::Ended {
        end: End::WriteFault,
    };
    // each answer is one put, the first of which is that of the first frame
    let mut put = 0u64;
    let mut front = 0usize;
    for (_, behind) in case.ends.as_slice() {
        put = put.saturating_add(1);
        // of some puts nothing is taken, of some a part
        let taken = (put % 3).saturating_mul(5) as usize;
        if put % 2 == 1 {
            let written = front.saturating_add(taken).min(case.output.len());
            let plan = Plan {
                put: (put, taken),
                ..Plan::plain(1000)
            };
            let sizes = tight(1, 4, case.load);
            let output = &case.output[..written];
            ends(&rt, rt.alloc(), &case.input, sizes, plan, fault, output);
        }
        front = *behind;
    }
    assert!(rt; put == 11);
    Ok(())
}

#[test]
fn a_failed_block_ends_the_answers_with_its_number(rt: HostRuntime) -> Result<(), Fail> {
    let case = ten(rt.alloc())?;
    let fault = Outcome::Ended {
        end: End::DeviceFault { number: 0 },
    };
    let sizes = tight(1, 4, case.load);
    let mut failed = 0u32;
    for block in [1, 2, 3, 4, 6, 99u64] {
        let plan = Plan {
            block,
            ..Plan::plain(1000)
        };
        let told = told_of::<HostRuntime, Pair>(&rt, rt.alloc(), &case.input, sizes, plan);
        assert!(rt; told.blocks == told.made);
        assert!(rt; case.output.starts_with(&told.wrote));
        if told.outcome == fault {
            failed = failed.saturating_add(1);
            // the first answer, and that of the first request, which writes no block
            assert!(rt; told.wrote.len() >= 24 && told.wrote.len() < case.output.len());
        } else {
            assert!(rt; told.outcome == Outcome::Ended { end: End::Done });
            assert!(rt; told.wrote.len() == case.output.len());
        }
    }
    // a write of the block and a read of it, at the least
    assert!(rt; failed >= 2);
    Ok(())
}

#[test]
fn the_third_record_finds_no_block_without_a_device(rt: HostRuntime) -> Result<(), Fail> {
    let mut case = Case::new(rt.alloc())?;
    for key in [3, 2, 1] {
        case.push(pair(key))?;
        case.send()?;
    }
    // all but the last answer
    let refused = Outcome::Ended {
        end: End::NoFreeBlock,
    };
    // one worker, two records a block, one block a heap, and a budget without a buffer
    let sizes = Sizes::new(1, 2, 1, 158, 0);
    let plan = Plan::plain(1000);
    let output = &case.output[..36.min(case.output.len())];
    ends(&rt, rt.alloc(), &case.input, sizes, plan, refused, output);
    Ok(())
}

#[test]
fn a_budget_below_the_fixed_part_names_its_need(rt: HostRuntime) -> Result<(), Fail> {
    let case = ten(rt.alloc())?;
    let small = Outcome::Ended {
        end: End::BudgetTooSmall { need: 372 },
    };
    let sizes = Sizes::new(2, 2, 1, 371, 200);
    let plan = Plan {
        read: NEVER,
        ..Plan::plain(1000)
    };
    ends(&rt, rt.alloc(), &case.input, sizes, plan, small, b"");
    // with one record more it is done
    let sizes = Sizes::new(2, 2, 1, 372, 200);
    let done = Outcome::Ended { end: End::Done };
    let output = &case.output;
    ends(&rt, rt.alloc(), &case.input, sizes, plan, done, output);
    Ok(())
}
