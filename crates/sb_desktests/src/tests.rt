ghost use Rattle.std.specs.Prelude.{IfOk};
ghost use Rattle.sb_machine.specs.Ordered.{IsActInOrder};

use crate::callers::{as_one_group, on_eight_threads, on_one_thread};
use sb_desk::Report;
use sb_machine::{Act, Call, Description};
use sb_model::Text;
use std::alloc::{AllocError, Global};
use std::test::Fail;

fn creation(alloc: Global) -> Result<Call, AllocError>
    ensures { IfOk result (λ c. IsActInOrder c.act) }
{
    let name = Text::of(alloc, "q")?;
    Ok(Call {
        by: None,
        act: Act::CreateQueue {
            name,
            description: Description {
                lock: 60,
                ttl: None,
                max_delivery: 10,
                window: None,
                requires_session: false,
                dead_on_expiry: false,
                dead_on_fault: true,
                forward_to: None,
                forward_dead_to: None,
            },
        },
    })
}

#[test]
fn passes_tell_each_other(rt: HostRuntime) -> Result<(), Fail> {
    let Ok(call) = creation(rt.alloc()) else {
        panic!(rt; "no memory")
    };
    let ended = on_one_thread(&rt, rt.alloc(), 5, call);
    let Some((is_done, is_there, report)) = ended else {
        panic!(rt; "no memory")
    };
    assert!(rt; is_done);
    assert!(rt; is_there);
    assert_eq!(rt; numbers_of(report), (2, 1, 1));
    Ok(())
}

#[test]
fn calls_are_posted_together(rt: HostRuntime) -> Result<(), Fail> {
    let Ok(call) = creation(rt.alloc()) else {
        panic!(rt; "no memory")
    };
    let Ok(same) = creation(rt.alloc()) else {
        panic!(rt; "no memory")
    };
    let ended = as_one_group(&rt, rt.alloc(), 5, call, same);
    let Some((is_done, is_there, report)) = ended else {
        panic!(rt; "no memory")
    };
    assert!(rt; is_done);
    assert!(rt; is_there);
    assert_eq!(rt; numbers_of(report), (2, 1, 1));
    Ok(())
}

#[test]
fn threads_share_one_history(rt: HostRuntime) -> Result<(), Fail> {
    let Ok(call) = creation(rt.alloc()) else {
        panic!(rt; "no memory")
    };
    let ended = on_eight_threads(&rt, rt.alloc(), 10000, &call);
    drop(call);
    let Some(report) = ended else {
        panic!(rt; "no memory")
    };
    assert_eq!(rt; numbers_of(report), (80000, 1, 79999));
    Ok(())
}

// Entries, changing ones and refusals.
fn numbers_of(report: Report) -> (u64, u64, u64) {
    (report.entries, report.changing, report.refused)
}
