// Examples of the planner.
use parts::fault::PlanFault;
use parts::lists::Proposal;
use rules::spaced::Spaced;
use spa2::planning::plan;
use spa2::theta::theta;
use std::test::Fail;
use tasks::fault::SetFault;
use tasks::listed::Listed;
use tasks::rate_monotonic::RateMonotonic;
use tasks::set::TaskSet;

// The fault that a plan was refused with.
fn fault_of(answer: Result<Proposal, PlanFault>) -> Option<PlanFault> {
    match answer {
        Ok(proposal) => {
            let _ = proposal.give_up();
            None
        }
        Err(fault) => Some(fault),
    }
}

#[test]
fn three_tasks_on_two_processors(rt: HostRuntime) -> Result<(), Fail> {
    let set = TaskSet::new(&[100, 120, 150], &[60, 60, 60])?;
    let parts = plan(&set, 2, &RateMonotonic, &Spaced::new(&set))?.give_up();
    assert_eq!(rt; parts.len(), 4);
    let mut wanted = [
        (1, 0, 60, 120),
        (2, 1, 60, 150),
        (0, 1, 37, 37),
        (0, 0, 23, 63),
    ]
    .iter();
    for part in parts.as_slice() {
        assert_eq!(rt;
            Some(&(part.task, part.processor, part.cost, part.window)),
            wanted.next()
        );
    }
    Ok(())
}

#[test]
fn processors_off_their_limits(rt: HostRuntime) {
    let set = TaskSet::smallest();
    let off = Some(PlanFault::Set(SetFault::OffScale { task: 0 }));
    assert_eq!(rt;
        fault_of(plan(&set, 0, &RateMonotonic, &Spaced::new(&set))),
        off
    );
    assert_eq!(rt;
        fault_of(plan(&set, 9, &RateMonotonic, &Spaced::new(&set))),
        off
    );
}

#[test]
fn a_task_without_a_place(rt: HostRuntime) -> Result<(), Fail> {
    let set = TaskSet::new(&[10, 10], &[8, 8])?;
    assert_eq!(rt;
        fault_of(plan(&set, 1, &RateMonotonic, &Spaced::new(&set))),
        Some(PlanFault::Unplaced { task: 0 })
    );
    Ok(())
}

// Under the order that puts the longest period first, the first half of task 0 cannot end within its period.
#[test]
fn a_part_without_a_window(rt: HostRuntime) -> Result<(), Fail> {
    let set = TaskSet::new(&[6, 11, 15], &[2, 6, 9])?;
    let mut grades = [0; 32];
    grades[0] = 2;
    grades[1] = 1;
    assert_eq!(rt;
        fault_of(plan(&set, 2, &Listed::new(grades), &Spaced::new(&set))),
        Some(PlanFault::Squeezed { part: 2 })
    );
    Ok(())
}

#[test]
fn thresholds(rt: HostRuntime) {
    assert_eq!(rt;
        [theta(1), theta(2), theta(3), theta(4)],
        [1000000, 828427, 779763, 756828]
    );
    assert_eq!(rt; theta(32), 700708);
}
