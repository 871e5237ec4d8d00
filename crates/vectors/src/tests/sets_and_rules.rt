// Examples of sets, orders and rules.
use rules::both::Both;
use rules::bucket::Bucket;
use rules::spaced::Spaced;
use std::test::Fail;
use tasks::arrival::ArrivalRule;
use tasks::fault::SetFault;
use tasks::listed::Listed;
use tasks::ranking::rank;
use tasks::rate_monotonic::RateMonotonic;
use tasks::set::TaskSet;

fn fault(periods: &[u32], costs: &[u32]) -> Option<SetFault> {
    TaskSet::new(periods, costs).err()
}

#[test]
fn sets_are_refused(rt: HostRuntime) {
    assert_eq!(rt; fault(&[], &[]), Some(SetFault::OffScale { task: 0 }));
    assert_eq!(rt; fault(&[5, 6], &[1]), Some(SetFault::OffScale { task: 0 }));
    assert_eq!(rt;
        fault(&[5, 100_001], &[6, 1]),
        Some(SetFault::OffScale { task: 1 })
    );
    assert_eq!(rt;
        fault(&[5, 4], &[6, 1]),
        Some(SetFault::Falling { task: 1 })
    );
    assert_eq!(rt;
        fault(&[5, 5], &[5, 6]),
        Some(SetFault::Overfull { task: 1 })
    );
    assert_eq!(rt; fault(&[1, 100_000], &[1, 100_000]), None);
}

#[test]
fn ranks_follow_the_order(rt: HostRuntime) -> Result<(), Fail> {
    let set = TaskSet::new(&[5, 5, 9], &[1, 1, 1])?;
    let mut grades = [7; 32];
    grades[2] = 3;
    let listed = Listed::new(grades);
    assert_eq!(rt;
        [
            rank(&set, &RateMonotonic, 0),
            rank(&set, &RateMonotonic, 1),
            rank(&set, &RateMonotonic, 2),
        ],
        [0, 1, 2]
    );
    assert_eq!(rt;
        [
            rank(&set, &listed, 0),
            rank(&set, &listed, 1),
            rank(&set, &listed, 2),
        ],
        [1, 2, 0]
    );
    Ok(())
}

// Which of ten releases of task 0 in successive ticks are taken, as bits.
fn taken<R: ArrivalRule>(rule: &mut R) -> u32 {
    let mut bits = 0u32;
    for tick in 0..10u32 {
        if rule.admit(0).is_ok() {
            bits |= 1 << tick;
        }
        rule.advance();
    }
    bits
}

#[test]
fn rules_admit(rt: HostRuntime) -> Result<(), Fail> {
    let set = TaskSet::new(&[3], &[1])?;
    let bucket = Bucket::new(&[2], &[8])?;
    assert_eq!(rt; taken(&mut Spaced::new(&set)), 0b10_0100_1001);
    let mut alone = bucket;
    assert_eq!(rt; taken(&mut alone), 0b01_0000_0011);
    assert_eq!(rt;
        taken(&mut Both::new(Spaced::new(&set), bucket)),
        0b01_0000_1001
    );
    assert_eq!(rt;
        Bucket::new(&[2, 1_001], &[4, 4]).err(),
        Some(SetFault::OffScale { task: 1 })
    );
    Ok(())
}
