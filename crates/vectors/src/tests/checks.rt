// The check on examples: a plan that is accepted, and a plan for each refusal.
use parts::lists::Proposal;
use plan::check::check;
use plan::checked::CheckedPlan;
use rules::spaced::Spaced;
use schedule::Part;
use sheet::fault::{Layer, Refusal};
use tasks::rate_monotonic::RateMonotonic;
use tasks::set::TaskSet;

fn part(task: u8, processor: u8, cost: u32, window: u32) -> Part {
    Part {
        task,
        processor,
        cost,
        window,
    }
}

// Three tasks on two processors, the first of them cut.
fn cut_plan() -> [Part; 4] {
    [
        part(1, 0, 60, 120),
        part(2, 1, 60, 150),
        part(0, 1, 37, 37),
        part(0, 0, 23, 63),
    ]
}

// What the check answers for those three tasks: none where it accepts.
fn refusal_of(
    processors: usize,
    parts: &[Part],
    times: &mut [u32],
) -> Result<Option<Refusal>, Refusal> {
    let set = match TaskSet::new(&[100, 120, 150], &[60, 60, 60]) {
        Ok(set) => set,
        Err(fault) => return Err(fault.refusal()),
    };
    let proposal = match Proposal::from_slice(parts) {
        Ok(proposal) => proposal,
        Err(fault) => return Err(fault.refusal()),
    };
    let rule = Spaced::new(&set);
    let mut place = CheckedPlan::new(RateMonotonic, rule);
    match check(
        set,
        processors,
        proposal,
        RateMonotonic,
        rule,
        &mut place,
        times,
    ) {
        Ok(_) => Ok(None),
        Err(fault) => Ok(Some(fault.refusal())),
    }
}

fn refused(layer: Layer, number: u8, place: u64) -> Result<Option<Refusal>, Refusal> {
    Ok(Some(Refusal {
        layer,
        number,
        place,
    }))
}

#[test]
fn accepts_with_response_times(rt: HostRuntime) {
    let mut times = [7; 5];
    assert_eq!(rt; refusal_of(2, &cut_plan(), &mut times), Ok(None));
    assert_eq!(rt; times, [83, 97, 37, 23, 7]);
}

#[test]
fn refuses_each_with_its_place(rt: HostRuntime) {
    let mut times = [7; 4];
    let [a, b, c, d] = cut_plan();
    assert_eq!(rt;
        refusal_of(9, &[a, b, c, d], &mut times),
        refused(Layer::Set, 3, 0)
    );
    assert_eq!(rt;
        refusal_of(2, &[a, b, part(0, 1, 37, 0), d], &mut times),
        refused(Layer::Plan, 3, 2)
    );
    assert_eq!(rt;
        refusal_of(2, &[a, part(3, 1, 60, 150), c, d], &mut times),
        refused(Layer::Plan, 6, 1)
    );
    assert_eq!(rt;
        refusal_of(2, &[a, b, c, part(0, 1, 23, 63)], &mut times),
        refused(Layer::Plan, 7, 3)
    );
    assert_eq!(rt;
        refusal_of(2, &[a, b, c, part(0, 0, 22, 63)], &mut times),
        refused(Layer::Plan, 8, 0)
    );
    assert_eq!(rt;
        refusal_of(2, &[a, b, c, part(0, 0, 23, 64)], &mut times),
        refused(Layer::Plan, 9, 0)
    );
    assert_eq!(rt;
        refusal_of(2, &[a, b, part(0, 1, 37, 36), d], &mut times),
        refused(Layer::Plan, 10, 2)
    );
    assert_eq!(rt;
        refusal_of(2, &[a, b, c, d], &mut times[0..3]),
        refused(Layer::Plan, 17, 4)
    );
    assert_eq!(rt; times, [7; 4]);
}

#[test]
fn refuses_an_empty_plan(rt: HostRuntime) {
    assert_eq!(rt;
        refusal_of(2, &[], &mut []),
        Err(Refusal {
            layer: Layer::Plan,
            number: 3,
            place: 0,
        })
    );
}
