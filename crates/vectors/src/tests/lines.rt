// The line of a fault of each layer.
use machine::fault::MachineFault;
use parts::fault::PlanFault;
use sheet::fault::SheetFault;
use std::test::Fail;
use tasks::fault::SetFault;

#[test]
fn faults_are_written(rt: HostRuntime) -> Result<(), Fail> {
    let sheet = SheetFault::Overlong;
    let set = SetFault::Sheet(SheetFault::Misspelt { at: 12 });
    let plan = PlanFault::Set(SetFault::Falling { task: 31 });
    let late = MachineFault::Plan(PlanFault::Late { part: 2 });
    let machine = MachineFault::TooSoon { task: 0 };
    let lines = format!(in rt.alloc(); "{sheet}, {set}, {plan}, {late}, {machine}")?;
    assert_eq!(rt;
        lines.as_str(),
        "F S 1 4096, F S 2 12, F G 4 31, F K 10 2, F M 14 0"
    );
    Ok(())
}
