// Sheets that are read, written and refused.
use parts::lists::Proposal;
use schedule::Part;
use sheet::fault::{Layer, Refusal};
use sheets::reading::{read_both, read_plan_sheet, read_task_sheet};
use sheets::writing::write_plan_sheet;
use std::test::Fail;

fn refusal_of_tasks(bytes: &[u8]) -> Option<Refusal> {
    match read_task_sheet(bytes) {
        Ok(_) => None,
        Err(fault) => Some(fault.refusal()),
    }
}

fn refusal_of_plan(bytes: &[u8]) -> Option<Refusal> {
    match read_plan_sheet(bytes) {
        Ok(plan) => {
            plan.give_up();
            None
        }
        Err(fault) => Some(fault.refusal()),
    }
}

fn refusal_of_both(bytes: &[u8]) -> Option<Refusal> {
    match read_both(bytes) {
        Ok(both) => {
            let (_, plan) = both;
            plan.give_up();
            None
        }
        Err(fault) => Some(fault.refusal()),
    }
}

fn refusal_of_writing(parts: &[Part], out: &mut [u8]) -> Option<Refusal> {
    match Proposal::from_slice(parts) {
        Ok(plan) => {
            let answer = write_plan_sheet(&plan, out);
            plan.give_up();
            match answer {
                Ok(_) => None,
                Err(fault) => Some(fault.refusal()),
            }
        }
        Err(_) => None,
    }
}

fn refused(layer: Layer, number: u8, place: u64) -> Option<Refusal> {
    Some(Refusal {
        layer,
        number,
        place,
    })
}

#[test]
fn reads_a_task_sheet(rt: HostRuntime) -> Result<(), Fail> {
    let sheet = read_task_sheet(b"T 3 2\nP 100 120 150\nC 60 60 61\n")?;
    assert_eq!(rt; sheet.processors, 2);
    assert_eq!(rt; sheet.set.count(), 3);
    assert_eq!(rt; sheet.set.period(1), 120);
    assert_eq!(rt; sheet.set.cost(2), 61);
    Ok(())
}

#[test]
fn refuses_misspelt_bytes(rt: HostRuntime) {
    assert_eq!(rt; refusal_of_tasks(b""), refused(Layer::Sheet, 2, 0));
    assert_eq!(rt; refusal_of_tasks(b"T 3"), refused(Layer::Sheet, 2, 3));
    assert_eq!(rt; refusal_of_tasks(b"T 3 2\r\n"), refused(Layer::Sheet, 2, 5));
    assert_eq!(rt; refusal_of_tasks(b"T 1  2\n"), refused(Layer::Sheet, 2, 4));
    assert_eq!(rt;
        refusal_of_tasks(b"T 1 1\nP 10\nC 5\n\n"),
        refused(Layer::Sheet, 2, 15)
    );
    assert_eq!(rt; refusal_of_tasks(b"T 01 1\n"), refused(Layer::Sheet, 2, 3));
    assert_eq!(rt;
        refusal_of_tasks(b"T 1 1\nP 1000000\n"),
        refused(Layer::Sheet, 2, 14)
    );
}

#[test]
fn weighs_a_number_after_its_stop(rt: HostRuntime) {
    assert_eq!(rt; refusal_of_tasks(b"T 33 2\n"), refused(Layer::Sheet, 3, 2));
    assert_eq!(rt; refusal_of_tasks(b"T 33/2\n"), refused(Layer::Sheet, 2, 4));
    assert_eq!(rt; refusal_of_tasks(b"T 0 2\n"), refused(Layer::Sheet, 3, 2));
    assert_eq!(rt; refusal_of_tasks(b"T 1 9\n"), refused(Layer::Sheet, 3, 4));
    assert_eq!(rt;
        refusal_of_tasks(b"T 1 1\nP 100001\n"),
        refused(Layer::Sheet, 3, 8)
    );
}

#[test]
fn refuses_what_is_no_task_set(rt: HostRuntime) {
    assert_eq!(rt;
        refusal_of_tasks(b"T 2 1\nP 10 9\nC 5 5\n"),
        refused(Layer::Set, 4, 1)
    );
    assert_eq!(rt;
        refusal_of_tasks(b"T 2 1\nP 10 12\nC 5 13\n"),
        refused(Layer::Set, 5, 1)
    );
}

#[test]
fn refuses_overlong_input(rt: HostRuntime) {
    let long = [b'T'; 4097];
    assert_eq!(rt; refusal_of_tasks(&long), refused(Layer::Sheet, 1, 4096));
    assert_eq!(rt; refusal_of_plan(&long), refused(Layer::Sheet, 1, 4096));
    assert_eq!(rt;
        refusal_of_plan(&long[0..4096]),
        refused(Layer::Sheet, 2, 0)
    );
}

#[test]
fn reads_and_writes_a_plan_sheet(rt: HostRuntime) -> Result<(), Fail> {
    let text = b"K 4\nP 1/0 2/1 0/1 0/0\nA 60/120 60/150 37/37 23/63\n";
    let mut out = [7; 64];
    let plan = read_plan_sheet(text)?;
    let answer = write_plan_sheet(&plan, &mut out);
    let parts = plan.give_up();
    assert_eq!(rt; parts.len(), 4);
    let written = answer.ok().unwrap_or(0);
    assert_eq!(rt; written, 50);
    assert!(rt; out[0..50] == text[0..50]);
    assert_eq!(rt; out[50], 7);
    Ok(())
}

#[test]
fn refuses_plan_sheets(rt: HostRuntime) {
    assert_eq!(rt; refusal_of_plan(b"K 65\n"), refused(Layer::Sheet, 3, 2));
    assert_eq!(rt;
        refusal_of_plan(b"K 1\nP 32/0\n"),
        refused(Layer::Sheet, 3, 6)
    );
    assert_eq!(rt;
        refusal_of_plan(b"K 1\nP 31/8\n"),
        refused(Layer::Sheet, 3, 9)
    );
    assert_eq!(rt;
        refusal_of_plan(b"K 1\nP 0 0\n"),
        refused(Layer::Sheet, 2, 7)
    );
    assert_eq!(rt;
        refusal_of_plan(b"K 1\nP 0/0\nA 1/1\nK"),
        refused(Layer::Sheet, 2, 16)
    );
}

#[test]
fn names_the_bytes_before_the_task_set(rt: HostRuntime) {
    assert_eq!(rt;
        refusal_of_both(b"T 2 1\nP 10 9\nC 5 5\nK 1\nP 0/0\nA 0/1\n"),
        refused(Layer::Sheet, 3, 31)
    );
    assert_eq!(rt;
        refusal_of_both(b"T 2 1\nP 10 9\nC 5 5\nK 1\nP 0/0\nA 1/1\n"),
        refused(Layer::Set, 4, 1)
    );
}

#[test]
fn refuses_to_write(rt: HostRuntime) {
    let part = Part {
        task: 31,
        processor: 7,
        cost: 100_000,
        window: 1,
    };
    let unreadable = Part {
        task: 31,
        processor: 8,
        cost: 1,
        window: 1,
    };
    let mut out = [7; 20];
    let short = refusal_of_writing(&[part], &mut out);
    assert_eq!(rt; short, refused(Layer::Plan, 17, 22));
    let off_scale = refusal_of_writing(&[part, unreadable], &mut out);
    assert_eq!(rt; off_scale, refused(Layer::Plan, 3, 1));
    assert_eq!(rt; out[0], 7);
}
