// The calls of a machine. What a call keeps, what it leaves where it is refused, and that a refusal is the machine's own are clauses of
// each call: they relate its two ends, so that no type of a machine could hold them.
ghost use Rattle.std.specs.Prelude.{◌≡◌, true, false, [], length, take, drop, is_ok, None};
ghost use Rattle.schedule.specs.TickRule.{started};
ghost use Rattle.schedule.specs.TickRule as rules;
ghost use Rattle.schedule.specs.Sameness.{Same};
ghost use Rattle.tasks.specs.Arrivals.{SameCurves};
ghost use Rattle.plan.specs.Checks.{verdict};
ghost use Rattle.parts.specs.Parts.{parts_of};
ghost use Rattle.machine.specs.Life.{Lives, Accepted, LifeGoesOn};
ghost use Rattle.machine.specs.Meaning.{processors_of, set_of, list_of, system_of, state_of, answer_of, ByMachine, Ranked, Obeys, GoesOn};

use crate::Machine;
use crate::dispatcher::Dispatcher;
use crate::fault::MachineFault;
use crate::jobs::{Event, Job, JobTable};
use crate::layout::Layout;
use plan::checked::{Carried, CheckedPlan};
use tasks::arrival::ArrivalRule;
use tasks::order::PriorityOrder;

// The clock at which a machine is worn out: 2^40 ticks.
const LAST_CLOCK: u64 = 1_099_511_627_776;

impl<O: PriorityOrder, R: ArrivalRule> Machine<O, R> {
    // Starts a machine from a plan that has passed the check: the rule fresh, the clock at 0 and no job open.
    pub fn start(plan: CheckedPlan<O, R>) -> Machine<O, R>
        ensures carried { (set_of result ≡ plan.set) × (processors_of result ≡ plan.processors) × (list_of result ≡ plan.list) × (result.order ≡ plan.order) }
        ensures curves { SameCurves (R.curve plan.rule) (R.curve result.rule) }
        ensures ranked { Ranked result O.before }
        ensures state { Same (system_of result O.before R.curve) (state_of result R.left) (started (system_of result O.before R.curve)) }
        ensures lives { Lives result O.before R.curve R.left [] }
        ensures accepted { verdict plan.set plan.processors (parts_of plan.list) (O.before plan.order) (R.curve plan.rule) ≡ None → Accepted result O.before R.curve }
    {
        let Carried {
            set,
            processors,
            list,
            order,
            mut rule,
        } = plan.carried();
        rule.fresh();
        let layout = Layout::new(set, processors, list, &order);
        Machine {
            dispatcher: Dispatcher {
                layout,
                table: JobTable::closed(),
            },
            order,
            rule,
            clock: 0,
        }
    }

    // Starts again with the same plan: the rule fresh, the clock at 0 and no job open.
    pub fn restart(&mut self)
        ensures same { GoesOn self.old self.new R.curve }
        ensures state { Same (system_of self.new O.before R.curve) (state_of self.new R.left) (started (system_of self.new O.before R.curve)) }
        ensures lives { Ranked self.old O.before → Lives self.new O.before R.curve R.left [] }
        ensures accepted { Accepted self.old O.before R.curve → Accepted self.new O.before R.curve }
    {
        self.rule.fresh();
        self.dispatcher.table = JobTable::closed();
        self.clock = 0;
    }

    // Opens a job of the task, where the rule admits its release.
    pub fn release(&mut self, task: usize) -> Result<(), MachineFault>
        ensures obeyed { Obeys self.old self.new O.before R.curve R.left (rules.release task) (answer_of result rules.taken) }
        ensures own { ByMachine result }
        ensures same { GoesOn self.old self.new R.curve }
        ensures refused { is_ok result ≡ false → self.new ≡ self.old }
        ensures life { LifeGoesOn self.old self.new O.before R.curve R.left (rules.release task) (answer_of result rules.taken) }
    {
        if task >= self.dispatcher.layout.set.count() {
            return Err(MachineFault::Unknown { number: task });
        }
        // asked first: a rule that refuses may still change in ways that no one can tell
        if !self.rule.is_open(task) {
            return Err(MachineFault::TooSoon { task });
        }
        self.rule.admit(task).unwrap();
        self.dispatcher.happen(task, Event::Release);
        Ok(())
    }

    // Closes the task's job.
    pub fn finish(&mut self, task: usize) -> Result<(), MachineFault>
        ensures obeyed { Obeys self.old self.new O.before R.curve R.left (rules.finish task) (answer_of result rules.taken) }
        ensures own { ByMachine result }
        ensures same { GoesOn self.old self.new R.curve }
        ensures refused { is_ok result ≡ false → self.new ≡ self.old }
        ensures life { LifeGoesOn self.old self.new O.before R.curve R.left (rules.finish task) (answer_of result rules.taken) }
    {
        if task >= self.dispatcher.layout.set.count() {
            return Err(MachineFault::Unknown { number: task });
        }
        if let Job::Closed = self.dispatcher.table.jobs[task] {
            return Err(MachineFault::NoJob { task });
        }
        self.dispatcher.happen(task, Event::Finish);
        Ok(())
    }

    // One tick: each processor runs, of the jobs that are ready there, the one of lowest rank; then every open job grows older. The
    // first bytes of the answer say what each processor runs, 255 for nothing; the bytes after them stay.
    pub fn tick(&mut self, answer: &mut [u8]) -> Result<(), MachineFault>
        ensures obeyed { Ranked self.old O.before → Obeys self.old self.new O.before R.curve R.left (rules.tick (length answer.old)) (answer_of result (rules.ran (take (processors_of self.old) answer.new))) }
        ensures own { ByMachine result }
        ensures same { GoesOn self.old self.new R.curve }
        ensures rest { drop (processors_of self.old) answer.new ≡ drop (processors_of self.old) answer.old }
        ensures refused { is_ok result ≡ false → (self.new ≡ self.old) × (answer.new ≡ answer.old) }
        ensures life { LifeGoesOn self.old self.new O.before R.curve R.left (rules.tick (length answer.old)) (answer_of result (rules.ran (take (processors_of self.old) answer.new))) }
    {
        if self.clock >= LAST_CLOCK {
            return Err(MachineFault::WornOut);
        }
        let processors = self.dispatcher.layout.processors;
        if answer.len() < processors {
            return Err(MachineFault::Cramped { needed: processors });
        }
        let running = self.dispatcher.running_tasks();
        answer[..processors].copy_from_slice(&running[..processors]);
        self.dispatcher.grow_older(&running);
        self.rule.advance();
        self.clock += 1;
        Ok(())
    }
}

impl<O, R> Machine<O, R> {
    // Stops the machine, and hands back what its plan carried.
    pub fn stop(self) -> Carried<O, R>
        ensures { (result.set ≡ set_of self) × (result.processors ≡ processors_of self) × (result.list ≡ list_of self) × (result.order ≡ self.order) × (result.rule ≡ self.rule) }
    {
        let Machine {
            dispatcher: Dispatcher { layout, .. },
            order,
            rule,
            ..
        } = self;
        Carried {
            set: layout.set,
            processors: layout.processors,
            list: layout.list,
            order,
            rule,
        }
    }
}
