// Regulators of the tasks as an arrival rule.
ghost use Rattle.schedule.specs.Curves.{Curve};
ghost use Rattle.tasks.specs.Arrivals.{Left};
ghost use Rattle.rules.specs.Regulators.{of_task, of_each_task};

use crate::per_task::PerTask;
use crate::regulator::Regulator;
use tasks::arrival::{ArrivalRule, TooSoon};
use tasks::numbers::{stretch, task_number};

impl<G: Regulator> ArrivalRule for PerTask<G> {
    ghost curve = { λ r. of_task G.curve r.regulators };

    ghost left = { λ r. of_task G.left r.regulators };

    ghost curves = { λ r i h. of_each_task G.curve G.curve (λ curve _. Curve curve) G.Regulator.lawful r.regulators r.wide i h };

    ghost lefts = { λ r i h. of_each_task G.curve G.left Left G.Regulator.left_lawful r.regulators r.wide i h };

    fn fresh(&mut self) {
        for regulator in self.regulators.iter_mut() {
            regulator.fill();
        }
    }

    fn curve_at(&self, task: usize, length: u64) -> u64 {
        self.regulators[task_number(task)].curve_at(stretch(length))
    }

    fn is_open(&self, task: usize) -> bool {
        self.regulators[task_number(task)].is_open()
    }

    fn admit(&mut self, task: usize) -> Result<(), TooSoon> {
        self.regulators[task_number(task)].take()
    }

    fn advance(&mut self) {
        for regulator in self.regulators.iter_mut() {
            regulator.tick();
        }
    }
}
