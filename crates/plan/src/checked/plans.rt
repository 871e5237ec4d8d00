// What can be done with a checked plan.
ghost use Rattle.std.specs.Prelude.{◌≡◌, true, None};
ghost use Rattle.tasks.specs.Sets.{Holds};
ghost use Rattle.plan.specs.Checks.{numbers_pass, verdict, smallest_parts};
ghost use Rattle.parts.specs.Parts.{parts_of};

use crate::checked::{Carried, CheckedPlan};
use parts::lists::PartList;
use schedule::Part;
use tasks::arrival::ArrivalRule;
use tasks::order::PriorityOrder;
use tasks::set::TaskSet;

impl<O, R> CheckedPlan<O, R> {
    // Takes the plan apart into what it carries. There is no way back but the check.
    pub fn carried(self) -> Carried<O, R>
        ensures passed { numbers_pass result.set result.processors (parts_of result.list) ≡ true }
        ensures same { (result.set ≡ self.set) × (result.processors ≡ self.processors) × (result.list ≡ self.list) × (result.order ≡ self.order) × (result.rule ≡ self.rule) }
    {
        let CheckedPlan {
            set,
            processors,
            list,
            order,
            rule,
        } = self;
        Carried {
            set,
            processors,
            list,
            order,
            rule,
        }
    }
}

impl<O: PriorityOrder, R: ArrivalRule> CheckedPlan<O, R> {
    // The smallest plan: one processor, and one task whose period, cost and window are 1. Every order and every rule accept it.
    pub fn new(order: O, rule: R) -> CheckedPlan<O, R>
        ensures accepted { verdict result.set result.processors (parts_of result.list) (O.before result.order) (R.curve result.rule) ≡ None }
        ensures smallest { Holds 1 (λ _. 1) (λ _. 1) result.set × (result.processors ≡ 1) × (parts_of result.list ≡ smallest_parts) }
        ensures carried { (result.order ≡ order) × (result.rule ≡ rule) }
    {
        let set = TaskSet::smallest();
        let list = PartList::of_one(Part {
            task: 0,
            processor: 0,
            cost: 1,
            window: 1,
        });
        CheckedPlan {
            set,
            processors: 1,
            list,
            order,
            rule,
        }
    }
}
