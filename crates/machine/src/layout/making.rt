// How a plan is laid out.
ghost use Rattle.std.specs.Prelude.{◌≡◌, true};
ghost use Rattle.plan.specs.Checks.{numbers_pass};
ghost use Rattle.parts.specs.Parts.{parts_of};
ghost use Rattle.machine.specs.Layouts.{ByOrder};

use crate::layout::Layout;
use crate::layout::ranks::{Ranks, ranks_of};
use crate::layout::tables::{link_parts, placed_of};
use parts::lists::PartList;
use tasks::order::PriorityOrder;
use tasks::set::TaskSet;

impl Layout {
    // Lays a plan out in time, with the ranks of its tasks under the order.
    pub(crate) fn new<O: PriorityOrder>(
        set: TaskSet,
        processors: usize,
        list: PartList,
        order: &O,
    ) -> Layout
        requires { numbers_pass set processors (parts_of list) ≡ true }
        ensures same { (result.set ≡ set) × (result.processors ≡ processors) × (result.list ≡ list) }
        ensures ranked { ByOrder result (O.before order.now) }
    {
        let parts = list.as_slice();
        let mut placed = placed_of(parts);
        let first = link_parts(parts, &mut placed);
        let Ranks { ranks, by_rank } = ranks_of(&set, order);
        Layout {
            set,
            processors,
            list,
            placed,
            first,
            ranks,
            by_rank,
        }
    }
}
