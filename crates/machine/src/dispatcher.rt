// What decides which task each processor runs.
ghost use Rattle.std.specs.Prelude.{◌≡◌, ℕ, true, length, slice_index_or};
ghost use Rattle.parts.specs.Parts.{parts_of};
ghost use Rattle.machine.specs.Jobs.{fits};
ghost use Rattle.machine.specs.declared.jobs.Job.TheVariants.{Closed};

use crate::jobs::JobTable;
use crate::layout::Layout;

// A plan laid out in time, and the jobs of its tasks: each open job is at a part of the plan.
#[derive(Clone, Copy)]
pub struct Dispatcher {
    pub(crate) layout: Layout,
    pub(crate) table: JobTable,
    ghost whole: { length table.jobs ≡ 32 },
    ghost fitting: { (i : ℕ) → fits (parts_of layout.list) (slice_index_or table.jobs i Closed) ≡ true },
}
