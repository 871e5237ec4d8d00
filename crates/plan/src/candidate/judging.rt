// How a plan whose numbers have passed is judged.
ghost use Rattle.std.specs.Prelude.{◌≡◌, MatchResult, Some};
ghost use Rattle.parts.specs.Parts.{parts_of};
ghost use Rattle.plan.specs.Answers.{Judged, Timed, check_fault};
ghost use Rattle.plan.specs.Candidates.{system_of};
ghost use Rattle.plan.specs.Checks.{number_fault, overlap};
ghost use Rattle.tasks.specs.Searches.{first_where};
ghost use Rattle.tasks.specs.Sets.{count_of};

use crate::candidate::Candidate;
use crate::numbers::{check_numbers, sums};
use crate::response::response_time;
use parts::fault::PlanFault;
use parts::fixed::FixedList;
use parts::lists::{MAX_PARTS, PartList};
use tasks::arrival::ArrivalRule;
use tasks::order::PriorityOrder;
use tasks::set::TaskSet;

impl<'a, O, R> Candidate<'a, O, R> {
    // The plan as a candidate, or what is wrong with its numbers.
    pub(crate) fn new(
        set: &'a TaskSet,
        processors: usize,
        list: &'a PartList,
        order: &'a O,
        rule: &'a R,
    ) -> Result<Candidate<'a, O, R>, PlanFault>
        ensures { MatchResult result (λ c. (c.set.now ≡ set.now) × (c.processors ≡ processors) × (c.list.now ≡ list.now) × (c.order.now ≡ order.now) × (c.rule.now ≡ rule.now)) (λ f. number_fault set.now processors (parts_of list.now) ≡ Some f) }
    {
        check_numbers(set, processors, list)?;
        Ok(Candidate {
            set,
            processors,
            list,
            order,
            rule,
        })
    }
}

impl<'a, O: PriorityOrder, R: ArrivalRule> Candidate<'a, O, R> {
    // Whether the task may be released again before its last window has ended.
    fn is_overlapping(&self, task: usize) -> bool
        ensures { result ≡ overlap (system_of self.now O.before R.curve) task }
    {
        self.rule.curve_at(task, sums(self.list, task).window) > 1
    }

    // The first task that may be released again before its last window has ended.
    fn first_overlap(&self) -> Option<usize>
        ensures { result ≡ first_where (overlap (system_of self.now O.before R.curve)) (count_of self.now.set.now) }
    {
        (0..self.set.count()).find(|task| self.is_overlapping(*task))
    }

    // The response times of all parts, each looked for in its window, or the first part that has none.
    fn response_times(&self) -> Result<FixedList<u32, MAX_PARTS>, PlanFault>
        ensures { Timed (system_of self.now O.before R.curve) (parts_of self.now.list.now) result }
    {
        let mut times = FixedList::filled(0);
        for (index, part) in self.list.as_slice().iter().enumerate() {
            let time = response_time(
                self.set,
                self.list,
                *part,
                part.window,
                self.order,
                self.rule,
            )
            .ok_or(PlanFault::Late { part: index })?;
            times.push(time).unwrap();
        }
        Ok(times)
    }

    // What is wrong with the plan, a buffer with room for too few response times last, or the response times.
    pub(crate) fn judge(&self, room: usize) -> Result<FixedList<u32, MAX_PARTS>, PlanFault>
        ensures { Judged (check_fault self.now.set.now self.now.processors (parts_of self.now.list.now) (O.before self.now.order.now) (R.curve self.now.rule.now) room) (system_of self.now O.before R.curve) (parts_of self.now.list.now) result }
    {
        if let Some(task) = self.first_overlap() {
            return Err(PlanFault::Overlap { task });
        }
        let times = self.response_times()?;
        let needed = self.list.len();
        if room < needed {
            Err(PlanFault::Cramped { needed })
        } else {
            Ok(times)
        }
    }
}
