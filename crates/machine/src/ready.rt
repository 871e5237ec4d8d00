// Which jobs are ready, and which of them run.
ghost use Rattle.std.specs.Int.Count.{count_trailing_zeros};
ghost use Rattle.std.specs.Prelude.{◌≡◌, ℕ, ◌<◌, length, slice_index, slice_index_or};
ghost use Rattle.machine.specs.Layouts.{table_word};
ghost use Rattle.machine.specs.Meaning.{Runs};

use crate::dispatcher::Dispatcher;
use crate::jobs::Job;

// What a processor that runs nothing answers. No Option stands for it inside, since a tick writes these very bytes out.
const IDLE: u8 = 255;

impl Dispatcher {
    // The ready words of all processors, in one pass over the tasks: bit r is set where the task of rank r is ready there.
    pub(crate) fn ready_words(&self) -> [u32; 8]
        ensures whole { length result ≡ 8 }
        ensures value { (p : ℕ) → p < 8 → slice_index result p ≡ table_word self.now.layout self.now.table p }
    {
        let mut words = [0u32; 8];
        for (task, job) in self.table.jobs[..self.layout.set.count()]
            .iter()
            .enumerate()
        {
            if let Job::Ready { part, .. } = *job {
                let processor = usize::from(self.layout.placed[part].processor);
                words[processor] |= 1u32 << self.layout.ranks[task];
            }
        }
        words
    }

    // The task of the lowest rank in a ready word, which a processor of that word runs.
    fn first_in(&self, word: u32) -> u8
        ensures { result ≡ slice_index_or self.now.layout.by_rank (count_trailing_zeros 32 word) 255 }
    {
        // `as`: there is no From into usize for a u32
        let rank = word.trailing_zeros() as usize;
        self.layout.by_rank.get(rank).copied().unwrap_or(IDLE)
    }

    // The task that each processor runs: of those ready there, the one of lowest rank.
    pub(crate) fn running_tasks(&self) -> [u8; 8]
        ensures whole { length result ≡ 8 }
        ensures value { Runs self.now.layout self.now.table result }
    {
        let words = self.ready_words();
        let mut running = [IDLE; 8];
        // the plan's processors alone: a `map` of the words would go over all eight
        for (processor, word) in words[..self.layout.processors].iter().enumerate() {
            running[processor] = self.first_in(*word);
        }
        running
    }
}
