// The questions of a machine, which change nothing.
ghost use Rattle.std.specs.Prelude.{◌≡◌, IfOk};
ghost use Rattle.machine.specs.Layouts.{table_word};
ghost use Rattle.machine.specs.Meaning.{processors_of, system_of, state_of, Ranked};
ghost use Rattle.machine.specs.Words.{ReadyWord, ready_tasks_on, Asked};

use crate::Machine;
use crate::fault::MachineFault;
use tasks::arrival::ArrivalRule;
use tasks::order::PriorityOrder;

impl<O: PriorityOrder, R: ArrivalRule> Machine<O, R> {
    // How many ticks have passed since the start.
    pub fn clock(&self) -> u64
        ensures { result ≡ (state_of self.now R.left).clock }
    {
        self.clock
    }

    // How many processors the plan has, which is how many bytes a tick answers.
    pub fn processors(&self) -> usize
        ensures { result ≡ processors_of self.now }
    {
        self.dispatcher.layout.processors
    }

    // The ready word of a processor: bit r is set where the task of rank r is ready there.
    pub fn ready_word(&self, processor: usize) -> Result<u32, MachineFault>
        ensures known { Asked (processors_of self.now) processor result }
        ensures word { Ranked self.now O.before → IfOk result (ReadyWord (system_of self.now O.before R.curve) (state_of self.now R.left) processor) }
    {
        self.word_of(processor)
    }

    // How many jobs are ready on a processor.
    pub fn ready_count(&self, processor: usize) -> Result<u32, MachineFault>
        ensures known { Asked (processors_of self.now) processor result }
        ensures count { IfOk result (λ n. n ≡ ready_tasks_on (system_of self.now O.before R.curve) (state_of self.now R.left) processor) }
    {
        Ok(self.word_of(processor)?.count_ones())
    }

    // The ready word of a processor, by the ranks of the layout.
    fn word_of(&self, processor: usize) -> Result<u32, MachineFault>
        ensures known { Asked (processors_of self.now) processor result }
        ensures word { IfOk result (λ w. w ≡ table_word self.now.dispatcher.layout self.now.dispatcher.table processor) }
    {
        if processor >= self.dispatcher.layout.processors {
            return Err(MachineFault::Unknown { number: processor });
        }
        let words = self.dispatcher.ready_words();
        Ok(words[processor])
    }
}
