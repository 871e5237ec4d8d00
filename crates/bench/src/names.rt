// The names of the tasks, as a person calls them.
use std::env;

#[derive(Drop)]
pub struct Names {
    given: Vec<String>,
}

impl Names {
    // The program's arguments, after its own name.
    pub fn from_args(rt: &HostRuntime) -> anyhow::Result<Names> {
        let given = env::args(rt)?.skip(1).collect(rt.alloc())?;
        Ok(Names { given })
    }

    // The name of a task; empty where none was given.
    pub fn of(&self, task: usize) -> &str {
        self.given.get(task).map_or("", |name| name.as_str())
    }
}
