// The statuses of a task by their numbers in a state's bytes; a skipped optional group is done.
#[derive(Clone, Copy, Debug, PartialEq, Eq)]
pub enum Status {
    Waiting,
    Running,
    Done,
}
