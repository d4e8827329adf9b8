// The kinds of nodes by their numbers in a plan's bytes.
#[derive(Clone, Copy, Debug, PartialEq, Eq)]
pub enum Kind {
    Task,
    AllOf,
    AnyOf,
    Optional,
}
