// How one node stands to another by the codes in the table of orders (specs/Represents.antt).
#[derive(Clone, Copy, Debug, PartialEq, Eq)]
pub enum Relation {
    Apart,
    Before,
    After,
}
