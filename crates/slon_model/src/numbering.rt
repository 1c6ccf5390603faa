/// What a database numbers, below a ceiling that stands in its store and rises in blocks.
#[derive(Clone, Copy, Debug, Drop, PartialEq, Eq)]
pub enum Numbering {
    /// The ids of transactions.
    Xids,
    /// The numbers of actions.
    Actions,
}
