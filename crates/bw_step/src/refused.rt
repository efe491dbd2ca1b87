use bw_keys::Pid;
use thiserror::Error;

/// Why a step is refused: the first reason that applies, in the order in which they stand here.
#[derive(Clone, Copy, Debug, PartialEq, Eq, Hash, Error)]
pub enum Refused {
    #[error("a page isn't there")]
    Absent,
    #[error("a page has changed since it was seen")]
    Stale,
    #[error("the page is being removed")]
    Frozen,
    #[error("a page has the wrong level or kind")]
    WrongKind,
    #[error("the page's range doesn't hold the key")]
    OutOfRange,
    #[error("the key is there, with value {0}")]
    Present(u64),
    #[error("the key isn't there")]
    NoKey,
    #[error("records stand above the page's base")]
    NotBare,
    #[error("the page can't be split there")]
    BadSeparator,
    #[error("the base isn't the one that the page stands for")]
    NotSame,
    #[error("the page is at the wrong stage")]
    WrongStage,
    #[error("the page isn't the parent")]
    WrongParent,
    #[error("page {0} has a term there already")]
    TermStands(Pid),
    #[error("the page is the leftmost child")]
    Leftmost,
    #[error("the pages are no neighbours")]
    NotNeighbours,
    #[error("the chain is too deep")]
    Deep,
    #[error("the tree is too tall")]
    TooTall,
    #[error("the table is full")]
    TableFull,
    #[error("a version or the book's number is used up")]
    Worn,
}
