//! By what a kqueue tells its knotes apart: the ident and the filter together.

use crate::Filter;

/// What tells the knotes of one kqueue apart: at most one stands for each pair; see kqueue(2).
#[derive(Debug, Drop, Clone, Copy, PartialEq, Eq, Hash)]
pub struct Key {
    pub ident: u64,
    pub filter: Filter,
}
