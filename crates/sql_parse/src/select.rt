//! A SELECT as a whole.
use crate::columns::OrderKeys;
use crate::cores::Cores;

/// `core UNION ALL core ..`, with ORDER BY and LIMIT.
#[derive(Drop)]
pub struct Select {
    /// 1 to 4 of them, where the SELECT is that of a text.
    pub cores: Cores,
    pub order: OrderKeys,
    pub limit: Option<u64>,
}
