//! Laws of two vats and the messages between them: calls come in order, and counts agree. And what the messages of one
//! vat alone say of its tables.
#![tactic(auto)]

pub mod agreement;
pub mod call_order;
pub mod expected_messages;
pub mod export_counts;
pub mod export_numbers;
pub mod ledger;
pub mod new_vats;
pub mod waiting_calls;
