//! What the rules of a vat do to its parts: what a capability comes to, how it is sent and taken in,
//! how outcomes are given and promises settled, where calls go, and how waiting calls leave. Each
//! function meets its rule of the machine (cp_vat_machine).
#![tactic(auto)]

pub mod descriptors;
pub mod entry;
pub mod exports;
pub mod give;
pub mod give_own;
pub mod go;
pub mod leave;
pub mod lists;
pub mod promised;
pub mod receive;
pub mod resolve;
pub mod settle;
