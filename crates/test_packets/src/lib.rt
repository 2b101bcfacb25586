//! Tests of bytes, words and tables: outside vectors, and each public call once.
#![tactic(auto)]

#[cfg(test)]
mod check;
#[cfg(test)]
mod io_edge_tests;
#[cfg(test)]
mod pkt_desc_tests;
#[cfg(test)]
mod txn_table_tests;
#[cfg(test)]
mod vm_page_tests;
#[cfg(test)]
mod wire_table_tests;
