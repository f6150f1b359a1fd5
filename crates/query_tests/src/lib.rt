//! Tests of navigation: nodes of documents and of constructed trees, over plain trees and over a `Nav` that fails.
//!
//! They call the crates below as any caller does, so those crates are proved once, without tests of their own. What a
//! script and its journal can show stands in pairs of files and not here.
#![tactic(auto)]

#[cfg(test)]
mod navigation;
#[cfg(test)]
mod node_calls;
