//! Tests of documents and texts: bytes in and out, names and calls, documents and their texts, on flat
//! pages too, and the parser.
//!
//! They call the crates below as any caller does, so those crates are proved once, without tests of their own. What a
//! script and its journal can show stands in pairs of files and not here.
#![tactic(auto)]

#[cfg(test)]
mod byte_edge_calls;
#[cfg(test)]
mod flat_doc_calls;
#[cfg(test)]
mod pyx_text_calls;
#[cfg(test)]
mod xml_model_calls;
#[cfg(test)]
mod xq_ast_calls;
#[cfg(test)]
mod xq_parse_calls;
