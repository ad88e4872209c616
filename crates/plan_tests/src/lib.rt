//! Tests of `plan_document`, `plan_table` and `plan_reader`.
#![tactic(auto)]

#[cfg(test)]
mod document_texts;
#[cfg(test)]
mod documents;
#[cfg(test)]
mod reader;
#[cfg(test)]
mod table;
