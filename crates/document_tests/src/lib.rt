//! Tests of the libraries that make documents: each public call that may want memory succeeds where
//! there is some, which no clause says. It has no code of its own.
//!
//! They stand here since a crate with tests is proved twice, and these libraries are proved once.
//! What documents are and do is shown by runs of the program, which cost no proof: by the rows of
//! `tools/rows/document_rows.py`, `tools/rows/style_rows.py` and `tools/rows/node_rows.py`, and by `tables/`.
#![tactic(auto)]

#[cfg(test)]
mod drafts;
#[cfg(test)]
mod items;
#[cfg(test)]
mod objects;
#[cfg(test)]
mod small_documents;
#[cfg(test)]
mod styles;
#[cfg(test)]
mod text_rows;
