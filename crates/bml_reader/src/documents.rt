//! Documents.

ghost use Rattle.std.specs.Prelude.{◌≡◌, ◌≢◌, ◌↔◌, ℕ, List, Result, Ok, Err, IfOk, IfErr, MatchResult};
ghost use Rattle.bml_reader.specs.declared.faults.DocFault.{DocFault};
ghost use Rattle.dom_tree.specs.Items.{Item};
ghost use Rattle.dom_tree.specs.Nested.{Nested};
ghost use Rattle.bml_reader.specs.Faults.{HasFault, ReadsWell};
ghost use Rattle.bml_reader.specs.Grammar.{Reads};
ghost use Rattle.bml_reader.specs.devices.Machine.{start_state};
ghost use Rattle.bml_reader.specs.devices.ReaderViews.{IsRead, seen_by, seen_of};
ghost use Rattle.bml_reader.specs.Readings.{IsReading, reading_of};

use crate::faults::DocFault;
use crate::markup::next_markup;
use crate::readers::Reader;
use bml_bytes::NoMemory;
use dom_tree::Tree;
use std::alloc::Global;

/// Reads a document, and gives its nodes in document order. Where the bytes aren't a document that
/// is shown, tells the first fault that they have, in the order in which `DocFault` lists them. So
/// the answer is what the bytes read as, but that `NoMemory` may come in its place. Each byte is
/// read a bounded number of times, and what is kept is bounded by the tree, the open elements and
/// the longest text.
pub fn read_document(alloc: Global, bytes: &[u8]) -> Result<Tree, DocFault>
    ensures ok { IfOk result (λ tree. ReadsWell bytes.now tree) }
    ensures err { IfErr result (λ fault. HasFault bytes.now fault) }
    ensures reading { MatchResult result (λ tree. reading_of bytes.now ≡ Ok tree)
        (λ fault. fault ≢ DocFault.NoMemory → reading_of bytes.now ≡ Err fault) }
{
    let mut reader = Reader::new(alloc);
    match read_pieces(&mut reader, bytes) {
        Ok(true) => reader.finish(),
        Ok(false) => reader.refuse(DocFault::Malformed),
        Err(_) => reader.refuse(DocFault::NoMemory),
    }
}

// Reads all pieces, and answers whether they are a document in the grammar.
fn read_pieces(reader: &mut Reader, bytes: &[u8]) -> Result<bool, NoMemory>
    requires { seen_by reader.old ≡ seen_of start_state }
    ensures { IfOk result (λ is_document. IsRead bytes.now is_document (seen_by reader.new)) }
{
    let mut rest = bytes;
    'markup: while !rest.is_empty() {
        match next_markup(reader.alloc, rest)? {
            None => return Ok(false),
            Some((markup, behind)) => {
                if !reader.take(markup)? {
                    return Ok(false);
                }
                rest = behind;
            }
        }
    }
    Ok(reader.is_whole())
}

/// Bytes stand for at most one tree.
pub fn law_of_documents()
    ensures { (bytes : List ℕ) (one other : Nested) → Reads bytes one → Reads bytes other
        → one ≡ other }
{}

/// A result is `reading_of` some bytes exactly where it is their reading by the grammar: the nodes
/// of the document that they are, where they are one without a fault, and else the first fault that
/// they have.
pub fn law_of_readings()
    ensures { (bytes : List ℕ) (reading : Result (List Item) DocFault)
        → (reading_of bytes ≡ reading) ↔ IsReading bytes reading }
{}
