//! What is written: modules of a stream, and parts of an entity.

use bml_bytes::Text;

/// A module: its number, its version, its media type, which may be empty, and its bytes.
#[derive(Drop)]
pub struct FileModule {
    pub id: u16,
    pub version: u8,
    pub media: Text,
    pub bytes: Vec<u8>,
}

/// A stream: the PID of its packets, the transactionId, downloadId and blockSize of its DII, how often all of it is sent,
/// and its modules.
#[derive(Drop)]
pub struct Files {
    pub pid: u16,
    pub transaction: u32,
    pub download: u32,
    pub block_size: u16,
    pub rounds: u8,
    pub modules: Vec<FileModule>,
}

/// A part of an entity: its name, its media type, which may be empty, and its bytes.
#[derive(Drop)]
pub struct FilePart {
    pub name: Text,
    pub media: Text,
    pub bytes: Vec<u8>,
}
