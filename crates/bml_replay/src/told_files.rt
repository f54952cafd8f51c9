//! What is said of a file when a run has ended for it, beside the status.

use bml_ports::Text;
use std::fs::{self, File};
use std::io::{self, BufReader, ErrorKind, Read};

/// How many bytes of a line are shown.
const MOST_SHOWN: usize = 128;

/// How many bytes one call of the operating system reads at most.
const BUFFER_BYTES: usize = 65_536;

/// Says which of the two files of a replay can't be opened or read, if one can't.
pub fn tell_fault(rt: &HostRuntime, stream: &Text, record: &Text) {
    if !tells_fault(rt, stream) {
        tells_fault(rt, record);
    }
}

// Says why the file of this name can't be opened or read, and whether that was said.
fn tells_fault(rt: &HostRuntime, name: &Text) -> bool {
    let Some(path) = name_of(rt, name) else {
        return false;
    };
    let Ok(path) = str::from_utf8(path.as_slice()) else {
        return false;
    };
    match try_to_open(rt, path) {
        Ok(()) => false,
        Err(error) => eprintln!(rt; "{path}: {error}").is_ok(),
    }
}

// Opens a file or a folder as a run does. Whatever else it may be, as a pipe, is only looked for: to open it might wait.
fn try_to_open(rt: &HostRuntime, path: &str) -> io::Result<()> {
    let found = fs::metadata(rt, path)?;
    if found.is_dir() {
        return Err(ErrorKind::IsADirectory.into());
    }
    if found.is_file() {
        File::open(rt, path)?;
    }
    Ok(())
}

/// Says what stands in a line of the record, counted from 1, if the record is a file that can be read again.
pub fn tell_line(rt: &HostRuntime, record: &Text, number: u64) {
    let Some(path) = name_of(rt, record) else {
        return;
    };
    let Ok(path) = str::from_utf8(path.as_slice()) else {
        return;
    };
    let Ok(Some(line)) = shown_line(rt, path, number) else {
        return;
    };
    if let Ok(line) = str::from_utf8(line.as_slice()) {
        let _ = eprintln!(rt; "{path}:{number}: {line}");
    }
}

// The bytes of a name.
fn name_of(rt: &HostRuntime, name: &Text) -> Option<Vec<u8>> {
    let mut bytes = Vec::new(rt.alloc());
    name.push_bytes(&mut bytes).ok()?;
    Some(bytes)
}

// The front of a line as it is shown, or nothing where the file can't be read twice.
fn shown_line(rt: &HostRuntime, path: &str, number: u64) -> io::Result<Option<Vec<u8>>> {
    if !fs::metadata(rt, path)?.is_file() {
        return Ok(None);
    }
    let reader = BufReader::with_capacity(rt.alloc(), BUFFER_BYTES, File::open(rt, path)?)?;
    let (mut at, mut count) = (1u64, 0usize);
    let mut shown = Vec::new(rt.alloc());
    for byte in reader.bytes() {
        let byte = byte?;
        if byte == b'\n' {
            if at == number {
                break;
            }
            at = at.saturating_add(1);
        } else if at == number {
            if count == MOST_SHOWN {
                shown.extend_from_slice(b" ..")?;
                break;
            }
            push_shown(byte, &mut shown)?;
            count = count.saturating_add(1);
        }
    }
    Ok(Some(shown))
}

// Appends a byte as it is shown: `%` and those that aren't printed in ASCII as `%HH`.
fn push_shown(byte: u8, out: &mut Vec<u8>) -> io::Result<()> {
    if byte == b'%' || !(0x20..0x7F).contains(&byte) {
        let digits = [b'%', hex_digit(byte >> 4), hex_digit(byte & 15)];
        out.extend_from_slice(&digits)?;
    } else {
        out.push(byte)?;
    }
    Ok(())
}

// The digit of a number below 16, in upper case.
fn hex_digit(number: u8) -> u8 {
    if number < 10 {
        b'0'.saturating_add(number)
    } else {
        b'7'.saturating_add(number)
    }
}
