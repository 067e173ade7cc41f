// Buffers that are filled from readers: by one read and by many, where the bytes end, and where a read fails.
use crate::read_full;
use std::io;
use std::io::Read;

// Gives at most `step` bytes a call, and fails once, after `before` bytes.
#[derive(Drop)]
struct InSteps {
    bytes: &'static [u8],
    step: usize,
    before: Option<usize>,
}

impl Read for InSteps {
    fn read(&mut self, buf: &mut [u8]) -> io::Result<usize> {
        if self.before == Some(0) {
            self.before = None;
            return Err(io::ErrorKind::TimedOut.into());
        }
        let n = self.step.min(buf.len()).min(self.bytes.len());
        let n = self.before.map_or(n, |left| n.min(left));
        self.before = self.before.map(|left| left.saturating_sub(n));
        buf[..n].copy_from_slice(&self.bytes[..n]);
        self.bytes = &self.bytes[n..];
        Ok(n)
    }
}

fn in_steps(bytes: &'static [u8], step: usize) -> InSteps {
    InSteps {
        bytes,
        step,
        before: None,
    }
}

#[test]
fn fills_by_many_reads(rt: HostRuntime) {
    let mut input = in_steps(b"ballastwren", 2);
    let mut buf = [b'.'; 7];
    assert_eq!(rt; read_full(&mut input, &mut buf).ok(), Some(7));
    assert_eq!(rt; buf, *b"ballast");
    // What is left is fewer than there is room for.
    assert_eq!(rt; read_full(&mut input, &mut buf).ok(), Some(4));
    assert_eq!(rt; buf, *b"wrenast");
    assert_eq!(rt; read_full(&mut input, &mut buf).ok(), Some(0));
    assert_eq!(rt; read_full(&mut in_steps(b"wren", 4), &mut []).ok(), Some(0));
}

#[test]
fn takes_the_bytes_of_a_slice(rt: HostRuntime) {
    let mut input: &[u8] = b"pmd and packs";
    let mut buf = [0u8; 3];
    assert_eq!(rt; read_full(&mut input, &mut buf).ok(), Some(3));
    assert_eq!(rt; buf, *b"pmd");
    assert_eq!(rt; input, b" and packs".as_slice());
}

#[test]
fn hands_on_an_error(rt: HostRuntime) {
    let mut input = in_steps(b"ballastwren", 3);
    input.before = Some(4);
    let mut buf = [b'.'; 7];
    let failed = read_full(&mut input, &mut buf);
    assert_eq!(rt; failed.map_err(|e| e.kind()), Err(io::ErrorKind::TimedOut));
    // The four bytes that came before it stand in front, and none after it is lost.
    assert_eq!(rt; buf, *b"ball...");
    assert_eq!(rt; read_full(&mut input, &mut buf).ok(), Some(7));
    assert_eq!(rt; buf, *b"astwren");
}

#[test]
fn reads_no_more_than_there_is_room_for(rt: HostRuntime) {
    let mut input = in_steps(b"ballastwren", 3);
    input.before = Some(7);
    let mut buf = [b'.'; 7];
    assert_eq!(rt; read_full(&mut input, &mut buf).ok(), Some(7));
    assert_eq!(rt; buf, *b"ballast");
    // The error that is due stays for the next call, also where that has no room.
    assert_eq!(rt; read_full(&mut input, &mut []).ok(), Some(0));
    let failed = read_full(&mut input, &mut buf);
    assert_eq!(rt; failed.map_err(|e| e.kind()), Err(io::ErrorKind::TimedOut));
    assert_eq!(rt; buf, *b"ballast");
}
