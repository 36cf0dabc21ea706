use std::io;
use std::io::Read;

/// A reader that gives its bytes in pieces.
#[derive(Drop)]
pub struct PieceReader<'b> {
    left: &'b [u8],
    size: usize,
}

impl<'b> PieceReader<'b> {
    pub fn new(bytes: &'b [u8], size: usize) -> PieceReader<'b> {
        PieceReader { left: bytes, size }
    }
}

impl Read for PieceReader<'_> {
    fn read(&mut self, buf: &mut [u8]) -> io::Result<usize> {
        let room = self.size.min(buf.len());
        self.left.read(&mut buf[..room])
    }
}
