// A text read from the front: each step goes past what must stand next.

// What must stand next does not; so many bytes are left.
#[derive(Clone, Copy)]
pub struct Damaged {
    pub left: usize,
}

#[derive(Drop)]
pub struct Text<'a> {
    rest: &'a [u8],
}

impl<'a> Text<'a> {
    pub fn new(text: &'a [u8]) -> Text<'a> {
        Text { rest: text }
    }

    fn damaged(&self) -> Damaged {
        Damaged {
            left: self.rest.len(),
        }
    }

    pub fn word(&mut self, word: &[u8]) -> Result<(), Damaged> {
        match self.rest.strip_prefix(word) {
            Some(rest) => {
                self.rest = rest;
                Ok(())
            }
            None => Err(self.damaged()),
        }
    }

    pub fn number(&mut self, n: u64) -> Result<(), Damaged> {
        let mut digits = [0u8; 20];
        let size = io::decimal(n, &mut digits);
        self.word(&digits[..size])
    }

    // Two digits for each byte of bytes, which is filled from them.
    pub fn hex(&mut self, bytes: &mut [u8]) -> Result<(), Damaged> {
        match self.rest.split_at_checked(2 * bytes.len()) {
            Some((digits, rest)) if hexes::decode(digits, bytes) => {
                self.rest = rest;
                Ok(())
            }
            _ => Err(self.damaged()),
        }
    }

    pub fn line_end(&mut self) -> Result<(), Damaged> {
        self.word(b"\r\n")
    }

    fn comment(&mut self) -> Result<(), Damaged> {
        self.word(b"#")?;
        let stop = self
            .rest
            .iter()
            .position(|b| *b == b'\r' || *b == b'\n')
            .unwrap_or(self.rest.len());
        self.rest = &self.rest[stop..];
        self.line_end()
    }

    // What each file opens with: four comments, and how many bytes a digest has.
    pub fn header(&mut self) -> Result<(), Damaged> {
        for _ in 0..4 {
            self.comment()?;
        }
        self.line_end()?;
        self.word(b"[L = 32]")?;
        self.line_end()?;
        self.line_end()
    }

    pub fn end(&self) -> Result<(), Damaged> {
        if self.rest.is_empty() {
            Ok(())
        } else {
            Err(self.damaged())
        }
    }
}
