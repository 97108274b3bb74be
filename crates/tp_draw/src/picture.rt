//! A picture as it is drawn.
ghost use Rattle.std.specs.Prelude.{◌≡◌, ◌++◌, [], map, OnOk};
ghost use Rattle.tp_model.specs.Words.{decimal};
ghost use Rattle.tp_draw.specs.Texts.{joined, cut, escaped, escaped_octet, plain, plain_octet};
ghost use Rattle.tp_draw.specs.Pieces.{piece_text, piece_texts};

use crate::label::write_label;
use crate::piece::Piece;
use crate::tone::tone_name;
use std::alloc::Global;
use std::marker::Model;
use tp_names::{NoMemory, Octets};
use tp_text_builder::Text;

/// The text of a picture so far, which contracts see as its bytes.
#[derive(Drop)]
pub(crate) struct Picture {
    alloc: Global,
    text: Octets,
}

impl Model for Picture {
    ghost use Rattle.std.specs.Prelude.{ℕ, List};

    ghost Value = { List ℕ };

    ghost view = { λ p. p.text };
}

impl Picture {
    /// Nothing is drawn yet.
    pub(crate) fn new(alloc: Global) -> Picture
        ensures { result ≡ [] }
    {
        let text = Octets::new(alloc);
        Picture { alloc, text }
    }

    pub(crate) fn alloc(&self) -> Global {
        self.alloc
    }

    pub(crate) fn into_text(self) -> Octets
        ensures { result ≡ self }
    {
        let Picture { text, .. } = self;
        text
    }

    /// Puts pieces at the end, one after the other. Without memory some of them may be there.
    pub(crate) fn put(&mut self, pieces: &[Piece]) -> Result<(), NoMemory>
        ensures { OnOk result (self.new ≡ self.old ++ joined (piece_texts pieces.now)) }
    {
        for piece in pieces {
            self.put_piece(piece)?;
        }
        Ok(())
    }

    /// Puts texts at the end, one after the other. Without memory some of them may be there.
    pub(crate) fn put_all(&mut self, texts: &[&str]) -> Result<(), NoMemory>
        ensures { OnOk result (self.new ≡ self.old ++ joined (map (λ t. t.now) texts.now)) }
    {
        for text in texts {
            self.put_bytes(text.as_bytes())?;
        }
        Ok(())
    }

    fn put_piece(&mut self, piece: &Piece) -> Result<(), NoMemory>
        ensures { OnOk result (self.new ≡ self.old ++ piece_text piece.now) }
    {
        match piece {
            Piece::Text(text) => self.put_bytes(text.as_bytes()),
            Piece::Number(n) => self.put_number(*n),
            Piece::Tone(tone) => self.put_bytes(tone_name(*tone).as_bytes()),
            Piece::Label(line) => write_label(self.alloc, line, &mut self.text),
            Piece::Escaped(text) => self.put_escaped(text),
            Piece::Cut(text, most) => self.put_cut(text, *most),
            Piece::Plain(text) => self.put_plain(text),
        }
    }

    fn put_bytes(&mut self, bytes: &[u8]) -> Result<(), NoMemory>
        ensures { OnOk result (self.new ≡ self.old ++ bytes.now) }
    {
        self.text.extend_from_slice(self.alloc, bytes)
    }

    fn put_number(&mut self, n: u64) -> Result<(), NoMemory>
        ensures { OnOk result (self.new ≡ self.old ++ decimal n) }
    {
        let mut text = Text::after(self.alloc, &mut self.text);
        text.number(n);
        text.done(&mut self.text)
    }

    fn put_cut(&mut self, text: &[u8], most: usize) -> Result<(), NoMemory>
        ensures { OnOk result (self.new ≡ self.old ++ cut most text.now) }
    {
        if text.len() <= most {
            self.put_escaped(text)
        } else {
            self.put_escaped(&text[..most])?;
            self.put_bytes(b"..")
        }
    }

    fn put_escaped(&mut self, text: &[u8]) -> Result<(), NoMemory>
        ensures { OnOk result (self.new ≡ self.old ++ escaped text.now) }
    {
        for octet in text {
            self.put_escaped_octet(*octet)?;
        }
        Ok(())
    }

    fn put_escaped_octet(&mut self, octet: u8) -> Result<(), NoMemory>
        ensures { OnOk result (self.new ≡ self.old ++ escaped_octet octet) }
    {
        match octet {
            b'"' => self.put_bytes(b"&quot;"),
            b'&' => self.put_bytes(b"&amp;"),
            b'<' => self.put_bytes(b"&lt;"),
            b'>' => self.put_bytes(b"&gt;"),
            b' '..=b'~' => self.put_bytes(&[octet]),
            _ => self.put_bytes(b"?"),
        }
    }

    fn put_plain(&mut self, text: &[u8]) -> Result<(), NoMemory>
        ensures { OnOk result (self.new ≡ self.old ++ plain text.now) }
    {
        for octet in text {
            self.put_plain_octet(*octet)?;
        }
        Ok(())
    }

    fn put_plain_octet(&mut self, octet: u8) -> Result<(), NoMemory>
        ensures { OnOk result (self.new ≡ self.old ++ plain_octet octet) }
    {
        match octet {
            b'#' => self.put_bytes(b"#35;"),
            b'%' => self.put_bytes(b"#37;"),
            b'&' => self.put_bytes(b"#38;"),
            b';' => self.put_bytes(b"#59;"),
            b'<' => self.put_bytes(b"#60;"),
            b' '..=b'~' => self.put_bytes(&[octet]),
            _ => self.put_bytes(b"?"),
        }
    }
}
