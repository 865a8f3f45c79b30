//! The rows of a drawing.
//!
//! A byte takes four columns. A member begins with a bar, and its name follows if it fits. Each column of a hole after its bar has a dot.
//! A row ends with a bar.
use crate::LabelText;
use crate::pieces::Piece;
use std::fmt;

/// The bytes of a row.
pub const ROW_BYTES: u32 = 16;

/// The columns of a byte.
const BYTE_COLUMNS: usize = 4;

/// A sign in some columns.
#[derive(Clone, Copy)]
struct Columns {
    sign: &'static str,
    count: usize,
}

impl fmt::Display for Columns {
    fn fmt<W: fmt::Write>(&self, f: &mut fmt::Formatter<W>) -> fmt::Result {
        for _ in 0..self.count {
            f.write_str(self.sign)?;
        }
        Ok(())
    }
}

/// The columns of a piece's bytes after its bar.
#[derive(Clone, Copy)]
struct CellText<'a> {
    piece: Piece<'a>,
    is_named: bool,
    columns: usize,
}

impl fmt::Display for CellText<'_> {
    fn fmt<W: fmt::Write>(&self, f: &mut fmt::Formatter<W>) -> fmt::Result {
        let count = self.columns;
        let Some(slot) = self.piece.slot else {
            return write!(f, "{}", Columns { sign: "·", count });
        };
        let label = LabelText { slot };
        let width = label.width();
        if self.is_named && width <= count {
            let count = count - width;
            write!(f, "{label}{}", Columns { sign: " ", count })
        } else {
            write!(f, "{}", Columns { sign: " ", count })
        }
    }
}

/// Bytes of a piece that are in one row.
#[derive(Clone, Copy)]
struct RunText<'a> {
    drawing: DrawingText<'a>,
    piece: Piece<'a>,
    start: u64,
    end: u64,
}

impl fmt::Display for RunText<'_> {
    fn fmt<W: fmt::Write>(&self, f: &mut fmt::Formatter<W>) -> fmt::Result {
        if self.end <= self.start {
            return Ok(());
        }
        if self.start % ROW_BYTES as u64 == 0 {
            write!(f, "{}{:>6} ", self.drawing.margin(), self.start)?;
        }
        let is_named = self.start == self.piece.start as u64;
        let columns = (self.end - self.start).min(ROW_BYTES as u64) as usize * BYTE_COLUMNS - 1;
        let cell = CellText {
            piece: self.piece,
            is_named,
            columns,
        };
        write!(f, "{}{cell}", if is_named { "|" } else { " " })?;
        if self.end % ROW_BYTES as u64 == 0 || self.end == self.drawing.span as u64 {
            f.write_str("|\n")?;
        }
        Ok(())
    }
}

/// A piece: its bytes in the row where it begins, in the rows that are all its own, and in the row where it ends. Of two or more rows of
/// its own only the end is printed.
#[derive(Clone, Copy)]
struct PieceText<'a> {
    drawing: DrawingText<'a>,
    piece: Piece<'a>,
}

impl PieceText<'_> {
    fn run(&self, start: u64, end: u64) -> RunText<'_> {
        RunText {
            drawing: self.drawing,
            piece: self.piece,
            start,
            end,
        }
    }
}

impl fmt::Display for PieceText<'_> {
    fn fmt<W: fmt::Write>(&self, f: &mut fmt::Formatter<W>) -> fmt::Result {
        let row = ROW_BYTES as u64;
        let (start, end) = (self.piece.start as u64, self.piece.end as u64);
        let first = (start / row + 1) * row;
        if end <= first {
            return write!(f, "{}", self.run(start, end));
        }
        let last = end / row * row;
        write!(f, "{}", self.run(start, first))?;
        if last == first + row {
            write!(f, "{}", self.run(first, last))?;
        } else if last > first {
            write!(f, "{}   ... up to {last}\n", self.drawing.margin())?;
        }
        write!(f, "{}", self.run(last, end))
    }
}

/// The drawing of a struct: its bytes in rows of 16, each with the number of its first byte.
#[derive(Clone, Copy)]
pub struct DrawingText<'a> {
    pub pieces: &'a [Piece<'a>],
    /// The size of the struct in bytes.
    pub span: u32,
    /// The number of blanks before each row.
    pub indentation: usize,
}

impl DrawingText<'_> {
    fn margin(&self) -> Columns {
        Columns {
            sign: " ",
            count: self.indentation,
        }
    }
}

impl fmt::Display for DrawingText<'_> {
    fn fmt<W: fmt::Write>(&self, f: &mut fmt::Formatter<W>) -> fmt::Result {
        for piece in self.pieces {
            let text = PieceText {
                drawing: *self,
                piece: *piece,
            };
            write!(f, "{text}")?;
        }
        Ok(())
    }
}
