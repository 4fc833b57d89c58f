// Drawing files.
ghost use Rattle.reading.specs.Readers.{ReadDrawing};

pub use crate::whole::Whole;
use drawing_lines::check_line;
use model::Refusal;
use standing::Drawing;
use text::lines::{Last, drawing_line};

// The drawing that a file holds, or why it is refused.
pub fn read_drawing(text: &[u8]) -> Result<Whole, Refusal>
    ensures { ReadDrawing text.now result }
{
    let mut drawing = Drawing::new();
    let mut last = Last::new();
    // Kept: a loop here and one in `read_rule`: one for both would ask for a trait with laws for what a line is, what it must meet and what it adds.
    for piece in text.split_inclusive(|b| *b == b'\n') {
        let line = last.lines + 1;
        let bytes = piece
            .strip_suffix(b"\n")
            .ok_or(Refusal::Malformed { line })?;
        let l = drawing_line(bytes).ok_or(Refusal::Malformed { line })?;
        check_line(&drawing, last, l)?;
        drawing.keep(l);
        last = Last {
            lines: line,
            line: Some(l),
        };
    }
    Ok(Whole {
        scheme: drawing.scheme,
        instance: drawing.instance,
    })
}
