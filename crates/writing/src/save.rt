// "Save writes the file at the front of the buffer, leaves the rest and reports the file's length in bytes."
ghost use Rattle.std.specs.Prelude.{◌≡◌, ◌+◌, ◌≤◌, length};
ghost use Rattle.lists.specs.Buffers.{Writes, WritesFrom};
ghost use Rattle.model.specs.Meaning.{most_of_drawing};
ghost use Rattle.graph.specs.Packed.{unpack_scheme, unpack_instance, StoredScheme, StoredInstance};
ghost use Rattle.writing.specs.Lines.{rows_text, file_of};
ghost use Rattle.writing.specs.Writers.{Saves, SavesText};

use forms::LineKind;
use graph::instance::PackedInstance;
use graph::packing::NUMBERS;
use graph::scheme::PackedScheme;
use model::{Refusal, SaveAnswer};
use printing::{row_length, write_row};

// How many bytes the lines of one kind have.
fn rows_length(kind: LineKind, rows: &[u64]) -> usize
    requires { length (rows_text kind rows.now) ≤ most_of_drawing }
    ensures { (result ≡ length (rows_text kind rows.now)) × (result ≤ most_of_drawing) }
{
    rows.iter().map(|row| row_length(kind, *row)).sum()
}

// The lines from a place of the buffer on, and where they end. Each line is written into the part that starts where the last line ended.
fn write_rows(buf: &mut [u8], from: usize, kind: LineKind, rows: &[u64]) -> usize
    requires { from + length (rows_text kind rows.now) ≤ length buf.old }
    ensures { WritesFrom (rows_text kind rows.now) from buf.old result buf.new }
{
    let mut at = from;
    // Kept: a line's length is known once it is written, and where the last line ends the next kind starts: a place, not a part, goes on.
    for row in rows {
        at += write_row(&mut buf[at..], kind, *row);
    }
    at
}

// The rows of a drawing file, kind by kind.
#[derive(Clone, Copy)]
struct Rows<'a> {
    classes: &'a [u64],
    names: &'a [u64],
    permitted: &'a [u64],
    nodes: &'a [u64],
    edges: &'a [u64],
}

impl<'a> Rows<'a> {
    // Kept: an array of the five kinds with their rows, with a contract of its own, is longer than the five calls here and below that a loop saves.
    fn file_length(self) -> usize
        requires { length (file_of self) ≤ most_of_drawing }
        ensures { result ≡ length (file_of self.entry) }
    {
        rows_length(LineKind::Class, self.classes)
            + rows_length(LineKind::Name, self.names)
            + rows_length(LineKind::May, self.permitted)
            + rows_length(LineKind::Node, self.nodes)
            + rows_length(LineKind::Edge, self.edges)
    }

    // "Keys come in this order"
    fn write_file(self, buf: &mut [u8]) -> usize
        requires { length (file_of self) ≤ length buf.old }
        ensures { Writes (file_of self.entry) buf.old result buf.new }
    {
        let mut at = write_rows(buf, 0, LineKind::Class, self.classes);
        at = write_rows(buf, at, LineKind::Name, self.names);
        at = write_rows(buf, at, LineKind::May, self.permitted);
        at = write_rows(buf, at, LineKind::Node, self.nodes);
        write_rows(buf, at, LineKind::Edge, self.edges)
    }

    // The length needed is known before a byte is written, so that a buffer that is too short stays as it was.
    fn save(self, buf: &mut [u8]) -> SaveAnswer
        requires { length (file_of self) ≤ most_of_drawing }
        ensures { SavesText (file_of self.entry) buf.old result buf.new }
    {
        let needed = self.file_length();
        if buf.len() < needed {
            return Err(Refusal::BufferShort {
                needed: needed as u64,
            });
        }
        let length = self.write_file(buf);
        Ok(length as u64)
    }
}

pub fn save(scheme: &PackedScheme, instance: &PackedInstance, buf: &mut [u8]) -> SaveAnswer
    requires stored_scheme { StoredScheme scheme.now }
    requires stored_instance { StoredInstance (unpack_scheme scheme.now) instance.now }
    ensures { Saves (unpack_scheme scheme.now) (unpack_instance instance.now) buf.old result buf.new }
{
    let mut class_rows = [0; NUMBERS as usize];
    let classes = scheme.classes.rows(&mut class_rows);
    let mut name_rows = [0; NUMBERS as usize];
    let names = scheme.names.rows(&mut name_rows);
    let rows = Rows {
        classes: &class_rows[..classes],
        names: &name_rows[..names],
        permitted: &scheme.permitted[..scheme.permissions],
        nodes: &instance.nodes[..instance.order],
        edges: &instance.edges[..instance.size],
    };
    rows.save(buf)
}
