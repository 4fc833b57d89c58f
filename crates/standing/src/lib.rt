// The drawing that the lines of a file make, and what a further line adds to it.
#![tactic(auto)]

ghost use Rattle.standing.specs.Held.{FreshDrawing, Fits, Room, KeptLine};

use forms::LineKind;
use graph::declarations::Kind;
use graph::instance::PackedInstance;
use graph::packing::KINDS;
use graph::scheme::PackedScheme;
use text::lines::Line;

// A scheme, and an instance of it.
#[derive(Clone, Copy)]
pub struct Drawing {
    pub scheme: PackedScheme,
    pub instance: PackedInstance,
}

impl Drawing {
    // Kept: a constructor that promises a fresh value; by a derived `Default` it would be one call more, of the same shape in each type.
    pub fn new() -> Drawing
        ensures { FreshDrawing result }
    {
        Drawing {
            scheme: PackedScheme::new(),
            instance: PackedInstance::new(),
        }
    }

    // Adds what a line that passes says.
    pub fn keep(&mut self, line: Line)
        requires fits { Fits self.old }
        requires room { Room self.old line }
        ensures { KeptLine self.old line self.new }
    {
        let row = line.row;
        match line.kind {
            LineKind::Class => {
                self.scheme.classes = self.scheme.classes.with(row / KINDS, Kind::of(row));
            }
            LineKind::Name => {
                self.scheme.names = self.scheme.names.with(row / KINDS, Kind::of(row));
            }
            LineKind::May => {
                self.scheme.permitted[self.scheme.permissions] = row;
                self.scheme.permissions += 1;
            }
            LineKind::Node => {
                self.instance.nodes[self.instance.order] = row;
                self.instance.order += 1;
            }
            // An edge line: a drawing file has no other.
            _ => {
                self.instance.edges[self.instance.size] = row;
                self.instance.size += 1;
            }
        }
    }
}
