// What a line is judged under.
use graph::declarations::Declarations;
use keys::Rising;

// What a line is judged under: declared classes and names, the keys of permitted triples, and those of the nodes and edges above.
#[derive(Clone, Copy)]
pub struct Above<'a> {
    pub classes: Declarations,
    pub names: Declarations,
    pub permitted: Rising<'a>,
    pub nodes: &'a [u64],
    pub edges: &'a [u64],
}
