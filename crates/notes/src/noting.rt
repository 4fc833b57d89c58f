// What a walk notes at each matching. specs/Visits.antt says which keys these are.
ghost use Rattle.std.specs.Prelude.{◌≤◌, length};
ghost use Rattle.model.specs.Limits;

// Arms, no more than the key that they make together has room for. The lowest digits of an arm are its pattern node.
// Kept: that their names are below 2 ^ 6 stays a `requires` of those that read names, since a walk notes arms whatever their names are.
#[derive(Clone, Copy)]
pub struct Arms<'a> {
    pub parts: &'a [u64],
    pub ghost few: { length parts.now ≤ Limits.arms },
}

#[derive(Clone, Copy)]
pub enum Noting<'a> {
    Nothing,
    // The image of each edge between pattern nodes.
    Edges(&'a [u64]),
    // The images of the arms' nodes, as one key.
    Arms(Arms<'a>),
    // The image of a pattern node.
    Node(u64),
}
