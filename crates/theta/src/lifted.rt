// The leaf that a lift takes out. Its calls are `lift` and `set_back` of the tree.
ghost use Rattle.std.specs.Prelude.{◌≤◌};

// A leaf that was lifted out of its place. It can only be set back: it is neither copied nor let go.
pub struct Lifted<N> {
    pub(crate) place: usize,
    pub(crate) leaf: N,
    ghost inside: { place ≤ 31 },
}
