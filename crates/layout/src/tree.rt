// The nodes of a whole tree that is to be laid out, with the sizes of a row.
ghost use Rattle.std.specs.Prelude.{◌≡◌, ◌≤◌};
ghost use Rattle.kinds.specs.Sheet.{count_at};
ghost use Rattle.kinds.specs.Walk.{NodeAt};
ghost use Rattle.layout.specs.Walking.{Powers};

#[derive(Clone, Copy)]
pub(crate) struct Tree<'a> {
    pub(crate) sizes: &'a [u8; 24],
    pub(crate) nodes: &'a [u64],
    pub(crate) n: usize,
    pub(crate) limit: u64,
    ghost powers: { Powers sizes.now },
    ghost stands: { NodeAt nodes.now 0 },
    ghost counted: { count_at nodes.now 0 ≡ n },
    ghost few: { n ≤ 2001 },
}
