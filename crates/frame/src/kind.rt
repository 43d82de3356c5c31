// The kinds of the nodes that hold a tree's records.
ghost use Rattle.std.specs.Prelude.{◌≡◌};
ghost use Rattle.frame.specs.Kinds.{kind_number, kind_for};

#[derive(Clone, Copy, PartialEq, Eq)]
pub enum Kind {
    Index,
    Leaf,
}

impl Kind {
    // The byte that a node of this kind has. A method and no `From`, as its name says which number.
    pub fn number(self) -> u32
        ensures { result ≡ kind_number self }
    {
        match self {
            Kind::Index => 0,
            Kind::Leaf => 255,
        }
    }

    // As what a node with this byte is read: every byte but a leaf's stands for an index node.
    pub fn of_byte(byte: u32) -> Kind
        ensures { result ≡ kind_for byte }
    {
        match byte {
            255 => Kind::Leaf,
            _ => Kind::Index,
        }
    }
}
