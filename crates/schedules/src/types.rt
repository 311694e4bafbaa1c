//! Kinds of edges.

/// A choice of kinds of edges.
#[derive(Clone, Copy)]
pub struct EdgeKinds {
    pub ww: bool,
    pub wr: bool,
    pub rw: bool,
    /// Process edges and realtime edges.
    pub order: bool,
}

impl EdgeKinds {
    /// All kinds, which a phenomenon may use at any level.
    pub const ALL: Self = EdgeKinds {
        ww: true,
        wr: true,
        rw: true,
        order: true,
    };
    /// Dependency edges, all that a phenomenon may use at the level plain.
    pub const PLAIN: Self = EdgeKinds {
        ww: true,
        wr: true,
        rw: true,
        order: false,
    };
    /// All kinds except rw edges, which G1c may use at any level.
    pub const WITHOUT_RW: Self = EdgeKinds {
        ww: true,
        wr: true,
        rw: false,
        order: true,
    };
    /// All kinds except wr and rw edges, which G0 may use at any level.
    pub const WITHOUT_READS: Self = EdgeKinds {
        ww: true,
        wr: false,
        rw: false,
        order: true,
    };
}
