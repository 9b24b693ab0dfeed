use cmr_base::Position;

/// The corners of a cut: row i and column p in side one, and row k and column j in side two.
#[derive(Clone, Copy)]
pub struct Corners {
    pub one: Position,
    pub two: Position,
}
