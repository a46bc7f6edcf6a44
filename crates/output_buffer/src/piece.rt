use blocked::Due;
use col_pages::Page;

/// What passes an edge.
#[derive(Drop)]
pub enum Piece {
    Rows(Page),
    /// No more pages come: of a `Gather`, from the putter of this number; of a `Spread`, for the taker that
    /// takes it.
    End(u32),
}

/// A put that was refused. It has the piece.
#[derive(Drop)]
pub enum PutFault {
    /// The edge held as many pieces as it has room for.
    Full(Piece),
}

/// The edge held no piece.
#[derive(Clone, Copy)]
pub struct Empty;

/// A piece that was taken, and the duty to ring the bell of the edge's free places.
pub struct Took {
    pub piece: Piece,
    pub due: Due,
}
