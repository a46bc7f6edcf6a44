//! What ends of a driver do at the bells of their edges. These are methods of traits, since their caller need not show
//! then that the handle of the runtime is `Sync`: a driver's turn, which calls them, has no proof of that to give.
ghost use Rattle.output_buffer.specs.declared.piece.Piece.{Piece};

use blocked::{Bells, BlockedOn};
use output_buffer::Piece;
use sql_values::Memory;
use std::sync::Wait;
use std::thread::Threads;

/// An end of a driver that is one edge or several.
pub trait EdgeEnd {
    /// Moves what it can over its edges, and rings the bells that are owed. Where an edge has no room, or no piece, the
    /// answer names the edge's bell, with the count that was read before.
    fn advance<R: Threads + Wait + Sync, B: Bells>(
        &mut self,
        rt: &R,
        bells: &mut B,
    ) -> Result<Option<BlockedOn>, Memory>;
}

/// What puts pieces to an edge.
pub(crate) trait PutsPieces {
    // The piece may be put now.
    ghost may_put: { Self → Piece → Type 0 };

    // The page that it held was put, so an End may be.
    ghost may_end: { Self → Type 0 };

    /// Reads the count of the bell, puts, and rings.
    fn put_piece<R: Threads + Wait + Sync, B: Bells>(
        &mut self,
        rt: &R,
        bells: &mut B,
        piece: Piece,
    ) -> Result<Option<BlockedOn>, Memory>
        requires { may_put self.old piece };

    /// Puts the page that it holds.
    fn put_held<R: Threads + Wait + Sync, B: Bells>(
        &mut self,
        rt: &R,
        bells: &mut B,
    ) -> Result<Option<BlockedOn>, Memory>;

    /// Puts the Ends that are left.
    fn put_ends<R: Threads + Wait + Sync, B: Bells>(
        &mut self,
        rt: &R,
        bells: &mut B,
    ) -> Result<Option<BlockedOn>, Memory>
        requires { may_end self.old };
}

/// What takes pieces from an edge.
pub(crate) trait TakesPieces {
    // It holds no page.
    ghost may_take: { Self → Type 0 };

    /// Reads the count of the bell, takes, and rings.
    fn take_piece<R: Threads + Wait + Sync, B: Bells>(
        &mut self,
        rt: &R,
        bells: &mut B,
    ) -> Result<Option<BlockedOn>, Memory>
        requires { may_take self.old };
}
