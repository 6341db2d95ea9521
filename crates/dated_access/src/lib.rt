//! The steps of a dated tree, which answer as those of the eager tree for which it stands.
//!
//! A step visits the nodes of its path and the guarded nodes, and no others.
#![tactic(auto)]

mod access;
mod change;
mod denial;
mod denied;
mod others;
mod path;
mod piece;
mod pieces;
mod span;

pub use access::access_on;
pub use change::{meet_of_others, meet_on_path};
pub use denial::{Found, denial_of_others, denial_on_path};
pub use denied::{Access, Denial, first_denial};
pub use others::others_of;
pub use path::path_to;
pub use piece::meet;
pub use pieces::piece_end;
pub use span::meet_pieces;
