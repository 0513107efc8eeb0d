//! Manifests: what they say, how their texts are cut and edited, and the edits of a call.

pub use hack_edits::manifest::{EditFault, nothing_left, remove_dev_deps};
pub use hack_manifest::manifest::{
    Manifest, ManifestFault, ManifestPackage, Piece, Pieces, PiecesFault, cut_is_one,
    manifest_is_one, pieces_join,
};
pub use hack_prepare::manifest::{PrepareFault, finish, prepare};
pub use hack_private_crates::laws::paths_in_order;
pub use hack_private_crates::private_crates::remove_private_crates;
