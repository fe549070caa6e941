//! The system as what opens the folders of stores: `Syncing` says of their files that their writes mix, where the words of the command line
//! ask for that (module `syncing`).
#![tactic(auto)]

mod syncing;

pub use syncing::Syncing;
