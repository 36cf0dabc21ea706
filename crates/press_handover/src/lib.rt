//! A site that goes on over another kit: what its file keeps of a kit, what stands against another
//! one, and which outcomes come out otherwise over it.
#![tactic(auto)]

mod boxing;
mod comparing;
mod kept;
mod naming;
mod obstacle;
mod otherwise;
mod visiting;

pub use comparing::{Compared, compare};
pub use kept::{KeptFault, kept_kit, parts_of_files, parts_of_kept};
pub use naming::named_plugin;
pub use obstacle::{Obstacle, first_obstacle};
pub use otherwise::Otherwise;
