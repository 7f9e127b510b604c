// Reading a run's bytes (docs/RUN.md): the settings, transports, restarts, shapes and paths that its fields make. The fields are read by crate
// `fields`, whose `specs/Parser.antt` says how readings follow each other; `specs/Records.antt` and `specs/Curves.antt` say what they make.
#![tactic(auto)]

mod kept;
mod paths;
mod records;
mod shapes;

pub use paths::read_path;
pub use records::{read_restart, read_scale, read_settings, read_transport};
pub use shapes::read_shape;
