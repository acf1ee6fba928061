//! The properties of one object: paths, values, and the map from paths to values.
#![tactic(auto)]

mod path;
mod props;
mod segment;
mod segments;
mod value;
mod walk;

pub use path::{Class, Path, PropFault, read_path};
pub use props::{Listed, Props};
pub use value::PropValue;
pub use walk::Walk;
