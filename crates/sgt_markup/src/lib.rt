//! Text between markup, as SVG, HTML and Graphviz read it.
#![tactic(auto)]

mod entities;
mod mending;

pub use entities::push_written;
pub use mending::escaped_text;
