//! A transcript as a picture: a sequence diagram with a lane for each node, as SVG, as a page that steps through it, or as
//! Mermaid text.
//!
//! What a picture is, is defined in `specs/`: its lanes, the shape that each line of the transcript has, and
//! the text of both. `draw` writes that text; `laws` says what holds of every picture.
#![tactic(auto)]

mod arrow;
mod band;
mod chosen;
mod coordinates;
mod drawing;
mod end;
mod ends;
mod event;
mod figure;
mod flight;
mod label;
mod lane;
mod lanes;
pub mod laws;
mod mermaid;
mod news;
mod nodes;
mod page;
mod picture;
mod piece;
mod places;
mod plan;
mod shape;
mod style;
mod subject;
mod svg;
mod svg_rows;
mod svg_shapes;
mod tone;
mod track;
mod view;

use band::Band;
pub use drawing::{Form, Kind, draw};
use end::End;
use flight::Flight;
use lane::Lane;
use news::{News, Turn};
pub use nodes::Nodes;
use picture::Picture;
use places::Places;
use shape::Shape;
use tone::Tone;
use track::Track;
use view::View;
