//! Plots of the heaps of a trace over its lines, and the line to look at.

mod axis;
mod chart;
pub(crate) mod curve;
mod look;
mod peak;
mod plot_form;
pub(crate) mod plotting;
mod point;
pub(crate) mod points;
mod rows;
mod series;
mod standing;
mod svg;
mod told;
pub(crate) mod worst;
